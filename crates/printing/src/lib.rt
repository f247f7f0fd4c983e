// What the trace program prints: a frame or a refusal as one line.
#![tactic(auto)]

ghost use Rattle.std.specs.Prelude.{◌≡◌, ◌<◌};
ghost use Rattle.std.specs.Fmt.{decimal};
ghost use Rattle.printing.specs.Printing.{capital, frame_line, pair, pairs, refusal_line};
ghost use Rattle.texts.specs.Texts.{longer_by, text_of};

use rules::events::Frame;
use texts::Text;

const BLANK: u8 = b' ';

const LINE_FEED: u8 = b'\n';

const LETTER_R: u8 = b'R';

fn digit(n: u8) -> u8
    requires { n < 16 }
    ensures { result ≡ capital n }
{
    if n < 10 { b'0' + n } else { b'A' + (n - 10) }
}

fn with_pair(text: Text, b: u8) -> Text
    ensures { result ≡ longer_by (pair b) text }
{
    text.with(digit(b / 16)).with(digit(b % 16))
}

// Bytes as joined pairs.
fn with_pairs(text: Text, bytes: &[u8]) -> Text
    ensures { result ≡ longer_by (pairs bytes.now) text }
{
    let mut longer = text;
    for &b in bytes {
        longer = with_pair(longer, b);
    }
    longer
}

// A sent frame's identifier has three digits; of a larger one the last three are printed.
pub fn frame_text(f: Frame) -> Text
    ensures { result ≡ text_of (frame_line f) }
{
    let [rest, first] = f.identifier.to_le_bytes();
    let heading = with_pair(Text::empty().with(digit(first % 16)), rest).with(BLANK);
    let bytes = f.bytes.as_slice();
    let n = usize::from(f.length).min(bytes.len());
    with_pairs(heading, &bytes[..n]).with(LINE_FEED)
}

fn with_decimal(text: Text, n: u16) -> Text
    ensures { result ≡ longer_by (decimal n) text }
{
    let last = b'0' + (n % 10) as u8;
    if n < 10 {
        return text.with(last);
    }
    with_decimal(text, n / 10).with(last)
}

// A refusal by its number.
pub fn refusal_text(n: u16) -> Text
    ensures { result ≡ text_of (refusal_line n) }
{
    let head = Text::empty().with(LETTER_R).with(BLANK);
    with_decimal(head, n).with(LINE_FEED)
}
