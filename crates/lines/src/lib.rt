// What a line of the trace program says.
#![tactic(auto)]

ghost use Rattle.std.specs.Prelude.{◌≡◌};
ghost use Rattle.lines.specs.Collecting.{text_collected};
ghost use Rattle.lines.specs.Reading;
ghost use Rattle.lines.specs.Reading.{line_refusal, parsed};

use frame_lines::Parsed;
use texts::Text;

// A line of none of the forms.
#[derive(Clone, Copy)]
pub struct Malformed;

#[tactic(auto, unfolding(crate::specs::Reading::form))]
fn form(letter: u8, field: &[u8]) -> Option<Parsed>
    ensures { result ≡ Reading.form letter field.now }
{
    if letter == b'F' {
        return frame_lines::frame(field);
    }
    plain_lines::line_of(letter, field).map(Parsed::from)
}

#[tactic(auto, unfolding(crate::specs::Reading::parsed))]
pub fn parse(line: &[u8]) -> Result<Parsed, Malformed>
    ensures { result ≡ parsed line.now }
{
    match line {
        [letter, b' ', field @ ..] => form(*letter, field).ok_or(Malformed),
        _ => Err(Malformed),
    }
}

// A line collected byte by byte; none of the forms is longer than what is held.
#[tactic(auto, unfolding(crate::specs::Collecting::text_collected))]
pub fn read(text: &Text) -> Result<Parsed, Malformed>
    ensures { result ≡ text_collected text.now }
{
    match text.line() {
        Some(line) => parse(line),
        None => Err(Malformed),
    }
}

// The refusal that the form of a line earns, 0 for none: the paper's number, as the definition gives it for every case.
pub fn refusal(read: Result<Parsed, Malformed>) -> u8
    ensures { result ≡ line_refusal read }
{
    match read {
        Ok(_) => 0,
        Err(Malformed) => 5,
    }
}
