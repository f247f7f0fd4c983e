// What a line says that brings a frame: F.
#![tactic(auto)]

ghost use Rattle.std.specs.Prelude.{◌≡◌, Some};
ghost use Rattle.frame_lines.specs.Reading;
ghost use Rattle.frame_lines.specs.Reading.{first_blank, identifier_in, plain};

use plain_lines::Line;
use rules::events::{Event, FrameHead};

// The bytes of a frame stand beside its event, as the device takes them: the first eight, 0 past the end, and how many there are.
#[derive(Clone, Copy)]
pub struct Parsed {
    pub line: Line,
    pub bytes: [u8; 8],
    pub length: u8,
}

impl From<Line> for Parsed {
    ghost from_gives = { λ line parsed. parsed ≡ plain line };

    fn from(line: Line) -> Parsed {
        Parsed {
            line,
            bytes: [0; 8],
            length: 0,
        }
    }
}

// Where the first blank stands.
fn first_blank(s: &[u8]) -> Option<usize>
    ensures { result ≡ first_blank s.now }
{
    s.iter().position(|b| *b == b' ')
}

#[tactic(auto, unfolding(crate::specs::Reading::identifier_in))]
fn identifier(s: &[u8]) -> Option<u32>
    ensures { result ≡ identifier_in s.now }
{
    if s.len() <= 8 {
        return numerals::number_in(16, s);
    }
    None
}

// Pairs of digits, one to nine.
#[tactic(auto, unfolding(crate::specs::Reading::joined))]
fn joined(s: &[u8]) -> bool
    ensures { result ≡ Reading.joined s.now }
{
    let n = s.len();
    hex_pairs::hex(s) & (n % 2 == 0) & matches!(n / 2, 1..=9)
}

fn received(identifier: u32, bytes: [u8; 8], length: u8) -> Parsed
    ensures { result ≡ Reading.received identifier bytes length }
{
    let head = FrameHead {
        identifier,
        remote: false,
    };
    Parsed {
        line: Line::Happens(Event::Received(head)),
        bytes,
        length,
    }
}

// None where the fields are no frame's.
#[tactic(auto, using(crate::proofs::Fields::joined_few, plain_lines::proofs::Fields::rest, hex_pairs::proofs::Pairs::bytes_count), unfolding(crate::specs::Reading::frame_read))]
pub fn frame(field: &[u8]) -> Option<Parsed>
    ensures { result ≡ Reading.frame_read field.now }
{
    let Some(n) = first_blank(field) else {
        return Some(received(identifier(field)?, [0; 8], 0));
    };
    let pairs = &field[n + 1..];
    if !joined(pairs) {
        return None;
    }
    let bytes = hex_pairs::first_eight(pairs);
    Some(received(identifier(&field[..n])?, bytes, (pairs.len() / 2) as u8))
}
