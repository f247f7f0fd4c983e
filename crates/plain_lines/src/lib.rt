// What a line says that brings no bytes: P, T, X and Y.
#![tactic(auto)]

ghost use Rattle.std.specs.Prelude.{◌≡◌};
ghost use Rattle.numerals.specs.Numerals.{decimal_in};
ghost use Rattle.plain_lines.specs.Reading;
ghost use Rattle.plain_lines.specs.Reading.{line_of, tick_of};

use rules::events::Event;
use rules::objects::Axis;

#[derive(Clone, Copy)]
pub enum Line {
    PowerOn(u8),
    Happens(Event),
}

fn power_on(field: &[u8]) -> Option<Line>
    ensures { result ≡ Reading.power_on_line field.now }
{
    let [high, low] = field else {
        return None;
    };
    Some(Line::PowerOn(hex_pairs::byte(*high, *low)?))
}

fn tick(field: &[u8]) -> Option<Line>
    ensures { result ≡ tick_of (decimal_in field.now) }
{
    let time = u16::try_from(numerals::decimal_in(field)?).ok()?;
    Some(Line::Happens(Event::Tick(time)))
}

// No zero is negative.
fn negative(digits: &[u8]) -> Option<i32>
    ensures { result ≡ Reading.negative (decimal_in digits.now) }
{
    match numerals::decimal_in(digits)? {
        0 => None,
        n => i32::try_from(-i64::from(n)).ok(),
    }
}

fn positive(digits: &[u8]) -> Option<i32>
    ensures { result ≡ Reading.positive (decimal_in digits.now) }
{
    i32::try_from(numerals::decimal_in(digits)?).ok()
}

#[tactic(auto, unfolding(crate::specs::Reading::measured_line))]
fn measured(axis: Axis, field: &[u8]) -> Option<Line>
    ensures { result ≡ Reading.measured_line axis field.now }
{
    let reading = match field {
        [b'-', digits @ ..] => negative(digits)?,
        _ => positive(field)?,
    };
    Some(Line::Happens(Event::Measured(axis, reading)))
}

// None where the fields are not of the letter's form.
#[tactic(auto, unfolding(crate::specs::Reading::line_of))]
pub fn line_of(letter: u8, field: &[u8]) -> Option<Line>
    ensures { result ≡ line_of letter field.now }
{
    match letter {
        b'P' => power_on(field),
        b'T' => tick(field),
        b'X' => measured(Axis::X, field),
        b'Y' => measured(Axis::Y, field),
        _ => None,
    }
}
