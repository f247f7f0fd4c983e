// Numbers as the lines write them: hex of either case, and decimal.
#![tactic(auto)]

ghost use Rattle.std.specs.Prelude.{◌≡◌, ◌<◌, ◌≤◌, IfSome};
ghost use Rattle.numerals.specs.Numerals.{decimal_in, digit_of, number_in};

// What a digit counts.
#[tactic(auto, unfolding(crate::specs::Numerals::digit_of))]
pub fn digit(b: u8) -> Option<u8>
    ensures value { result ≡ digit_of b }
    ensures small { IfSome result (λ d. d < 16) }
{
    match b {
        b'0'..=b'9' => Some(b - b'0'),
        b'A'..=b'F' => Some(b - b'A' + 10),
        b'a'..=b'f' => Some(b - b'a' + 10),
        _ => None,
    }
}

// A number that does not fit is given up at once, so that any length is read.
pub fn number_in(base: u64, s: &[u8]) -> Option<u32>
    requires { (1 ≤ base) × (base ≤ 16) }
    ensures { result ≡ number_in base s.now }
{
    if s.is_empty() {
        return None;
    }
    let mut n = 0u32;
    for b in s {
        let d = u64::from(digit(*b)?);
        if base <= d {
            return None;
        }
        n = u32::try_from(u64::from(n) * base + d).ok()?;
    }
    Some(n)
}

// Without leading zeros.
#[tactic(auto, unfolding(crate::specs::Numerals::decimal_in))]
pub fn decimal_in(s: &[u8]) -> Option<u32>
    ensures { result ≡ decimal_in s.now }
{
    match s {
        [b'0', _, ..] => None,
        _ => number_in(10, s),
    }
}
