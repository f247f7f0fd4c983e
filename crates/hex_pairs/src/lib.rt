// Bytes as the lines write them: joined hex pairs.
#![tactic(auto)]

ghost use Rattle.std.specs.Prelude.{◌≡◌, ◌<◌, get_or, unwrap_or};
ghost use Rattle.laws.specs.Lists.{elements};
ghost use Rattle.numerals.specs.Numerals.{digits};
ghost use Rattle.hex_pairs.specs.Pairs.{byte_of, bytes_in};

use std::array;

// Whether every byte is a hex digit.
pub fn hex(s: &[u8]) -> bool
    ensures { result ≡ digits 16 s.now }
{
    s.iter().all(u8::is_ascii_hexdigit)
}

// The byte that two hex digits write.
pub fn byte(high: u8, low: u8) -> Option<u8>
    ensures { result ≡ byte_of high low }
{
    Some(numerals::digit(high)? * 16 + numerals::digit(low)?)
}

// The byte of a pair.
#[tactic(auto, using(crate::proofs::Pairs::byte_in, crate::proofs::Pairs::byte_past))]
fn pair_at(s: &[u8], i: usize) -> Option<u8>
    requires { i < 8 }
    ensures { unwrap_or result 0 ≡ get_or (bytes_in s.now) i 0 }
{
    byte(*s.get(2 * i)?, *s.get(2 * i + 1)?)
}

// The first eight bytes, 0 past the last pair.
pub fn first_eight(s: &[u8]) -> [u8; 8]
    ensures { result ≡ elements 8 0 (bytes_in s.now) }
{
    array::from_fn(|i| pair_at(s, i).unwrap_or(0))
}
