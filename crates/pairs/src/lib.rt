// An index and a subindex as a word: four hex digits, a colon, and the subindex in decimal.
#![tactic(auto)]

ghost use Rattle.std.specs.Prelude.{◌≡◌};
ghost use Rattle.pairs.specs.Pairs.{joined, pair_in};

#[derive(Clone, Copy)]
pub struct Pair {
    pub index: u16,
    pub subindex: u8,
}

fn joined(first: Option<u32>, second: Option<u32>) -> Option<Pair>
    ensures { result ≡ joined first second }
{
    let index = u16::try_from(first?).ok()?;
    let subindex = u8::try_from(second?).ok()?;
    Some(Pair { index, subindex })
}

#[tactic(auto, unfolding(crate::specs::Pairs::pair_in))]
pub fn pair_in(word: &[u8]) -> Option<Pair>
    ensures { result ≡ pair_in word.now }
{
    let (index, [b':', subindex @ ..]) = word.split_at_checked(4)? else {
        return None;
    };
    joined(
        numerals::number_in(16, index),
        numerals::decimal_in(subindex),
    )
}
