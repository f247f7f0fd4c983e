// The eight bytes that reply to a request.
#![tactic(auto)]

ghost use Rattle.std.specs.Prelude.{◌≡◌, ◌∷◌, ◌++◌};
ghost use Rattle.rules.specs.Aborts.{abort_code};
ghost use Rattle.rules.specs.Lss.{lss_reply};
ghost use Rattle.rules.specs.Numbers.{two, four};
ghost use Rattle.rules.specs.Replies.{reply as replyOf, read_first, first_segment, last_segment, wrong_toggle, no_transfer};

use rules::aborts::Abort;

// The first byte, the next three of the request that it replies to, and a number.
#[tactic(auto, unfolding(rules::specs::Replies::reply))]
pub fn reply(first: u8, to: [u8; 8], n: u32) -> [u8; 8]
    ensures { result ≡ replyOf first to n }
{
    let [lowest, low, high, highest] = n.to_le_bytes();
    [first, to[1], to[2], to[3], lowest, low, high, highest]
}

// An LSS reply: the first byte, and a number behind it.
pub fn lss(first: u8, n: u32) -> [u8; 8]
    ensures { result ≡ lss_reply first n }
{
    let [lowest, low, high, highest] = n.to_le_bytes();
    [first, lowest, low, high, highest, 0, 0, 0]
}

// The first byte of a read's reply, by the length in bytes.
pub fn read_first(size: u8) -> u8
    ensures { result ≡ read_first size }
{
    match size {
        1 => 0x4F,
        2 => 0x4B,
        _ => 0x43,
    }
}

// The two segments of the string.
pub fn first_segment() -> [u8; 8]
    ensures { result ≡ first_segment }
{
    [0x00, b'B', b'A', b'S', b'I', b'N', b'T', b'I']
}

pub fn last_segment() -> [u8; 8]
    ensures { result ≡ last_segment }
{
    [0x19, b'L', b'T', b'2', 0, 0, 0, 0]
}

// What a segment gets that cannot be had: an abort that names an index, and subindex 0.
#[tactic(auto, unfolding(rules::specs::Replies::reply))]
fn refused_segment(index: u16, why: Abort) -> [u8; 8]
    ensures { result ≡ 0x80 ∷ (two index ++ (0 ∷ four (abort_code why))) }
{
    let [low, high] = index.to_le_bytes();
    reply(0x80, [0, low, high, 0, 0, 0, 0, 0], u32::from(why))
}

pub fn wrong_toggle() -> [u8; 8]
    ensures { result ≡ wrong_toggle }
{
    refused_segment(0x1008, Abort::WrongToggle)
}

pub fn no_transfer() -> [u8; 8]
    ensures { result ≡ no_transfer }
{
    refused_segment(0, Abort::UnknownCommand)
}
