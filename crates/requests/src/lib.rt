// What a request of eight bytes asks, and the rule that names a frame.
#![tactic(auto)]

ghost use Rattle.std.specs.Prelude.{◌≡◌, ◌%◌, ◌^◌};
ghost use Rattle.rules.specs.Numbers.{four_at};
ghost use Rattle.rules.specs.Requests.{command_of, index_of, subindex_of};
ghost use Rattle.requests.specs.Frames.{command_to, request_to, rule_of};

use rules::events::FrameHead;
use rules::objects::Channel;
use rules::requests::{Caller, Command};

const MOST_IDENTIFIER: u32 = 0x7FF;

const MOST_LENGTH: u8 = 8;

const SYNC_AT: u32 = 0x80;

const WHOLE_REQUEST: u8 = 8;

const LSS_REQUEST_AT: u32 = 0x7E5;

#[tactic(auto, unfolding(rules::specs::Requests::command_of))]
pub fn command(first: u8) -> Command
    ensures { result ≡ command_of first }
{
    match first {
        0x22 => Command::Write(None),
        0x23 => Command::Write(Some(4)),
        0x27 => Command::Write(Some(3)),
        0x2B => Command::Write(Some(2)),
        0x2F => Command::Write(Some(1)),
        0x40 => Command::Read,
        0x60 => Command::Segment(0),
        0x70 => Command::Segment(1),
        0x80 => Command::End,
        _ => Command::Unknown,
    }
}

#[tactic(auto, unfolding(rules::specs::Numbers::two_at))]
pub fn index(request: [u8; 8]) -> u16
    ensures { result ≡ index_of request }
{
    u16::from_le_bytes([request[1], request[2]])
}

pub fn subindex(request: [u8; 8]) -> u8
    ensures { result ≡ subindex_of request }
{
    request[3]
}

// The number that an LSS request selects by.
#[tactic(auto, unfolding(rules::specs::Numbers::two_at, rules::specs::Numbers::four_at))]
pub fn selector(request: [u8; 8]) -> u32
    ensures { result ≡ four_at request 1 }
{
    u32::from_le_bytes([request[1], request[2], request[3], request[4]])
}

// A number's lowest bytes, so many; each length by itself, since by a power the compiler would divide.
fn lowest(size: u8, n: u32) -> u32
    ensures { result ≡ n % 256 ^ size }
{
    match size {
        0 => 0,
        1 => n % 256,
        2 => n % 65536,
        3 => n % 16777216,
        _ => n,
    }
}

// The value that is written, in a length of so many bytes.
#[tactic(auto, unfolding(rules::specs::Numbers::two_at, rules::specs::Numbers::four_at))]
pub fn value(size: u8, request: [u8; 8]) -> u32
    ensures { result ≡ four_at request 4 % 256 ^ size }
{
    let whole = u32::from_le_bytes([request[4], request[5], request[6], request[7]]);
    lowest(size, whole)
}

// The rule that names a received frame; a wrong one is refused, and what no rule names does nothing. All five ways are told apart in one place, by `acts`,
// which makes the refusal of a wrong one: an error type of its own would be turned into that there.
#[derive(Clone, Copy)]
pub enum Rule {
    Wrong,
    Nothing,
    Network(u8),
    Sync,
    Request(Caller),
}

// An NMT command to this node or to all.
fn command_to(bytes: [u8; 8], length: u8, node: u8) -> Rule
    ensures { result ≡ command_to bytes length node }
{
    let to = bytes[1];
    if (length == 2) & ((to == 0) | (to == node)) {
        return Rule::Network(bytes[0]);
    }
    Rule::Nothing
}

// Who calls by an identifier, with requests of eight bytes only.
fn request_to(identifier: u32, length: u8, node: u8) -> Rule
    ensures { result ≡ request_to identifier length node }
{
    if length != WHOLE_REQUEST {
        return Rule::Nothing;
    }
    if identifier == 0x600 + u32::from(node) {
        return Rule::Request(Caller::Client(Channel::One));
    }
    if identifier == 0x680 + u32::from(node) {
        return Rule::Request(Caller::Client(Channel::Two));
    }
    if identifier == LSS_REQUEST_AT {
        return Rule::Request(Caller::Master);
    }
    Rule::Nothing
}

pub fn rule_of(head: FrameHead, bytes: [u8; 8], length: u8, node: u8) -> Rule
    ensures { result ≡ rule_of head bytes length node }
{
    let identifier = head.identifier;
    if !((identifier <= MOST_IDENTIFIER) & (length <= MOST_LENGTH)) {
        return Rule::Wrong;
    }
    if head.remote {
        return Rule::Nothing;
    }
    if identifier == 0 {
        return command_to(bytes, length, node);
    }
    if (identifier == SYNC_AT) & (length == 0) {
        return Rule::Sync;
    }
    request_to(identifier, length, node)
}
