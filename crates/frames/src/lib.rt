// The frames that the device sends, and the error register that an emergency carries.
#![tactic(auto)]

ghost use Rattle.std.specs.Prelude.{◌≡◌, cond, ◌≤◌};
ghost use Rattle.rules.specs.Errors;
ghost use Rattle.rules.specs.Frames;
ghost use Rattle.rules.specs.Frames.{frame, no_frame, boot_up_frame, pdo_at, pdo_frame, reply_frame, requests_at, replies_at, reply_at};
ghost use Rattle.rules.specs.Angle.{shown};
ghost use Rattle.rules.specs.Numbers.{two, unsigned};

use angle::{Axes, Tilt};
use rules::events::Frame;
use rules::objects::{Axis, Channel, PdoNumber};
use rules::requests::Caller;
use rules::states;

const HEARTBEAT_AT: u16 = 0x700;

const EMERGENCY_AT: u16 = 0x80;

const LSS_REPLY_AT: u16 = 0x7E4;

// An identifier and the bytes that are used; those past them are 0.
fn frame<const N: usize>(identifier: u16, used: [u8; N]) -> Frame
    requires { N ≤ 8 }
    ensures { result ≡ frame identifier used.entry }
{
    let mut bytes = [0; 8];
    bytes[..N].copy_from_slice(&used);
    Frame {
        identifier,
        length: N as u16,
        bytes,
    }
}

// No frame is sent: all zero.
pub fn none() -> Frame
    ensures { result ≡ no_frame }
{
    frame(0, [])
}

pub fn heartbeat(node: u8, network: u8) -> Frame
    ensures { result ≡ Frames.heartbeat_frame node network }
{
    frame(HEARTBEAT_AT + u16::from(node), [network])
}

pub fn boot_up(node: u8) -> Frame
    ensures { result ≡ boot_up_frame node }
{
    heartbeat(node, 0)
}

pub fn emergency(node: u8, code: u16, register: u8) -> Frame
    ensures { result ≡ Frames.emergency_frame node code register }
{
    let [low, high] = code.to_le_bytes();
    frame(
        EMERGENCY_AT + u16::from(node),
        [low, high, register, 0, 0, 0, 0, 0],
    )
}

// What an axis shows, as the two bytes that the PDO carries.
fn shown_bytes(tilt: Tilt) -> [u8; 2]
    ensures { result ≡ two (unsigned 16 (shown tilt.reading tilt.resolution tilt.settings)) }
{
    tilt.shown().cast_unsigned().to_le_bytes()
}

// Where a PDO goes; the node is added.
pub fn pdo_at(number: PdoNumber) -> u16
    ensures { result ≡ pdo_at number }
{
    match number {
        PdoNumber::First => 0x180,
    }
}

#[tactic(auto, unfolding(rules::specs::Frames::pdo_frame))]
pub fn pdo(number: PdoNumber, node: u8, axes: Axes) -> Frame
    ensures { result ≡ pdo_frame number node axes.x axes.y axes.settings }
{
    let [x_low, x_high] = shown_bytes(axes.tilt(Axis::X));
    let [y_low, y_high] = shown_bytes(axes.tilt(Axis::Y));
    frame(
        pdo_at(number) + u16::from(node),
        [x_low, x_high, y_low, y_high],
    )
}

// Where a channel's requests come and its replies go.
pub fn requests_at(channel: Channel) -> u16
    ensures { result ≡ requests_at channel }
{
    match channel {
        Channel::One => 0x600,
        Channel::Two => 0x680,
    }
}

pub fn replies_at(channel: Channel) -> u16
    ensures { result ≡ replies_at channel }
{
    match channel {
        Channel::One => 0x580,
        Channel::Two => 0x6B0,
    }
}

// Where a reply goes: LSS has one place for every node.
fn reply_at(caller: Caller, node: u8) -> u16
    ensures { result ≡ reply_at caller node }
{
    match caller {
        Caller::Client(channel) => replies_at(channel) + u16::from(node),
        Caller::Master => LSS_REPLY_AT,
    }
}

pub fn reply(caller: Caller, node: u8, bytes: [u8; 8]) -> Frame
    ensures { result ≡ reply_frame caller node bytes }
{
    frame(reply_at(caller, node), bytes)
}

// Bit 7 is the journal's, bit 5 the axes', bit 0 is set with either.
#[tactic(auto, unfolding(rules::specs::Errors::register))]
pub fn register(spoiled: u8, x: u32, y: u32) -> u8
    ensures { result ≡ Errors.register spoiled x y }
{
    let bad = spoiled != 0;
    let axes = (x == states::FAULTY) | (y == states::FAULTY);
    (u8::from(bad) << 7) + (u8::from(axes) << 5) + u8::from(bad | axes)
}
