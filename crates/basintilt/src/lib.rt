// What the recorder's C firmware calls: power-on, one event on its lent device record, the block query and the origin query.
#![tactic(auto)]

pub mod origin;

ghost use Rattle.std.specs.Prelude.{◌≡◌, cond, leb};
ghost use Rattle.device.specs.Decided.{decided};
ghost use Rattle.device.specs.Promise.{PoweredOn};
ghost use Rattle.device.specs.Seen.{alone};
ghost use Rattle.basintilt.specs.Happenings.{event_of, length_in};
ghost use Rattle.basintilt.specs.Lent.{Lent};
ghost use Rattle.basintilt.specs.Told.{Told};

use acts::Act;
use answers::Answer;
use answers::refusal::Refusal;
use device::{Device, Stepped};
use rules::events::{Event, FrameHead};
use rules::journal::Judged;
use rules::objects::Axis;
use rules::parts::Identity;

// An event in numbers. Kind 0 is a frame, 1 a remote frame (identifier, length and bytes), 2 a tick (ms), 3 and 4 a reading of
// axis X and Y (m); any other number is a remote frame of identifier 0 and length 0, which does nothing.
#[repr(C)]
#[derive(Clone, Copy)]
pub struct Happening {
    pub kind: u8,
    pub length: u8,
    pub ms: u16,
    pub identifier: u32,
    pub m: i32,
    pub bytes: [u8; 8],
}

fn event_of(happening: Happening) -> Event
    ensures { result ≡ event_of happening }
{
    match happening.kind {
        0 => Event::Received(FrameHead {
            identifier: happening.identifier,
            remote: false,
        }),
        1 => Event::Received(FrameHead {
            identifier: happening.identifier,
            remote: true,
        }),
        2 => Event::Tick(happening.ms),
        3 => Event::Measured(Axis::X, happening.m),
        4 => Event::Measured(Axis::Y, happening.m),
        _ => Event::Received(FrameHead {
            identifier: 0,
            remote: true,
        }),
    }
}

// An event whose kind is no kind has no bytes.
fn bytes_in(kind: u8, length: u8) -> u8
    ensures { result ≡ cond (leb kind 4) length 0 }
{
    if kind <= 4 { length } else { 0 }
}

// What a happening comes to. The record is looked at first, so that nothing else is in the way of its tests.
fn decided(device: &Device, journal_length: usize, happening: Happening) -> Result<Act, Refusal>
    ensures { result ≡ decided journal_length (event_of happening) happening.bytes (length_in happening) (alone device.now) }
{
    device.check(journal_length)?;
    let length = bytes_in(happening.kind, happening.length);
    acts::of(event_of(happening), happening.bytes, length, device.node)
}

// The recorder lends its one device record and its journal, and finds them updated.
#[unsafe(no_mangle)]
pub extern "C" fn basintilt_event(
    device: &mut Device,
    journal: &mut [u8],
    happening: Happening,
) -> Answer
    ensures { Lent device.old journal.old happening result device.new journal.new }
{
    match decided(device, journal.len(), happening) {
        Ok(act) => device.perform(journal, act),
        Err(refusal) => Answer::refused(refusal),
    }
}

// The record comes back by value; the journal is only read.
#[unsafe(no_mangle)]
pub extern "C" fn basintilt_power_on(node: u32, identity: Identity, journal: &[u8]) -> Stepped
    ensures { PoweredOn node identity journal.now result }
{
    power_on::power_on(node, identity, journal)
}

// A lent block and the place it should have: 0 good there, 1 blank, 2 neither.
#[unsafe(no_mangle)]
pub extern "C" fn basintilt_block(block: &[u8], place: u32) -> u32
    ensures { Told block.now place result }
{
    match block::judge(block, place) {
        Judged::Good => 0,
        Judged::Blank => 1,
        Judged::Neither => 2,
    }
}
