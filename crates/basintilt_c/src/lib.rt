// The recorder's archive for C: the four functions of `basintilt` under C's names, each with the same clauses.
#![tactic(auto)]

ghost use Rattle.basintilt.specs.Lent.{Lent};
ghost use Rattle.basintilt.specs.Told.{Told};
ghost use Rattle.basintilt.specs.Traced.{Traced};
ghost use Rattle.device.specs.Promise.{PoweredOn};

use answers::Answer;
use basintilt::Happening;
use basintilt::origin::Finding;
use device::{Device, Stepped};
use rules::parts::Identity;

// The recorder lends its one device record and its journal, and finds them updated.
#[unsafe(no_mangle)]
pub extern "C" fn basintilt_event(
    device: &mut Device,
    journal: &mut [u8],
    happening: Happening,
) -> Answer
    ensures { Lent device.old journal.old happening result device.new journal.new }
{
    basintilt::basintilt_event(device, journal, happening)
}

// The record comes back by value; the journal is only read.
#[unsafe(no_mangle)]
pub extern "C" fn basintilt_power_on(node: u32, identity: Identity, journal: &[u8]) -> Stepped
    ensures { PoweredOn node identity journal.now result }
{
    basintilt::basintilt_power_on(node, identity, journal)
}

// A lent block and the place it should have: 0 good there, 1 blank, 2 neither.
#[unsafe(no_mangle)]
pub extern "C" fn basintilt_block(block: &[u8], place: u32) -> u32
    ensures { Told block.now place result }
{
    basintilt::basintilt_block(block, place)
}

// A lent journal and a setting's pair: the journal is only read.
#[unsafe(no_mangle)]
pub extern "C" fn basintilt_origin(journal: &[u8], index: u16, subindex: u8) -> Finding
    ensures { Traced journal.now index subindex result }
{
    basintilt::origin::basintilt_origin(journal, index, subindex)
}
