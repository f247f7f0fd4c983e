// For tests/stack alone: what power-on counts, over journals longer than it accepts.
#![tactic(auto)]

ghost use Rattle.std.specs.Prelude.{◌≡◌};
ghost use Rattle.stack_probe.specs.Probed.{probed};

use block::BYTES;

const MOST_BLOCKS: usize = 4096;

#[tactic(auto, unfolding(crate::specs::Probed::probed, rules::specs::PowerOn::saves_in))]
#[unsafe(no_mangle)]
pub extern "C" fn stack_probe(journal: &[u8]) -> u32
    ensures { result ≡ probed journal.now }
{
    let blocks = journal.len() / BYTES;
    if (blocks <= MOST_BLOCKS) & (journal.len() == BYTES * blocks) {
        let saves = journal::saves_in(journal);
        return u32::from(saves.filled) + 65536 * u32::from(saves.spoiled);
    }
    0
}
