// The origin query of the recorder's C firmware.
ghost use Rattle.std.specs.Prelude.{◌≡◌};
ghost use Rattle.basintilt.specs.Traced.{finding_of, Traced};

use rules::origins::{Brought, NoOrigin};

// Where a setting's value comes from, in numbers: a block that is none is 0 throughout.
#[repr(C)]
#[derive(Clone, Copy)]
pub struct Finding {
    pub refusal: u32,
    pub value: i32,
    pub block: u32,
    pub channel: u32,
    pub kind: u32,
}

#[tactic(auto, unfolding(crate::specs::Traced::finding_of))]
fn finding_of(found: Result<Brought, NoOrigin>) -> Finding
    ensures { result ≡ finding_of found }
{
    match found {
        Ok(Brought::ByBlock(value, bringer)) => Finding {
            refusal: 0,
            value,
            block: bringer.number,
            channel: bringer.channel as u32,
            kind: bringer.kind as u32,
        },
        Ok(Brought::ByFactory(value)) => Finding {
            refusal: 0,
            value,
            block: 0,
            channel: 0,
            kind: 0,
        },
        Err(why) => Finding {
            refusal: why.into(),
            value: 0,
            block: 0,
            channel: 0,
            kind: 0,
        },
    }
}

// A lent journal and a setting's pair: the journal is only read.
#[unsafe(no_mangle)]
pub extern "C" fn basintilt_origin(journal: &[u8], index: u16, subindex: u8) -> Finding
    ensures { Traced journal.now index subindex result }
{
    finding_of(origins::origin_of(journal, index, subindex))
}
