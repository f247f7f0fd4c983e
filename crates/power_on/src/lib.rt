// Power-on, from node, identity and journal.
#![tactic(auto)]

ghost use Rattle.std.specs.Prelude.{◌≡◌, []};
ghost use Rattle.answers.specs.Refusals.{refusal_number};
ghost use Rattle.device.specs.Answers.{stepped_of};
ghost use Rattle.device.specs.Promise.{PoweredOn};
ghost use Rattle.device.specs.Seen.{held};
ghost use Rattle.rules.specs.PowerOn.{zero_settings, zero_state};
ghost use Rattle.rules.specs.Results.{refused};

use answers::Answer;
use answers::refusal::Refusal;
use device::{Device, Stepped};
use rules::errors::ErrorList;
use rules::parts::{Identity, Saves};
use rules::settings::{AxisSettings, PdoSettings, Settings};

fn zero_settings() -> Settings
    ensures { result ≡ zero_settings }
{
    let pdo = PdoSettings {
        on: 0,
        transmission: 0,
        timer: 0,
    };
    let axis = AxisSettings::factory();
    Settings {
        heartbeat: 0,
        pdo,
        resolution: 0,
        x: axis,
        y: axis,
    }
}

// The all-zero record, which every event refuses.
pub fn zero_record() -> Device
    ensures { result ≡ held (zero_state []) }
{
    let settings = zero_settings();
    Device {
        identity: Identity {
            vendor: 0,
            product: 0,
            revision: 0,
            serial: 0,
        },
        x: readings::no_reading(),
        y: readings::no_reading(),
        heartbeat: 0,
        pdo: timers::no_counts(),
        saves: Saves {
            blocks: 0,
            filled: 0,
            spoiled: 0,
            node: 0,
            stored: settings,
        },
        running: settings,
        errors: ErrorList::empty(),
        lss: lss::unselected(0),
        node: 0,
        network: 0,
        transfers: service::no_transfers(),
    }
}

// The all-zero record, and no frame.
fn refuse(refusal: Refusal) -> Stepped
    ensures { result ≡ stepped_of (refused (refusal_number refusal) (zero_state [])) }
{
    Stepped {
        device: zero_record(),
        answer: Answer::refused(refusal),
    }
}

pub fn power_on(node: u32, identity: Identity, journal: &[u8]) -> Stepped
    ensures { PoweredOn node identity journal.now result }
{
    if !ranges::node_ok(node) {
        return refuse(Refusal::WrongNode);
    }
    if !journal::length_ok(journal) {
        return refuse(Refusal::WrongLength);
    }
    let saves = journal::saves_in(journal);
    Device::start(lss::node_else(saves.node, node as u8), identity, saves, 0)
}
