// NMT commands and resets.
ghost use Rattle.std.specs.Prelude.{◌≡◌, cond, [], eqb};
ghost use Rattle.acts.specs.Acts.{does};
ghost use Rattle.acts.specs.declared.Act.TheVariants.{Operate, Enter, Reset, Communicate};
ghost use Rattle.rules.specs.Errors.{no_errors, entered};
ghost use Rattle.rules.specs.Network;
ghost use Rattle.device.specs.Answers.{stepped_of, Done};
ghost use Rattle.device.specs.Seen.{alone};

use crate::{Device, Stepped};
use answers::Answer;
use rules::errors::ErrorList;
use rules::parts::{Identity, Saves};
use rules::states;

const SPOILED: u16 = 0xFF00;

// The list as power-on and 81h leave it.
fn first_errors(spoiled: u8) -> ErrorList
    ensures { result ≡ cond (eqb spoiled 0) no_errors (entered 0xFF00 no_errors) }
{
    if spoiled == 0 {
        ErrorList::empty()
    } else {
        ErrorList::empty().enter(SPOILED)
    }
}

impl Device {
    // As power-on and 81h leave it, with a number set or 0.
    #[tactic(auto, unfolding(rules::specs::Network::start))]
    pub fn start(node: u8, identity: Identity, saves: Saves, set: u8) -> Stepped
        ensures { result ≡ stepped_of (Network.start node identity saves set []) }
    {
        let device = Device {
            identity,
            x: readings::no_reading(),
            y: readings::no_reading(),
            heartbeat: 0,
            pdo: timers::no_counts(),
            saves,
            running: saves.stored,
            errors: first_errors(saves.spoiled),
            lss: lss::unselected(set),
            node,
            network: states::PRE_OPERATIONAL,
            transfers: service::no_transfers(),
        };
        Stepped {
            device,
            answer: answers::booted(node, saves.spoiled),
        }
    }

    // 01h. Start zeroes the PDO's counts.
    pub fn operate(&mut self) -> Answer
        ensures { Done (does Operate (alone self.old)) result self.new }
    {
        self.network = states::OPERATIONAL;
        self.pdo = timers::no_counts();
        Answer::silent()
    }

    // 02h and 80h.
    pub fn enter(&mut self, network: u8) -> Answer
        ensures { Done (does (Enter network) (alone self.old)) result self.new }
    {
        self.network = network;
        Answer::silent()
    }

    // 81h: the number set takes effect.
    #[tactic(auto, unfolding(rules::specs::Network::start))]
    pub fn reset(&mut self) -> Answer
        ensures { Done (does Reset (alone self.old)) result self.new }
    {
        let set = self.lss.node;
        let Stepped { device, answer } = Device::start(
            lss::node_else(set, self.node),
            self.identity,
            self.saves,
            set,
        );
        *self = device;
        answer
    }

    // 82h: 1017 and 1800 from the stored settings, and the number set.
    pub fn communicate(&mut self) -> Answer
        ensures { Done (does Communicate (alone self.old)) result self.new }
    {
        self.running.heartbeat = self.saves.stored.heartbeat;
        self.running.pdo = self.saves.stored.pdo;
        self.node = lss::node_else(self.lss.node, self.node);
        self.lss = lss::unselected(self.lss.node);
        self.network = states::PRE_OPERATIONAL;
        self.heartbeat = 0;
        self.pdo = timers::no_counts();
        self.transfers = service::no_transfers();
        Answer::one(frames::boot_up(self.node))
    }
}
