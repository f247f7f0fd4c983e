// Ticks, SYNCs and readings.
ghost use Rattle.std.specs.Prelude.{◌≡◌};
ghost use Rattle.acts.specs.Acts.{does};
ghost use Rattle.acts.specs.declared.Act.TheVariants.{Tick, Sync, Measure};
ghost use Rattle.device.specs.Answers.{Done};
ghost use Rattle.device.specs.Seen.{alone, Ranged};

use crate::Device;
use answers::Answer;
use readings::Readings;
use rules::objects::{Axis, PdoNumber};
use timers::{Pdo, Timer};

impl Device {
    // The PDO, as its counts go.
    fn timed_pdo(&self) -> Pdo
        ensures { result ≡ record { network = self.now.network; settings = self.now.running.pdo; counts = self.now.pdo } }
    {
        Pdo {
            network: self.network,
            settings: self.running.pdo,
            counts: self.pdo,
        }
    }

    #[tactic(auto, unfolding(rules::specs::Time::on_tick))]
    pub fn tick(&mut self, ms: u16) -> Answer
        requires { Ranged self.old }
        ensures { Done (does (Tick ms) (alone self.old)) result self.new }
    {
        let heartbeat = Timer {
            runs: true,
            period: self.running.heartbeat,
            elapsed: self.heartbeat,
        };
        let pdo = self.timed_pdo();
        let axes = self.axes();
        self.heartbeat = heartbeat.after(ms);
        self.pdo = pdo.ticked(ms);
        answers::timed(
            heartbeat.reaches(ms),
            pdo.tick_sends(ms),
            PdoNumber::First,
            self.node,
            self.network,
            axes,
        )
    }

    #[tactic(auto, unfolding(rules::specs::Time::on_sync))]
    pub fn sync(&mut self) -> Answer
        requires { Ranged self.old }
        ensures { Done (does Sync (alone self.old)) result self.new }
    {
        let pdo = self.timed_pdo();
        let axes = self.axes();
        self.pdo = pdo.synced();
        answers::timed(
            false,
            pdo.sync_sends(),
            PdoNumber::First,
            self.node,
            self.network,
            axes,
        )
    }

    pub fn measure(&mut self, axis: Axis, m: i32) -> Answer
        ensures { Done (does (Measure axis m) (alone self.old)) result self.new }
    {
        let spoiled = self.saves.spoiled;
        let old = Readings {
            x: self.x,
            y: self.y,
        };
        let new = old.after(axis, m);
        let fault = old.fault(axis, m);
        self.errors = readings::listed(fault, self.errors);
        self.x = new.x;
        self.y = new.y;
        readings::alarm(
            self.node,
            self.network,
            fault,
            old.register(spoiled),
            new.register(spoiled),
        )
    }
}
