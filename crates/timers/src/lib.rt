// Elapsed and SYNC counts: when they run, when they reach their period, and what they are then.
#![tactic(auto)]

ghost use Rattle.std.specs.Prelude.{◌≡◌, cond, ◌&&◌};
ghost use Rattle.rules.specs.State.{no_counts};
ghost use Rattle.rules.specs.Time;
ghost use Rattle.timers.specs.Runs.{sending_of, timer_runs_of, sync_counts_of, sync_due_of, syncs_after_of};

use rules::parts::PdoCounts;
use rules::settings::PdoSettings;
use rules::states;

pub fn no_counts() -> PdoCounts
    ensures { result ≡ no_counts }
{
    PdoCounts {
        elapsed: 0,
        syncs: 0,
    }
}

// An elapsed count with its period; it counts only where it runs.
#[derive(Clone, Copy)]
pub struct Timer {
    pub runs: bool,
    pub period: u16,
    pub elapsed: u16,
}

impl Timer {
    // The count reaches its period with a tick of so many milliseconds.
    pub fn reaches(self, ms: u16) -> bool
        ensures { result ≡ Time.reaches self.runs self.period self.elapsed ms }
    {
        self.runs
            & (self.period != 0)
            & (u32::from(self.period) <= u32::from(self.elapsed) + u32::from(ms))
    }

    // The count after the tick; what goes beyond the period is lost.
    pub fn after(self, ms: u16) -> u16
        ensures { result ≡ Time.elapsed_after self.runs self.period self.elapsed ms }
    {
        if self.reaches(ms) {
            return 0;
        }
        if self.runs & (self.period != 0) {
            return self.elapsed + ms;
        }
        self.elapsed
    }
}

// A PDO's settings and counts, in an NMT state.
#[derive(Clone, Copy)]
pub struct Pdo {
    pub network: u8,
    pub settings: PdoSettings,
    pub counts: PdoCounts,
}

impl Pdo {
    // It is sent in Operational where it is on.
    fn is_sent(self) -> bool
        ensures { result ≡ sending_of self.network self.settings }
    {
        (self.network == states::OPERATIONAL) & (self.settings.on == 1)
    }

    // Types 254 and 255 go by the timer.
    fn timer(self) -> Timer
        ensures { result ≡ record { runs = timer_runs_of self.network self.settings; period = self.settings.timer; elapsed = self.counts.elapsed } }
    {
        Timer {
            runs: self.is_sent() & (PdoSettings::LEAST_TIMED <= self.settings.transmission),
            period: self.settings.timer,
            elapsed: self.counts.elapsed,
        }
    }

    // It goes out with a tick of so many milliseconds.
    pub fn tick_sends(self, ms: u16) -> bool
        ensures { result ≡ Time.reaches (timer_runs_of self.network self.settings) self.settings.timer self.counts.elapsed ms }
    {
        self.timer().reaches(ms)
    }

    pub fn ticked(self, ms: u16) -> PdoCounts
        ensures { result ≡ record { elapsed = Time.elapsed_after (timer_runs_of self.network self.settings) self.settings.timer self.counts.elapsed ms; syncs = self.counts.syncs } }
    {
        PdoCounts {
            elapsed: self.timer().after(ms),
            ..self.counts
        }
    }

    fn counts_syncs(self) -> bool
        ensures { result ≡ sync_counts_of self.network self.settings }
    {
        self.is_sent()
            & (PdoSettings::LEAST_SYNCHRONOUS..=PdoSettings::MOST_SYNCHRONOUS).contains(
                &self.settings.transmission,
            )
    }

    // The SYNC that is counted is the last of its type.
    fn is_sync_due(self) -> bool
        ensures { result ≡ sync_due_of self.settings.transmission self.counts.syncs }
    {
        u32::from(self.settings.transmission) <= u32::from(self.counts.syncs) + 1
    }

    fn syncs_after(self) -> u16
        ensures { result ≡ syncs_after_of self.settings.transmission self.counts.syncs }
    {
        if self.is_sync_due() {
            0
        } else {
            self.counts.syncs + 1
        }
    }

    // It goes out with this SYNC.
    pub fn sync_sends(self) -> bool
        ensures { result ≡ (sync_counts_of self.network self.settings && sync_due_of self.settings.transmission self.counts.syncs) }
    {
        self.counts_syncs() & self.is_sync_due()
    }

    pub fn synced(self) -> PdoCounts
        ensures { result ≡ cond (sync_counts_of self.network self.settings) (record { elapsed = self.counts.elapsed; syncs = syncs_after_of self.settings.transmission self.counts.syncs }) self.counts }
    {
        if self.counts_syncs() {
            return PdoCounts {
                syncs: self.syncs_after(),
                ..self.counts
            };
        }
        self.counts
    }
}
