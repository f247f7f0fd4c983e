// Every field of the record in its range, and a journal of its length.
ghost use Rattle.std.specs.Prelude.{◌≡◌};
ghost use Rattle.device.specs.Decided.{checked};
ghost use Rattle.device.specs.Seen.{alone, Ranged};

use crate::Device;
use angle::Axes;
use answers::refusal::Refusal;

impl Device {
    // Both axes, with the settings that their angles go by.
    pub(crate) fn axes(&self) -> Axes
        requires { Ranged self.now }
        ensures { (result.x ≡ self.now.x) × ((result.y ≡ self.now.y) × (result.settings ≡ self.now.running)) }
    {
        Axes {
            x: self.x,
            y: self.y,
            settings: self.running,
        }
    }

    // The refusal that the record, or the length of its journal, brings to any event. The parts' order is the cheapest of those that were counted.
    pub fn check(&self, journal_length: usize) -> Result<(), Refusal>
        ensures { result ≡ checked journal_length (alone self.now) }
    {
        if !ranges::lss_ok(self.lss) {
            return Err(Refusal::OutOfRange);
        }
        if !ranges::saves_ok(self.saves) {
            return Err(Refusal::OutOfRange);
        }
        if !ranges::transfers_ok(self.transfers) {
            return Err(Refusal::OutOfRange);
        }
        if !ranges::in_table(self.running) {
            return Err(Refusal::OutOfRange);
        }
        if !(ranges::axis_ok(self.x) & ranges::axis_ok(self.y)) {
            return Err(Refusal::OutOfRange);
        }
        if !ranges::errors_ok(self.errors) {
            return Err(Refusal::OutOfRange);
        }
        if !(ranges::node_ok(u32::from(self.node)) & ranges::network_ok(self.network)) {
            return Err(Refusal::OutOfRange);
        }
        if !(ranges::elapsed_ok(self.running.heartbeat, self.heartbeat)
            & ranges::counts_ok(self.running.pdo, self.pdo))
        {
            return Err(Refusal::OutOfRange);
        }
        if journal_length != 512 * (self.saves.blocks as usize) {
            return Err(Refusal::WrongLength);
        }
        Ok(())
    }
}
