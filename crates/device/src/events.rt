// One event: refused, or what it comes to, done.
ghost use Rattle.std.specs.Prelude.{◌≡◌, length as length_of};
ghost use Rattle.acts.specs.Acts.{does};
ghost use Rattle.device.specs.Decided.{decided};
ghost use Rattle.device.specs.Answers.{DoneBeside};
ghost use Rattle.device.specs.Promise.{Answered};
ghost use Rattle.device.specs.Seen.{seen, alone, Fit};

use crate::{Device, Stepped};
use acts::Act;
use answers::Answer;
use answers::refusal::Refusal;
use rules::events::Event;

impl Device {
    // The lent journal is written by a save, a load or a store alone.
    pub fn perform(&mut self, journal: &mut [u8], act: Act) -> Answer
        requires { Fit self.old (length_of journal.old) }
        ensures { DoneBeside (does act (seen self.old journal.old)) result self.new journal.new }
    {
        match act {
            Act::Stay => Answer::silent(),
            Act::Tick(ms) => self.tick(ms),
            Act::Sync => self.sync(),
            Act::Measure(axis, m) => self.measure(axis, m),
            Act::Operate => self.operate(),
            Act::Enter(network) => self.enter(network),
            Act::Reset => self.reset(),
            Act::Communicate => self.communicate(),
            Act::Request(caller, request) => self.request(journal, caller, request),
        }
    }

    // What an event comes to. The record is looked at first.
    fn decide(
        &self,
        journal_length: usize,
        event: Event,
        bytes: [u8; 8],
        length: u8,
    ) -> Result<Act, Refusal>
        ensures { result ≡ decided journal_length event bytes length (alone self.now) }
    {
        self.check(journal_length)?;
        acts::of(event, bytes, length, self.node)
    }

    // The record goes in by value and comes back, with the frames.
    pub fn event(mut self, journal: &mut [u8], event: Event, bytes: [u8; 8], length: u8) -> Stepped
        ensures { Answered self journal.old event bytes length result journal.new }
    {
        let answer = match self.decide(journal.len(), event, bytes, length) {
            Ok(act) => self.perform(journal, act),
            Err(refusal) => Answer::refused(refusal),
        };
        Stepped {
            device: self,
            answer,
        }
    }
}
