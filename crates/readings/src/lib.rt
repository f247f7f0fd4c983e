// A reading of an axis: the axes after it, the fault that it brings, the error list, and the emergency.
#![tactic(auto)]

ghost use Rattle.std.specs.Prelude.{◌≡◌};
ghost use Rattle.angle.specs.OfAxis.{of_axis};
ghost use Rattle.rules.specs.Errors.{register};
ghost use Rattle.rules.specs.Network.{no_reading};
ghost use Rattle.rules.specs.Readings.{fault_code, measured, fails};
ghost use Rattle.answers.specs.Answers.{answering};
ghost use Rattle.readings.specs.Alarm.{alarm_of};
ghost use Rattle.readings.specs.After.{after};
ghost use Rattle.readings.specs.Faults.{fault_of, listed_of};

use answers::Answer;
use rules::errors::ErrorList;
use rules::objects::Axis;
use rules::parts::Reading;
use rules::states;

// An axis that has not been read.
pub fn no_reading() -> Reading
    ensures { result ≡ no_reading }
{
    Reading {
        state: states::NONE,
        m: 0,
    }
}

fn measured(m: i32, x: Reading) -> Reading
    ensures { result ≡ measured m x }
{
    if ranges::inside(m) {
        Reading {
            state: states::GOOD,
            m,
        }
    } else {
        Reading {
            state: states::FAULTY,
            ..x
        }
    }
}

// The axis becomes faulty with this reading.
pub fn fails(m: i32, x: Reading) -> bool
    ensures { result ≡ fails m x }
{
    !ranges::inside(m) & (x.state != states::FAULTY)
}

pub fn fault_code(axis: Axis) -> u16
    ensures { result ≡ fault_code axis }
{
    match axis {
        Axis::X => 0xFF01,
        Axis::Y => 0xFF02,
    }
}

// Both axes' readings.
#[derive(Clone, Copy)]
pub struct Readings {
    pub x: Reading,
    pub y: Reading,
}

impl Readings {
    // The axis that is read.
    pub fn of(self, axis: Axis) -> Reading
        ensures { result ≡ of_axis axis self.x self.y }
    {
        match axis {
            Axis::X => self.x,
            Axis::Y => self.y,
        }
    }

    // The code of the fault that a reading brings, where it makes the axis faulty.
    pub fn fault(self, axis: Axis, m: i32) -> Option<u16>
        ensures { result ≡ fault_of axis m (of_axis axis self.x self.y) }
    {
        fails(m, self.of(axis)).then(|| fault_code(axis))
    }

    // Both after a reading: the axis that is not read stays.
    pub fn after(mut self, axis: Axis, m: i32) -> Self
        ensures { result ≡ after axis m self }
    {
        match axis {
            Axis::X => self.x = measured(m, self.x),
            Axis::Y => self.y = measured(m, self.y),
        }
        self
    }

    // The error register, with the journal's mark.
    pub fn register(self, spoiled: u8) -> u8
        ensures { result ≡ register spoiled self.x.state self.y.state }
    {
        frames::register(spoiled, self.x.state, self.y.state)
    }
}

// The list after the reading: a fault is entered.
pub fn listed(fault: Option<u16>, l: ErrorList) -> ErrorList
    ensures { result ≡ listed_of fault l }
{
    match fault {
        Some(code) => l.enter(code),
        None => l,
    }
}

// The emergency of a fault, or of the register that came back to 0.
pub fn alarm(node: u8, network: u8, fault: Option<u16>, before: u8, after: u8) -> Answer
    ensures { result ≡ answering 0 (alarm_of node network fault before after) }
{
    if network == states::STOPPED {
        return Answer::silent();
    }
    match fault {
        Some(code) => Answer::one(frames::emergency(node, code, after)),
        None if (before != 0) & (after == 0) => Answer::one(frames::emergency(node, 0, after)),
        None => Answer::silent(),
    }
}
