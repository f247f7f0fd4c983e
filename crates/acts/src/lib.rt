// What an event comes to, decided before anything is done: refused, or the step to take with all that it takes.
#![tactic(auto)]

ghost use Rattle.std.specs.Prelude.{◌≡◌};
ghost use Rattle.acts.specs.Acts.{commanding, by_rule, act_of};

use answers::refusal::Refusal;
use requests::Rule;
use rules::events::Event;
use rules::objects::Axis;
use rules::requests::Caller;
use rules::states;

#[derive(Clone, Copy)]
pub enum Act {
    // Nothing is done.
    Stay,
    Tick(u16),
    Sync,
    Measure(Axis, i32),
    // 01h; 02h and 80h, with the state that is entered; 81h; 82h.
    Operate,
    Enter(u8),
    Reset,
    Communicate,
    Request(Caller, [u8; 8]),
}

// An NMT command; a different one is ignored.
fn commanded(command: u8) -> Act
    ensures { result ≡ commanding command }
{
    match command {
        0x01 => Act::Operate,
        0x02 => Act::Enter(states::STOPPED),
        0x80 => Act::Enter(states::PRE_OPERATIONAL),
        0x81 => Act::Reset,
        0x82 => Act::Communicate,
        _ => Act::Stay,
    }
}

// A received frame, by the rule that names it.
fn named(rule: Rule, bytes: [u8; 8]) -> Result<Act, Refusal>
    ensures { result ≡ by_rule bytes rule }
{
    match rule {
        Rule::Wrong => Err(Refusal::WrongFrame),
        Rule::Nothing => Ok(Act::Stay),
        Rule::Network(command) => Ok(commanded(command)),
        Rule::Sync => Ok(Act::Sync),
        Rule::Request(caller) => Ok(Act::Request(caller, bytes)),
    }
}

// An event at a node whose record is not refused.
pub fn of(event: Event, bytes: [u8; 8], length: u8, node: u8) -> Result<Act, Refusal>
    ensures { result ≡ act_of event bytes length node }
{
    match event {
        Event::Received(head) => named(requests::rule_of(head, bytes, length, node), bytes),
        Event::Tick(ms) => Ok(Act::Tick(ms)),
        Event::Measured(axis, m) => Ok(Act::Measure(axis, m)),
    }
}
