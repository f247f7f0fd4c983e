// LSS: the outcome of a request that selects the sensor, sets its node number, stores it or tells of it.
#![tactic(auto)]

ghost use Rattle.std.specs.Prelude.{◌≡◌, ◌≤◌};
ghost use Rattle.rules.specs.Lss.{lss_command_of, identity_part, matches_before, lss_replied, lss_silent, on_switch, on_select, on_set_node, on_store, in_mode, on_lss_command, lss_outcome};
ghost use Rattle.rules.specs.State;
ghost use Rattle.rules.specs.State.{node_else, last_set};
ghost use Rattle.rules.specs.Writes.{room_check};
ghost use Rattle.lss.specs.Sighted.{sighted};

use rules::journal::Origin;
use rules::parts::{Identity, Lss, Transfer};
use rules::requests::{Change, IdentityPart, LssCommand, Outcome};
use rules::states;

// What an LSS request may look at.
#[derive(Clone, Copy)]
pub struct Sight {
    pub identity: Identity,
    pub node: u8,
    pub network: u8,
    pub lss: Lss,
    pub blocks: u16,
    pub filled: u16,
    pub spoiled: u8,
}

// The errors, which a reply alone tells, as the number behind its command: an enum would be turned back at once.
const OUT_OF_RANGE: u32 = 1;

const NO_ROOM: u32 = 2;

// A number, or another where it is none.
pub fn node_else(node: u8, other: u8) -> u8
    ensures { result ≡ node_else node other }
{
    if node == 0 { other } else { node }
}

// Neither selected nor in configuration, with a number set or 0.
pub fn unselected(node: u8) -> Lss
    ensures { result ≡ State.unselected node }
{
    Lss {
        mode: states::WAITING,
        matches: 0,
        node,
    }
}

#[tactic(auto, unfolding(rules::specs::Lss::lss_command_of))]
fn command(first: u8) -> LssCommand
    ensures { result ≡ lss_command_of first }
{
    match first {
        0x04 => LssCommand::Switch,
        0x40 => LssCommand::Select(IdentityPart::Vendor),
        0x41 => LssCommand::Select(IdentityPart::Product),
        0x42 => LssCommand::Select(IdentityPart::Revision),
        0x43 => LssCommand::Select(IdentityPart::Serial),
        0x11 => LssCommand::SetNode,
        0x17 => LssCommand::StoreNode,
        0x5A => LssCommand::TellIdentity(IdentityPart::Vendor),
        0x5B => LssCommand::TellIdentity(IdentityPart::Product),
        0x5C => LssCommand::TellIdentity(IdentityPart::Revision),
        0x5D => LssCommand::TellIdentity(IdentityPart::Serial),
        0x5E => LssCommand::TellNode,
        _ => LssCommand::Unheard,
    }
}

fn identity_part(part: IdentityPart, i: Identity) -> u32
    ensures { result ≡ identity_part part i }
{
    match part {
        IdentityPart::Vendor => i.vendor,
        IdentityPart::Product => i.product,
        IdentityPart::Revision => i.revision,
        IdentityPart::Serial => i.serial,
    }
}

fn matches_before(part: IdentityPart) -> u8
    ensures { (result ≡ matches_before part) × (result ≤ 3) }
{
    match part {
        IdentityPart::Vendor => 0,
        IdentityPart::Product => 1,
        IdentityPart::Revision => 2,
        IdentityPart::Serial => 3,
    }
}

// A reply: the command, and a number behind it.
fn said(first: u8, n: u32, change: Change) -> Outcome
    ensures { result ≡ lss_replied first n change }
{
    Outcome {
        reply: Some(replies::lss(first, n)),
        transfer: Transfer {
            stage: states::ABSENT,
        },
        change,
    }
}

fn silent(change: Change) -> Outcome
    ensures { result ≡ lss_silent change }
{
    Outcome {
        reply: None,
        transfer: Transfer {
            stage: states::ABSENT,
        },
        change,
    }
}

#[tactic(auto, unfolding(rules::specs::Lss::on_switch))]
fn switch(mode: u8, l: Lss) -> Outcome
    ensures { result ≡ on_switch mode l }
{
    if mode <= 1 {
        return silent(Change::Configure(Lss {
            mode: u16::from(mode),
            matches: 0,
            node: l.node,
        }));
    }
    silent(Change::Keep)
}

// A match counts directly behind the one before it; the fourth brings configuration.
#[tactic(auto, unfolding(rules::specs::Lss::on_select))]
fn select(before: u8, same: bool, l: Lss) -> Outcome
    requires { before ≤ 3 }
    ensures { result ≡ on_select before same l }
{
    let mut next = unselected(l.node);
    if !(same & ((before == 0) | (l.matches == before))) {
        return silent(Change::Configure(next));
    }
    if before == states::MOST_MATCHES {
        next.mode = states::CONFIGURATION;
        return said(0x44, 0, Change::Configure(next));
    }
    next.matches = before + 1;
    silent(Change::Configure(next))
}

#[tactic(auto, unfolding(rules::specs::Lss::on_set_node))]
fn set_node(node: u8, mut l: Lss) -> Outcome
    ensures { result ≡ on_set_node node l }
{
    if ranges::node_ok(u32::from(node)) {
        l.node = node;
        return said(0x11, 0, Change::Configure(l));
    }
    said(0x11, OUT_OF_RANGE, Change::Keep)
}

// The number last set, else the running one, goes into the next block, where there is room for it.
fn store(v: Sight) -> Outcome
    ensures { result ≡ on_store (room_check v.spoiled v.filled v.blocks) (last_set (sighted v)) }
{
    match checks::room_check(v.spoiled, v.filled, v.blocks) {
        Ok(()) => said(
            0x17,
            0,
            Change::Fill(Origin::Stored(node_else(v.lss.node, v.node))),
        ),
        Err(_) => said(0x17, NO_ROOM, Change::Keep),
    }
}

// What is not served in a mode is not answered.
fn in_mode(mode: u16, l: Lss, o: Outcome) -> Outcome
    ensures { result ≡ in_mode mode l o }
{
    if l.mode == mode {
        return o;
    }
    silent(Change::Keep)
}

fn serve(command: LssCommand, request: [u8; 8], v: Sight) -> Outcome
    ensures { result ≡ on_lss_command command request (sighted v) }
{
    match command {
        LssCommand::Switch => switch(request[1], v.lss),
        LssCommand::Select(part) => {
            let same = requests::selector(request) == identity_part(part, v.identity);
            in_mode(
                states::WAITING,
                v.lss,
                select(matches_before(part), same, v.lss),
            )
        }
        LssCommand::SetNode => in_mode(states::CONFIGURATION, v.lss, set_node(request[1], v.lss)),
        LssCommand::StoreNode => in_mode(states::CONFIGURATION, v.lss, store(v)),
        LssCommand::TellIdentity(part) => {
            let n = identity_part(part, v.identity);
            in_mode(
                states::CONFIGURATION,
                v.lss,
                said(0x5A + matches_before(part), n, Change::Keep),
            )
        }
        LssCommand::TellNode => in_mode(
            states::CONFIGURATION,
            v.lss,
            said(0x5E, u32::from(v.node), Change::Keep),
        ),
        LssCommand::Unheard => silent(Change::Keep),
    }
}

// What an LSS request brings about, in Stopped only.
pub fn outcome(request: [u8; 8], v: Sight) -> Outcome
    ensures { result ≡ lss_outcome request (sighted v) }
{
    if v.network != states::STOPPED {
        return silent(Change::Keep);
    }
    serve(command(request[0]), request, v)
}
