// The ranges of the device record: what a record holds that is not refused with 3.
#![tactic(auto)]

ghost use Rattle.std.specs.Prelude.{◌≡◌};
ghost use Rattle.std.specs.List.{list_all, enumerate_from};
ghost use Rattle.rules.specs.declared.objects.Setting.TheVariants.{Resolution};
ghost use Rattle.rules.specs.Settings.{within, in_table};
ghost use Rattle.rules.specs.Ranges;
ghost use Rattle.rules.specs.Ranges.{node_ok, network_ok, saves_ok, code_ok, errors_ok, elapsed_ok, syncs_ok, counts_ok, transfer_ok, transfers_ok, axis_ok, lss_ok};

use rules::errors::ErrorList;
use rules::parts::{Lss, PdoCounts, Reading, Saves, Transfer};
use rules::settings::{AxisSettings, PdoSettings, Settings};
use rules::states;

const LEAST_CODE: u16 = 0xFF00;

const MOST_CODE: u16 = 0xFF02;

// The factory's first: where it is the one, a Cortex-M4 saves a dozen instructions.
fn resolution_ok(resolution: u16) -> bool
    ensures { result ≡ within Resolution resolution }
{
    if resolution == 10 {
        return true;
    }
    (resolution == 1) | (resolution == 100) | (resolution == 1000)
}

// What the width of a field leaves to be tested of its settings.
pub fn in_table(s: Settings) -> bool
    ensures { result ≡ in_table s }
{
    let period = s.heartbeat;
    let transmission = s.pdo.transmission;
    let resolution = s.resolution;
    ((period == 0) | (Settings::LEAST_PERIOD <= period))
        & (s.pdo.on <= 1)
        & (PdoSettings::LEAST_SYNCHRONOUS <= transmission)
        & ((transmission <= PdoSettings::MOST_SYNCHRONOUS)
            | (PdoSettings::LEAST_TIMED <= transmission))
        & resolution_ok(resolution)
        & (s.x.operating <= AxisSettings::MOST_OPERATING)
        & (s.y.operating <= AxisSettings::MOST_OPERATING)
}

pub fn node_ok(node: u32) -> bool
    ensures { result ≡ node_ok node }
{
    (1..=u32::from(states::MOST_NODE)).contains(&node)
}

// LSS: each of its numbers by itself.
pub fn lss_ok(l: Lss) -> bool
    ensures { result ≡ lss_ok l }
{
    (l.mode <= states::CONFIGURATION)
        & (l.matches <= states::MOST_MATCHES)
        & (l.node <= states::MOST_NODE)
}

pub fn network_ok(network: u8) -> bool
    ensures { result ≡ network_ok network }
{
    matches!(
        network,
        states::STOPPED | states::OPERATIONAL | states::PRE_OPERATIONAL
    )
}

pub fn saves_ok(s: Saves) -> bool
    ensures { result ≡ saves_ok s }
{
    (1..=Saves::MOST_BLOCKS).contains(&s.blocks)
        & (s.filled <= s.blocks)
        & (s.spoiled <= 1)
        & (s.node <= states::MOST_NODE)
        & in_table(s.stored)
}

// The code at a place of a list: past the list's end it is 0.
fn code_ok(length: u16, place: usize, code: u16) -> bool
    ensures { result ≡ code_ok length place code }
{
    if place < usize::from(length) {
        (LEAST_CODE..=MOST_CODE).contains(&code)
    } else {
        code == 0
    }
}

fn codes_ok(l: ErrorList) -> bool
    ensures { result ≡ list_all (λ p. code_ok l.length p.0 p.1) (enumerate_from 0 l.codes) }
{
    l.codes
        .iter()
        .enumerate()
        .all(|(place, code)| code_ok(l.length, place, *code))
}

// An empty list's first: most lists are.
#[tactic(auto, unfolding(rules::specs::Ranges::errors_ok), using(crate::proofs::Codes::by_place))]
pub fn errors_ok(l: ErrorList) -> bool
    ensures { result ≡ errors_ok l }
{
    if l.length == 0 {
        return l.codes.iter().all(|code| *code == 0);
    }
    (l.length <= ErrorList::MOST) & codes_ok(l)
}

pub fn elapsed_ok(period: u16, elapsed: u16) -> bool
    ensures { result ≡ elapsed_ok period elapsed }
{
    if elapsed == 0 {
        return true;
    }
    elapsed < period
}

fn syncs_ok(transmission: u8, syncs: u16) -> bool
    ensures { result ≡ syncs_ok transmission syncs }
{
    if syncs == 0 {
        return true;
    }
    (syncs < (transmission as u16)) & (transmission <= PdoSettings::MOST_SYNCHRONOUS)
}

pub fn counts_ok(s: PdoSettings, c: PdoCounts) -> bool
    ensures { result ≡ counts_ok s c }
{
    if !elapsed_ok(s.timer, c.elapsed) {
        return false;
    }
    syncs_ok(s.transmission, c.syncs)
}

fn transfer_ok(transfer: Transfer) -> bool
    ensures { result ≡ transfer_ok transfer }
{
    transfer.stage <= states::AFTER_SEVEN
}

pub fn transfers_ok(transfers: [Transfer; 2]) -> bool
    ensures { result ≡ transfers_ok transfers }
{
    let [one, two] = transfers;
    transfer_ok(one) & transfer_ok(two)
}

pub fn inside(m: i32) -> bool
    ensures { result ≡ Ranges.inside m }
{
    (-Reading::FARTHEST..=Reading::FARTHEST).contains(&m)
}

#[tactic(auto, unfolding(rules::specs::Ranges::axis_ok))]
pub fn axis_ok(x: Reading) -> bool
    ensures { result ≡ axis_ok x }
{
    if x.state == states::NONE {
        return x.m == 0;
    }
    (x.state <= states::FAULTY) & inside(x.m)
}
