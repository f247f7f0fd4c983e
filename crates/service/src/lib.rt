// Service channels: the outcome of a request.
#![tactic(auto)]

ghost use Rattle.std.specs.Prelude.{◌≡◌, get_or};
ghost use Rattle.rules.specs.declared.objects.Channel.{Channel};
ghost use Rattle.rules.specs.declared.requests.Caller.TheVariants.{Client};
ghost use Rattle.rules.specs.declared.requests.Command.TheVariants.{Write, Read};
ghost use Rattle.rules.specs.declared.requests.Change.TheVariants.{Keep};
ghost use Rattle.rules.specs.Objects.{object_at};
ghost use Rattle.rules.specs.Requests;
ghost use Rattle.rules.specs.Service;
ghost use Rattle.rules.specs.Service.{replied, on_segment, on_command};
ghost use Rattle.view.specs.Seen.{viewed};
ghost use Rattle.rules.specs.State.{place, absent, transferring, no_transfers};
ghost use Rattle.service.specs.Transfers.{transfers_after};
ghost use Rattle.service.specs.Told.{told};

use rules::aborts::Abort;
use rules::objects::Channel;
use rules::parts::Transfer;
use rules::requests::{Caller, Change, Command, Got, Outcome};
use rules::states;
use view::View;

// A reply with no change.
fn said(bytes: [u8; 8], stage: u8) -> Outcome
    ensures { result ≡ replied bytes stage Keep }
{
    Outcome {
        reply: Some(bytes),
        transfer: Transfer { stage },
        change: Change::Keep,
    }
}

fn silent(transfer: Transfer) -> Outcome
    ensures { result ≡ Service.silent transfer }
{
    Outcome {
        reply: None,
        transfer,
        change: Change::Keep,
    }
}

// An abort ends the transfer.
fn refuse(request: [u8; 8], why: Abort) -> Outcome
    ensures { result ≡ Service.refuse request why }
{
    said(
        replies::reply(0x80, request, u32::from(why)),
        states::ABSENT,
    )
}

#[tactic(auto, unfolding(rules::specs::Service::on_segment))]
fn segment(toggle: u8, transfer: Transfer) -> Outcome
    ensures { result ≡ on_segment toggle transfer }
{
    match (transfer.stage, toggle) {
        (states::ABSENT, _) => said(replies::no_transfer(), states::ABSENT),
        (states::AT_START, 0) => said(replies::first_segment(), states::AFTER_SEVEN),
        (states::AT_START, _) => said(replies::wrong_toggle(), states::ABSENT),
        (_, 1) => said(replies::last_segment(), states::ABSENT),
        _ => said(replies::wrong_toggle(), states::ABSENT),
    }
}

// The string begins a transfer.
fn read(request: [u8; 8], v: View) -> Result<Outcome, Abort>
    ensures { (c : Channel) → told request result ≡ on_command c request Read (object_at (Requests.index_of request) (Requests.subindex_of request)) (viewed v) }
{
    let o = objects::named_by(request)?;
    match reads::read(o, v)? {
        Got::Number(size, n) => Ok(said(
            replies::reply(replies::read_first(size), request, n),
            states::ABSENT,
        )),
        Got::Text => Ok(said(replies::reply(0x41, request, 10), states::AT_START)),
    }
}

// The value is taken in the object's own length; the checks judge the length that is given.
fn write(channel: Channel, request: [u8; 8], given: Option<u8>, v: View) -> Result<Outcome, Abort>
    ensures { told request result ≡ on_command channel request (Write given) (object_at (Requests.index_of request) (Requests.subindex_of request)) (viewed v) }
{
    let o = objects::named_by(request)?;
    let value = requests::value(rows::size(o), request);
    let change = writes::write(channel, given, o, value, v)?;
    Ok(Outcome {
        reply: Some(replies::reply(0x60, request, 0)),
        transfer: Transfer {
            stage: states::ABSENT,
        },
        change,
    })
}

// By the first byte.
fn accept(channel: Channel, request: [u8; 8], v: View) -> Result<Outcome, Abort>
    ensures { told request result ≡ on_command channel request (Requests.command request) (object_at (Requests.index_of request) (Requests.subindex_of request)) (viewed v) }
{
    match requests::command(request[0]) {
        Command::Write(given) => write(channel, request, given, v),
        Command::Read => read(request, v),
        Command::Segment(toggle) => Ok(segment(toggle, v.transfer)),
        Command::End => Ok(silent(Transfer {
            stage: states::ABSENT,
        })),
        Command::Unknown => Err(Abort::UnknownCommand),
    }
}

fn serve(channel: Channel, request: [u8; 8], v: View) -> Outcome
    ensures { result ≡ on_command channel request (Requests.command request) (object_at (Requests.index_of request) (Requests.subindex_of request)) (viewed v) }
{
    accept(channel, request, v).unwrap_or_else(|why| refuse(request, why))
}

fn is_served(network: u8) -> bool
    ensures { result ≡ Service.served network }
{
    (network == states::PRE_OPERATIONAL) | (network == states::OPERATIONAL)
}

// What a request brings about, served in Pre-Operational and Operational.
pub fn outcome(channel: Channel, request: [u8; 8], v: View) -> Outcome
    ensures { result ≡ Service.outcome channel request (viewed v) }
{
    if is_served(v.network) {
        serve(channel, request, v)
    } else {
        silent(v.transfer)
    }
}

pub fn no_transfers() -> [Transfer; 2]
    ensures { result ≡ no_transfers }
{
    let none = Transfer {
        stage: states::ABSENT,
    };
    [none, none]
}

// A channel's own transfer, of the two.
pub fn transfer_of(channel: Channel, transfers: [Transfer; 2]) -> Transfer
    ensures { result ≡ get_or transfers (place channel) (transferring absent) }
{
    match channel {
        Channel::One => transfers[0],
        Channel::Two => transfers[1],
    }
}

fn with_transfer(channel: Channel, transfer: Transfer, transfers: [Transfer; 2]) -> [Transfer; 2]
    ensures { result ≡ transfers_after (Client channel) transfer transfers }
{
    match channel {
        Channel::One => [transfer, transfers[1]],
        Channel::Two => [transfers[0], transfer],
    }
}

// The two with the caller's own another; LSS has none.
pub fn transfers_after(
    caller: Caller,
    transfer: Transfer,
    transfers: [Transfer; 2],
) -> [Transfer; 2]
    ensures { result ≡ transfers_after caller transfer transfers }
{
    match caller {
        Caller::Client(channel) => with_transfer(channel, transfer, transfers),
        Caller::Master => transfers,
    }
}
