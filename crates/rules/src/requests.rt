// What a request asks, what its checks answer and what it changes.
use crate::journal::Origin;
use crate::objects::{Axis, Channel, Setting};
use crate::parts::{Lss, Transfer};

// Who sends a request: the client of a service channel, or the LSS master.
#[derive(Clone, Copy)]
pub enum Caller {
    Client(Channel),
    Master,
}

// The first byte of a service request. A write names its length in bytes, or none for the object's own; a segment its toggle.
#[derive(Clone, Copy)]
pub enum Command {
    Write(Option<u8>),
    Read,
    Segment(u8),
    End,
    Unknown,
}

// The numbers of 1018, in their order.
#[derive(Clone, Copy)]
pub enum IdentityPart {
    Vendor,
    Product,
    Revision,
    Serial,
}

// The first byte of an LSS request.
#[derive(Clone, Copy)]
pub enum LssCommand {
    Switch,
    Select(IdentityPart),
    SetNode,
    StoreNode,
    TellIdentity(IdentityPart),
    TellNode,
    Unheard,
}

// What a read gives: a number with its length in bytes, or the string.
#[derive(Clone, Copy)]
pub enum Got {
    Number(u8, u32),
    Text,
}

// What an accepted request changes, with all that it takes.
#[derive(Clone, Copy)]
pub enum Change {
    Keep,
    Put(Setting, u32),
    Zero(Axis, i16, i16),
    Empty,
    Configure(Lss),
    Fill(Origin),
}

// What a request brings about: a reply or none, the channel's transfer after it, if a channel asked, and the change.
#[derive(Clone, Copy)]
pub struct Outcome {
    pub reply: Option<[u8; 8]>,
    pub transfer: Transfer,
    pub change: Change,
}
