// The device: its record, what moves it, and what it answers.
#![tactic(auto)]

mod events;
mod network;
mod range;
mod serving;
mod time;

use answers::Answer;
use rules::errors::ErrorList;
use rules::parts::{Identity, Lss, PdoCounts, Reading, Saves, Transfer};
use rules::settings::Settings;

// The device record: plain numbers, so that any record can be given, and refused.
#[repr(C)]
#[derive(Clone, Copy)]
pub struct Device {
    pub identity: Identity,
    pub x: Reading,
    pub y: Reading,
    pub heartbeat: u16,
    pub pdo: PdoCounts,
    pub saves: Saves,
    pub running: Settings,
    pub errors: ErrorList,
    pub lss: Lss,
    pub node: u8,
    pub network: u8,
    pub transfers: [Transfer; 2],
}

// The new device record and the answer.
#[repr(C)]
#[derive(Clone, Copy)]
pub struct Stepped {
    pub device: Device,
    pub answer: Answer,
}
