// What a service request may look at: the parts of the record that a read gives or a check asks.
#![tactic(auto)]

use angle::Axes;
use rules::errors::ErrorList;
use rules::parts::{Identity, Transfer};

// The axes have the running settings beside their readings.
#[derive(Clone, Copy)]
pub struct View {
    pub node: u8,
    pub identity: Identity,
    pub network: u8,
    pub blocks: u16,
    pub filled: u16,
    pub spoiled: u8,
    pub errors: ErrorList,
    pub transfer: Transfer,
    pub axes: Axes,
}
