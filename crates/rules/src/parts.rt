// The parts of the device record beside its settings and its error list: plain numbers, so that any record can be given.
use crate::settings::Settings;

// 1018: four numbers given at power-on.
#[repr(C)]
#[derive(Clone, Copy)]
pub struct Identity {
    pub vendor: u32,
    pub product: u32,
    pub revision: u32,
    pub serial: u32,
}

// An axis: none (0), good (1) or faulty (2), and its last good reading.
#[repr(C)]
#[derive(Clone, Copy)]
pub struct Reading {
    pub state: u32,
    pub m: i32,
}

// The PDO's elapsed milliseconds and its SYNC count.
#[repr(C)]
#[derive(Clone, Copy)]
pub struct PdoCounts {
    pub elapsed: u16,
    pub syncs: u16,
}

// A channel's segmented transfer: absent (0), at the start (1) or after 7 bytes (2).
#[repr(C)]
#[derive(Clone, Copy)]
pub struct Transfer {
    pub stage: u8,
}

// The LSS slave: waiting (0) or configuration (1), the selective matches so far, and the node number that was set, 0 where none was.
#[repr(C)]
#[derive(Clone, Copy)]
pub struct Lss {
    pub mode: u16,
    pub matches: u8,
    pub node: u8,
}

// What the record keeps of the journal; spoiled is 1 or 0, and the stored node number is 0 where none is stored.
#[repr(C)]
#[derive(Clone, Copy)]
pub struct Saves {
    pub blocks: u16,
    pub filled: u16,
    pub spoiled: u8,
    pub node: u8,
    pub stored: Settings,
}

impl Saves {
    pub const MOST_BLOCKS: u16 = 128;
}

impl Reading {
    pub const FARTHEST: i32 = 180000;
}
