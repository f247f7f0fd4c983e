// The numbers of the record's states: NMT, transfers, axes and LSS. They are C's, and any number can be given: an enum could not hold it.
pub const STOPPED: u8 = 4;

pub const OPERATIONAL: u8 = 5;

pub const PRE_OPERATIONAL: u8 = 127;

pub const ABSENT: u8 = 0;

pub const AT_START: u8 = 1;

pub const AFTER_SEVEN: u8 = 2;

pub const NONE: u32 = 0;

pub const GOOD: u32 = 1;

pub const FAULTY: u32 = 2;

pub const WAITING: u16 = 0;

pub const CONFIGURATION: u16 = 1;

pub const MOST_MATCHES: u8 = 3;

pub const MOST_NODE: u8 = 47;
