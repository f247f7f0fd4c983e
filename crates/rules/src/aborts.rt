// Why a request on a service channel is refused, and the code that its abort carries.
ghost use Rattle.std.specs.Prelude.{◌≡◌};
ghost use Rattle.rules.specs.Aborts.{abort_code};

#[derive(Clone, Copy)]
pub enum Abort {
    WrongToggle,
    UnknownCommand,
    JournalFull,
    ReadOnly,
    NoObject,
    JournalSpoiled,
    TooLong,
    TooShort,
    NoSubindex,
    WrongValue,
    WrongSignature,
    AxisNotGood,
    NoEntry,
}

impl From<Abort> for u32 {
    ghost from_gives = { λ abort code. code ≡ abort_code abort };

    fn from(abort: Abort) -> u32 {
        match abort {
            Abort::WrongToggle => 0x05030000,
            Abort::UnknownCommand => 0x05040001,
            Abort::JournalFull => 0x05040005,
            Abort::ReadOnly => 0x06010002,
            Abort::NoObject => 0x06020000,
            Abort::JournalSpoiled => 0x06060000,
            Abort::TooLong => 0x06070012,
            Abort::TooShort => 0x06070013,
            Abort::NoSubindex => 0x06090011,
            Abort::WrongValue => 0x06090030,
            Abort::WrongSignature => 0x08000020,
            Abort::AxisNotGood => 0x08000022,
            Abort::NoEntry => 0x08000024,
        }
    }
}
