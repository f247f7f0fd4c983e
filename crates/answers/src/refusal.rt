// Why an event or a power-on is refused, and the number that its answer carries.
ghost use Rattle.std.specs.Prelude.{◌≡◌};
ghost use Rattle.answers.specs.Refusals.{refusal_number};

// The journal's length, a frame's identifier or length, a field of the record, a power-on's node number.
#[derive(Clone, Copy)]
pub enum Refusal {
    WrongLength,
    WrongFrame,
    OutOfRange,
    WrongNode,
}

impl From<Refusal> for u16 {
    ghost from_gives = { λ refusal number. number ≡ refusal_number refusal };

    fn from(refusal: Refusal) -> u16 {
        match refusal {
            Refusal::WrongLength => 1,
            Refusal::WrongFrame => 2,
            Refusal::OutOfRange => 3,
            Refusal::WrongNode => 4,
        }
    }
}
