// Why a call refuses: each cause with its number.
ghost use Rattle.std.specs.Prelude.{◌≡◌};
ghost use Rattle.fault.specs.Numbers.{number_of};

#[derive(Clone, Copy, PartialEq, Eq, Debug)]
pub enum Cause {
    Length = 1,
    Size = 2,
    Kind = 3,
    Points = 4,
    Spans = 5,
    Ladder = 6,
    Allowance = 7,
    Number = 8,
    Buffer = 9,
    NotAllowed = 10,
    SeatTaken = 11,
    PriceTooHigh = 12,
    NotContent = 13,
    NotStarted = 20,
    AlreadyStarted = 21,
    HoldsSeat = 22,
    BidOut = 23,
    NoBidOut = 24,
    AllowanceSpent = 25,
    NoFullPlan = 26,
    RunFree = 27,
    LastPhase = 28,
    NotComplete = 29,
}

// The number by which a refusal names its cause.
impl From<Cause> for u8 {
    ghost from_gives = { λ c n. n ≡ number_of c };

    fn from(cause: Cause) -> u8 {
        cause as u8
    }
}
