// Why a call refuses; specs/Refusals.antt has the conditions.
#![tactic(auto)]

ghost use Rattle.std.specs.Prelude.{◌≡◌};
ghost use Rattle.refusals.specs.Refusals.{number_of};

// A refusal. Its number is the one that C is told, and that the documents call it by.
#[derive(Clone, Copy, Debug, PartialEq, Eq, Hash)]
pub enum Refusal {
    TooShort = 1,
    WrongVersion = 2,
    HeaderPastEnd = 3,
    BadPadding = 4,
    OtherPayloadType = 5,
    OtherSsrc = 6,
    NotOneReport = 7,
    CodeNotInSet = 8,
    NoDuration = 9,
    OffsetTooLarge = 10,
    TableFull = 11,
    OutOfRange = 12,
    NoSuchNumber = 13,
    OutputTooSmall = 14,
    ListTooSmall = 15,
    InvalidTable = 16,
    Packed = 17,
    HeadersRunOut = 18,
    BlocksTooLong = 19,
    NoCodes = 20,
}

impl From<Refusal> for u8 {
    ghost from_gives = { λ refusal n. n ≡ number_of refusal };

    fn from(refusal: Refusal) -> u8 {
        refusal as u8
    }
}
