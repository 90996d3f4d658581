// The refusals of every call, one for each reason, and the numbers that docs/RULES.md gives them ('All numbers'). A
// call that can refuse answers a `Result` with one of them; what it answers to C, and what stands in bytes, is its
// number, 0 for none. The numbers are in specs/Numbers.antt.
#![tactic(auto)]

ghost use Rattle.std.specs.Prelude.{◌≡◌};
ghost use Rattle.refusals.specs.Numbers.{number_of, index_of, code_of, refused_if};

// Why a call refuses, in the order of the numbers.
#[derive(Clone, Copy, Debug, PartialEq, Eq)]
pub enum Refusal {
    BadLength,
    BadMark,
    BadVersion,
    BadCounts,
    // The first bad turnout, and the first bad route, by its index.
    BadTurnout(u8),
    BadRoute(u8),
    NoSheet,
    ShortBuffer,
    OverLimits,
    NotARecord,
    BadKind,
    NoSuchZone,
    // A field that breaks its rule; of the work question a turnout that the station has not (ASK-4): one reason, since
    // the rules give both one number, so that a refusal's number, with its index, says which it is.
    BadField,
    TooEarly,
    NotUnderThisId,
    AlreadyThere,
    BadTurnouts,
    WrongStage,
    MovementInTheWay,
    ClearanceDoesNotFit,
    WrongMedium,
    Forbidden,
    KeyDoesNotFit,
    BadJournal,
    Full,
    NoSuchRecord,
    OutOfRange,
    SmallBuffer,
    NotADesk,
}

impl From<Refusal> for u8 {
    ghost from_gives = { λ r n. n ≡ number_of r };

    // The number of docs/RULES.md.
    fn from(refusal: Refusal) -> u8 {
        match refusal {
            Refusal::BadLength => 1,
            Refusal::BadMark => 2,
            Refusal::BadVersion => 3,
            Refusal::BadCounts => 4,
            Refusal::BadTurnout(_) => 5,
            Refusal::BadRoute(_) => 6,
            Refusal::NoSheet => 7,
            Refusal::ShortBuffer => 8,
            Refusal::OverLimits => 9,
            Refusal::NotARecord => 10,
            Refusal::BadKind => 11,
            Refusal::NoSuchZone => 12,
            Refusal::BadField => 13,
            Refusal::TooEarly => 14,
            Refusal::NotUnderThisId => 15,
            Refusal::AlreadyThere => 16,
            Refusal::BadTurnouts => 17,
            Refusal::WrongStage => 18,
            Refusal::MovementInTheWay => 19,
            Refusal::ClearanceDoesNotFit => 20,
            Refusal::WrongMedium => 21,
            Refusal::Forbidden => 22,
            Refusal::KeyDoesNotFit => 23,
            Refusal::BadJournal => 30,
            Refusal::Full => 31,
            Refusal::NoSuchRecord => 32,
            Refusal::OutOfRange => 33,
            Refusal::SmallBuffer => 60,
            Refusal::NotADesk => 61,
        }
    }
}

impl Refusal {
    // The index of the record that it names; 0 where it names none.
    pub fn index(self) -> u8
        ensures { result ≡ index_of self }
    {
        match self {
            Refusal::BadTurnout(index) => index,
            Refusal::BadRoute(index) => index,
            _ => 0,
        }
    }
}

// The code of an answer: 0, or the number of its refusal.
pub fn code<T: Copy>(answer: Result<T, Refusal>) -> u8
    ensures { result ≡ code_of answer }
{
    match answer {
        Ok(_) => 0,
        Err(refusal) => u8::from(refusal),
    }
}

// Refuses where a test holds: a check of a list, in the written order, is `refuse_if(test, refusal)?`.
pub fn refuse_if(test: bool, refusal: Refusal) -> Result<(), Refusal>
    ensures { result ≡ refused_if test refusal }
{
    if test {
        return Err(refusal);
    }
    Ok(())
}
