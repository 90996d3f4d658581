// The kinds of message, by their numbers in the table after RECORD-6 (docs/RULES.md).
ghost use Rattle.std.specs.Prelude.{◌≡◌};
ghost use Rattle.message.specs.Kind.{kind_number, Decodes};

use refusals::Refusal;

// What a message says, in the order of the numbers.
#[derive(Clone, Copy, Debug, PartialEq, Eq)]
pub enum Kind {
    WorkAsked,
    Agreed,
    Withdrawn,
    DetectionOff,
    MovementAsked,
    Clearance,
    Ordered,
    Passed,
    Cancelled,
    PartRestored,
    AllRestored,
    Recorder,
    KeyUsed,
}

impl TryFrom<u8> for Kind {
    type Error = Refusal;

    ghost try_from_gives = { Decodes };

    // The kind with this number; refused by 11 if it is none's.
    fn try_from(number: u8) -> Result<Self, Refusal> {
        match number {
            1 => Ok(Kind::WorkAsked),
            2 => Ok(Kind::Agreed),
            3 => Ok(Kind::Withdrawn),
            4 => Ok(Kind::DetectionOff),
            5 => Ok(Kind::MovementAsked),
            6 => Ok(Kind::Clearance),
            7 => Ok(Kind::Ordered),
            8 => Ok(Kind::Passed),
            9 => Ok(Kind::Cancelled),
            10 => Ok(Kind::PartRestored),
            11 => Ok(Kind::AllRestored),
            12 => Ok(Kind::Recorder),
            13 => Ok(Kind::KeyUsed),
            _ => Err(Refusal::BadKind),
        }
    }
}

impl From<Kind> for u8 {
    ghost from_gives = { λ kind n. n ≡ kind_number kind };

    // The number of the table.
    fn from(kind: Kind) -> u8 {
        match kind {
            Kind::WorkAsked => 1,
            Kind::Agreed => 2,
            Kind::Withdrawn => 3,
            Kind::DetectionOff => 4,
            Kind::MovementAsked => 5,
            Kind::Clearance => 6,
            Kind::Ordered => 7,
            Kind::Passed => 8,
            Kind::Cancelled => 9,
            Kind::PartRestored => 10,
            Kind::AllRestored => 11,
            Kind::Recorder => 12,
            Kind::KeyUsed => 13,
        }
    }
}
