// The cases: which field of a good message is changed, and to what. What each must give stands in stdout alone.
use message::Message;
use std::fmt;

// A field of a message; Nothing changes none.
#[derive(Clone, Copy, Debug, PartialEq, Eq)]
pub enum Field {
    Nothing,
    Kind,
    Zone,
    Time,
    Id,
    A,
    B,
    D0,
    D1,
    D2,
    D3,
    D4,
    D5,
}

impl fmt::Display for Field {
    fn fmt<W: fmt::Write>(&self, f: &mut fmt::Formatter<W>) -> fmt::Result {
        f.write_str(match self {
            Field::Nothing => "-",
            Field::Kind => "kind",
            Field::Zone => "zone",
            Field::Time => "time",
            Field::Id => "id",
            Field::A => "a",
            Field::B => "b",
            Field::D0 => "d0",
            Field::D1 => "d1",
            Field::D2 => "d2",
            Field::D3 => "d3",
            Field::D4 => "d4",
            Field::D5 => "d5",
        })
    }
}

// A field, and the value that is put into it.
#[derive(Clone, Copy)]
pub struct Case {
    pub field: Field,
    pub value: u64,
}

// The cases that every kind has.
pub const SHARED: [(Field, u64); 30] = [
    (Field::Nothing, 0),
    (Field::Id, 0),
    (Field::Id, 1),
    (Field::Id, 4294967295),
    (Field::Zone, 255),
    (Field::Time, 4294967295),
    (Field::A, 0),
    (Field::A, 1),
    (Field::A, 18446744073709551615),
    (Field::B, 0),
    (Field::B, 1),
    (Field::B, 18446744073709551615),
    (Field::D0, 0),
    (Field::D0, 1),
    (Field::D0, 255),
    (Field::D1, 0),
    (Field::D1, 1),
    (Field::D1, 255),
    (Field::D2, 0),
    (Field::D2, 1),
    (Field::D2, 255),
    (Field::D3, 0),
    (Field::D3, 1),
    (Field::D3, 255),
    (Field::D4, 0),
    (Field::D4, 1),
    (Field::D4, 255),
    (Field::D5, 0),
    (Field::D5, 1),
    (Field::D5, 255),
];

// The cases of one base kind each, by its number, since 14 is none: the ends of the ranges of its details and the
// values next to them, bad kinds, and bad fields under a bad kind.
pub const OWN: [(u8, Field, u64); 38] = [
    (1, Field::D0, 2),
    (1, Field::D0, 3),
    (1, Field::Kind, 0),
    (1, Field::Kind, 14),
    (1, Field::Kind, 255),
    (5, Field::D0, 63),
    (5, Field::D0, 64),
    (6, Field::D0, 63),
    (6, Field::D0, 64),
    (6, Field::D1, 9),
    (6, Field::D1, 10),
    (6, Field::D2, 2),
    (6, Field::D3, 2),
    (6, Field::D3, 3),
    (6, Field::D4, 2),
    (6, Field::D4, 3),
    (6, Field::D5, 2),
    (6, Field::Kind, 0),
    (6, Field::Kind, 14),
    (6, Field::Kind, 255),
    (7, Field::D0, 2),
    (7, Field::D0, 3),
    (12, Field::D0, 2),
    (12, Field::Kind, 0),
    (12, Field::Kind, 14),
    (12, Field::Kind, 255),
    (13, Field::D0, 63),
    (13, Field::D0, 64),
    (13, Field::D1, 2),
    (13, Field::D1, 3),
    (13, Field::Kind, 0),
    (13, Field::Kind, 14),
    (13, Field::Kind, 255),
    (14, Field::Nothing, 0),
    (14, Field::Id, 0),
    (14, Field::A, 1),
    (14, Field::D0, 255),
    (14, Field::D5, 1),
];

// The message with the case's change.
pub fn changed(m: Message, case: Case) -> Message {
    let byte = (case.value % 256) as u8;
    let word = (case.value % 4294967296) as u32;
    match case.field {
        Field::Nothing => m,
        Field::Kind => Message { kind: byte, ..m },
        Field::Zone => Message { zone: byte, ..m },
        Field::Time => Message { time: word, ..m },
        Field::Id => Message { id: word, ..m },
        Field::A => Message { a: case.value, ..m },
        Field::B => Message { b: case.value, ..m },
        Field::D0 => Message { d0: byte, ..m },
        Field::D1 => Message { d1: byte, ..m },
        Field::D2 => Message { d2: byte, ..m },
        Field::D3 => Message { d3: byte, ..m },
        Field::D4 => Message { d4: byte, ..m },
        Field::D5 => Message { d5: byte, ..m },
    }
}
