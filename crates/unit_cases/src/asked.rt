// What a row tries, by the number after its name: main.rt says what each writes.

// The station that a row is about.
#[derive(Clone, Copy)]
pub enum Station {
    First,
    Second,
    Third,
}

#[derive(Clone, Copy)]
pub enum Kind {
    Fresh,
    Bytes,
    Copy,
    Record(Station),
    Movement(Station),
    Work(Station),
}

// A number that names no kind.
#[derive(Clone, Copy)]
pub struct UnknownKind;

impl TryFrom<u16> for Kind {
    type Error = UnknownKind;

    fn try_from(number: u16) -> Result<Kind, UnknownKind> {
        match number {
            1 => Ok(Kind::Fresh),
            2 => Ok(Kind::Record(Station::First)),
            3 => Ok(Kind::Bytes),
            4 => Ok(Kind::Copy),
            5 => Ok(Kind::Movement(Station::First)),
            6 => Ok(Kind::Work(Station::First)),
            7 => Ok(Kind::Record(Station::Second)),
            8 => Ok(Kind::Movement(Station::Second)),
            9 => Ok(Kind::Work(Station::Second)),
            10 => Ok(Kind::Record(Station::Third)),
            11 => Ok(Kind::Movement(Station::Third)),
            12 => Ok(Kind::Work(Station::Third)),
            _ => Err(UnknownKind),
        }
    }
}
