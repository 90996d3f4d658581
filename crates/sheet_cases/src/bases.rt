// The sheets by their base numbers: 1 to 4 of version 1 (sheets.rt), 31 to 36 of version 2 (grouped.rt).
use super::{grouped, sheets};

// The length of the longest sheet, and of the buffers that sheets are put into.
pub const LONGEST: usize = 2312;

// A sheet that there is in both versions.
#[derive(Clone, Copy)]
pub enum Shape {
    StationK,
    Larger,
    Largest { zones: u8 },
}

// A sheet to start from.
#[derive(Clone, Copy)]
pub enum Base {
    Version1(Shape),
    Version2(Shape),
    // Of version 2 alone: one with groups, and the largest with groups of eight.
    Groups,
    Eights,
}

// A number that names no sheet.
#[derive(Clone, Copy)]
pub struct UnknownBase;

impl TryFrom<u16> for Base {
    type Error = UnknownBase;

    fn try_from(number: u16) -> Result<Base, UnknownBase> {
        match number {
            1 => Ok(Base::Version1(Shape::StationK)),
            2 => Ok(Base::Version1(Shape::Larger)),
            3 => Ok(Base::Version1(Shape::Largest { zones: 8 })),
            4 => Ok(Base::Version1(Shape::Largest { zones: 1 })),
            31 => Ok(Base::Version2(Shape::StationK)),
            32 => Ok(Base::Version2(Shape::Larger)),
            33 => Ok(Base::Version2(Shape::Largest { zones: 8 })),
            34 => Ok(Base::Version2(Shape::Largest { zones: 1 })),
            35 => Ok(Base::Groups),
            36 => Ok(Base::Eights),
            _ => Err(UnknownBase),
        }
    }
}

impl Base {
    // Stores the sheet in bytes that are 0.
    fn put(self, s: &mut [u8]) {
        match self {
            Base::Version1(shape) => sheets::put_shape(s, shape),
            Base::Version2(shape) => grouped::put_shape(s, shape),
            Base::Groups => grouped::put_groups(s),
            Base::Eights => grouped::put_eights(s),
        }
    }

    // How many bytes the sheet has.
    fn length(self) -> usize {
        match self {
            Base::Version1(Shape::StationK) | Base::Version2(Shape::StationK) => 50,
            Base::Version1(Shape::Larger) | Base::Version2(Shape::Larger) => 131,
            Base::Groups => 188,
            _ => LONGEST,
        }
    }

    pub fn sheet(self) -> Sheet {
        let mut buffer = [0; LONGEST];
        self.put(&mut buffer);
        let length = self.length();
        Sheet { buffer, length }
    }

    // What writing the station of the sheet gives (WRITE-1, WRITE-2 of docs/RULES.md): the same in version 2.
    pub fn written(self) -> Base {
        match self {
            Base::Version1(shape) => Base::Version2(shape),
            other => other,
        }
    }
}

// A sheet in a buffer of 0s, and how many of its bytes are the sheet's: a case's damage may stand past them, and a case
// may read more of the buffer or less.
#[derive(Drop)]
pub struct Sheet {
    pub buffer: [u8; LONGEST],
    pub length: usize,
}

impl Sheet {
    // The sheet that a base number names; no bytes where it names none.
    pub fn of(base: Result<Base, UnknownBase>) -> Sheet {
        let none = Sheet {
            buffer: [0; LONGEST],
            length: 0,
        };
        base.map_or(none, Base::sheet)
    }

    // The sheet's bytes.
    pub fn bytes(&self) -> &[u8] {
        self.first(self.length)
    }

    // The first n bytes of the buffer; all, if there are fewer.
    pub fn first(&self, n: usize) -> &[u8] {
        self.buffer.get(..n).unwrap_or(&self.buffer)
    }
}
