// The stored cases, one after another in bytes.
ghost use Rattle.std.specs.Prelude.{length};
ghost use Rattle.std.specs.Iterator.{at_most};

// A case: its kind, its numbers and its parts.
#[derive(Clone, Copy)]
pub struct Case<'a> {
    pub kind: u8,
    pub x: u32,
    pub y: u32,
    pub a: &'a [u8],
    pub b: &'a [u8],
}

// The length of what stands before the parts of a case.
const HEADER: usize = 13;

// The cases of these bytes. What is too short for a case ends them.
#[derive(Drop)]
pub struct Cases<'a>(pub &'a [u8]);

impl<'a> Iterator for Cases<'a> {
    type Item = Case<'a>;

    ghost remaining = { λ s. at_most (length s.0.now) };

    fn next(&mut self) -> Option<Case<'a>> {
        let bytes = self.0;
        let first = HEADER + usize::from(bigendian::get::<u16>(bytes, 9));
        let second = first + usize::from(bigendian::get::<u16>(bytes, 11));
        if bytes.len() < second {
            return None;
        }
        self.0 = &bytes[second..];
        Some(Case {
            kind: bigendian::get(bytes, 0),
            x: bigendian::get(bytes, 1),
            y: bigendian::get(bytes, 5),
            a: &bytes[HEADER..first],
            b: &bytes[first..second],
        })
    }
}
