// The text that is printed: as much of it as 65,536 bytes hold.
use std::fmt;

const ROOM: usize = 65536;

// The bytes, and how many of them, from the start on, are the text.
#[derive(Drop)]
pub struct Text {
    bytes: [u8; ROOM],
    length: usize,
}

impl Text {
    pub fn new() -> Text {
        Text {
            bytes: [0; ROOM],
            length: 0,
        }
    }

    pub fn bytes(&self) -> &[u8] {
        self.bytes.get(..self.length).unwrap_or(&self.bytes)
    }
}

// What does not fit is left off.
impl fmt::Write for Text {
    fn write_str(&mut self, s: &str) -> fmt::Result {
        for b in s.as_bytes() {
            if self.length < ROOM {
                self.bytes[self.length] = *b;
                self.length += 1;
            }
        }
        Ok(())
    }
}
