// A text that is written into a buffer, PROGRAM-1 and PROGRAM-2 (docs/RULES.md).
ghost use Rattle.std.specs.Prelude.{◌≡◌};
ghost use Rattle.report.specs.Text.{decimal, line_of, text_of, put_byte, put_all};

use itoa::Buffer;

// The buffer, and the place of its next byte, which is the text's length. Each method keeps the buffer, and says so: no
// invariant of the type can speak of the text before and after.
#[derive(Drop)]
pub struct Text<'a> {
    pub out: &'a mut [u8],
    pub at: usize,
}

impl Text<'_> {
    // Past the end nothing is stored.
    #[tactic(auto, unfolding(crate::specs::Text::put_byte))]
    fn put_byte(&mut self, b: u8)
        ensures same_buffer { self.new.out.ghost_name ≡ self.old.out.ghost_name }
        ensures put { record { place = self.new.at; bytes = self.new.out.now }
            ≡ put_byte self.old.out.now self.old.at b }
    {
        if self.at < self.out.len() {
            self.out[self.at] = b;
            self.at += 1;
        }
    }

    fn put_all(&mut self, bytes: &[u8])
        ensures same_buffer { self.new.out.ghost_name ≡ self.old.out.ghost_name }
        ensures put { record { place = self.new.at; bytes = self.new.out.now }
            ≡ put_all self.old.out.now self.old.at bytes.now }
    {
        for b in bytes {
            self.put_byte(*b);
        }
    }

    fn put_decimal(&mut self, n: u32)
        ensures same_buffer { self.new.out.ghost_name ≡ self.old.out.ghost_name }
        ensures put { record { place = self.new.at; bytes = self.new.out.now }
            ≡ put_all self.old.out.now self.old.at (decimal n) }
    {
        let mut digits = Buffer::new();
        self.put_all(digits.format(n).as_bytes());
    }

    // A line: three numbers.
    fn put_line(&mut self, n: u32, code: u8, minutes: u32)
        ensures same_buffer { self.new.out.ghost_name ≡ self.old.out.ghost_name }
        ensures put { record { place = self.new.at; bytes = self.new.out.now }
            ≡ put_all self.old.out.now self.old.at (line_of n code minutes) }
    {
        self.put_decimal(n);
        self.put_byte(b' ');
        self.put_decimal(code as u32);
        self.put_byte(b' ');
        self.put_decimal(minutes);
        self.put_byte(b'\n');
    }

    // A line for each answer, or the number of a refusal.
    pub fn put_text(&mut self, code: u8, answers: &[u8], count: u32)
        ensures same_buffer { self.new.out.ghost_name ≡ self.old.out.ghost_name }
        ensures put { record { place = self.new.at; bytes = self.new.out.now }
            ≡ put_all self.old.out.now self.old.at (text_of code answers.now count) }
    {
        if code != 0 {
            self.put_decimal(code as u32);
            self.put_byte(b'\n');
            return;
        }
        for i in 0..count {
            let place = crate::ANSWER * (i as usize);
            self.put_line(
                i + 1,
                bigendian::get::<u8>(answers, place),
                bigendian::get::<u32>(answers, place + 1),
            );
        }
    }
}
