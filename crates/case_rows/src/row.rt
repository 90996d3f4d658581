// A place in the rows of a test program's input, which moves on as they are read.
ghost use Rattle.std.specs.Prelude.{◌≡◌};
ghost use Rattle.case_rows.specs.Rows.{byte_at, after, after_name, after_line, name_at, number_at, with_pairs};

// The input, and the place of the next byte. Each method that moves the place keeps the input, and says so: no
// invariant of the type can speak of the row before and after.
#[derive(Clone, Copy, Drop)]
pub struct Row<'a> {
    pub text: &'a [u8],
    pub at: usize,
}

impl<'a> Row<'a> {
    // The byte that is next.
    pub fn byte(&self) -> u8
        ensures { result ≡ byte_at self.now.text.now self.now.at }
    {
        super::byte_at(self.text, self.at)
    }

    // Passes one byte.
    pub fn skip(&mut self)
        ensures same_text { self.new.text ≡ self.old.text }
        ensures moved { self.new.at ≡ after self.old.at }
    {
        self.at = super::after(self.at);
    }

    // The name that stands here.
    pub fn name(&mut self) -> &'a [u8]
        ensures same_text { self.new.text ≡ self.old.text }
        ensures moved { self.new.at ≡ after_name self.old.text.now self.old.at }
        ensures read { result.now ≡ name_at self.old.text.now self.old.at }
    {
        let name = super::name(self.text, self.at);
        self.at = super::after_name(self.text, self.at);
        name
    }

    // The number that stands after a space.
    pub fn number(&mut self) -> u16
        ensures same_text { self.new.text ≡ self.old.text }
        ensures read { record { value = result; next = self.new.at } ≡ number_at self.old.text.now self.old.at }
    {
        let n = super::number_at(self.text, self.at);
        self.at = n.next;
        n.value
    }

    // Passes a line.
    pub fn skip_line(&mut self)
        ensures same_text { self.new.text ≡ self.old.text }
        ensures moved { self.new.at ≡ after_line self.old.text.now self.old.at }
    {
        self.at = super::after_line(self.text, self.at);
    }

    // Stores the damage that stands here.
    pub fn put_pairs(&mut self, s: &mut [u8])
        ensures same_text { self.new.text ≡ self.old.text }
        ensures stored { record { place = self.new.at; bytes = s.new }
            ≡ with_pairs s.old self.old.text.now self.old.at }
    {
        self.at = super::put_pairs(s, self.text, self.at);
    }
}
