// The rows of a test program's input: the name that a row starts with, and its numbers, with a space before each.
// They are read from a place on; a place past the end reads as the end of a line. The last numbers of a row may be
// damage: pairs of a place and the byte that is put there. The rules are in specs/Rows.antt.
#![tactic(auto)]

ghost use Rattle.std.specs.Prelude.{◌≡◌};
ghost use Rattle.case_rows.specs.Rows.{repeated, byte_at, after, after_letter, after_name, name_at, with_digit};
ghost use Rattle.case_rows.specs.Rows.{number_at, towards_end, after_line, with_pair, with_pairs};

pub use row::Row;

mod row;

// A number, and the place after it.
#[derive(Clone, Copy)]
pub struct Parsed {
    pub value: u16,
    pub next: usize,
}

// The byte at a place.
#[tactic(auto, unfolding(crate::specs::Rows::byte_at))]
pub fn byte_at(text: &[u8], at: usize) -> u8
    ensures { result ≡ byte_at text.now at }
{
    text.get(at).copied().unwrap_or(b'\n')
}

// The next place.
fn after(at: usize) -> usize
    ensures { result ≡ after at }
{
    at.wrapping_add(1)
}

// The next place, if the byte at this one is part of a name; else this place.
#[tactic(auto, unfolding(crate::specs::Rows::after_letter))]
fn after_letter(text: &[u8], at: usize) -> usize
    ensures { result ≡ after_letter text.now at }
{
    if byte_at(text, at) <= b' ' {
        return at;
    }
    after(at)
}

// n steps, one after another.
fn repeated<T, F: Fn(T) -> T>(n: u8, start: T, step: F) -> T
    requires { F.IsAlwaysCallable step }
    ensures { (f : T → T) → ((x y : T) → F.post step x y → y ≡ f x) → result ≡ repeated n f start }
{
    let mut reached = start;
    for _ in 0..n {
        reached = step(reached);
    }
    reached
}

// The place after the name at a place; a name has at most 40 bytes.
#[tactic(auto, unfolding(crate::specs::Rows::after_name))]
fn after_name(text: &[u8], at: usize) -> usize
    ensures { result ≡ after_name text.now at }
{
    repeated(40, at, |next| after_letter(text, next))
}

// The name at a place, as that part of the text; an empty part past the end.
fn name<'a>(text: &'a [u8], at: usize) -> &'a [u8]
    ensures { result.now ≡ name_at text.now at }
{
    if text.len() < at {
        return &text[0..0];
    }
    let end = after_name(text, at);
    &text[at..end]
}

// The number with the digit after it, if there is one.
#[tactic(auto, unfolding(crate::specs::Rows::with_digit))]
fn with_digit(text: &[u8], n: Parsed) -> Parsed
    ensures { result ≡ with_digit text.now n }
{
    let b = byte_at(text, n.next);
    if !b.is_ascii_digit() {
        return n;
    }
    Parsed {
        value: n.value % 1000 * 10 + u16::from(b - b'0'),
        next: after(n.next),
    }
}

// The number of at most 4 digits that stands after the space at a place.
#[tactic(auto, unfolding(crate::specs::Rows::number_at))]
fn number_at(text: &[u8], at: usize) -> Parsed
    ensures { result ≡ number_at text.now at }
{
    let none = Parsed {
        value: 0,
        next: after(at),
    };
    repeated(4, none, |n| with_digit(text, n))
}

// The same place if a line ends there, else the next one.
#[tactic(auto, unfolding(crate::specs::Rows::towards_end))]
fn towards_end(text: &[u8], at: usize) -> usize
    ensures { result ≡ towards_end text.now at }
{
    if byte_at(text, at) == b'\n' {
        return at;
    }
    after(at)
}

// The place after a line of at most 200 bytes.
#[tactic(auto, unfolding(crate::specs::Rows::after_line))]
fn after_line(text: &[u8], at: usize) -> usize
    ensures { result ≡ after_line text.now at }
{
    after(repeated(200, at, |next| towards_end(text, next)))
}

// Stores the damage at a place, if there is more; the place after it.
#[tactic(auto, unfolding(crate::specs::Rows::with_pair))]
fn put_pair(s: &mut [u8], input: &[u8], at: usize) -> usize
    ensures { record { place = result; bytes = s.new }
        ≡ with_pair input.now (record { place = at; bytes = s.old }) }
{
    if byte_at(input, at) != b' ' {
        return at;
    }
    let place = number_at(input, at);
    let value = number_at(input, place.next);
    bigendian::put(s, usize::from(place.value), (value.value % 256) as u8);
    value.next
}

// Stores the damage from a place on, at most 16 pairs; the place after it. Not by `repeated`: the step lends the
// buffer, so that it is no `Fn`.
fn put_pairs(s: &mut [u8], input: &[u8], at: usize) -> usize
    ensures { record { place = result; bytes = s.new }
        ≡ with_pairs s.old input.now at }
{
    let mut next = at;
    for _ in 0..16u8 {
        next = put_pair(s, input, next);
    }
    next
}
