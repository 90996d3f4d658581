// Big-endian numbers of 8, 16, 32 and 64 bits at any place of a buffer: SET-3 (docs/RULES.md). Every function is total:
// a byte past the end reads as 0 and is not stored. The rules are in specs/BigEndian.antt, the laws over the width in
// proofs/.
#![tactic(auto)]

ghost use Rattle.std.specs.Prelude.{◌≡◌, ◌≤◌, ◌<◌, ◌%◌, ◌^◌, ℕ, List, refl};
ghost use Rattle.bigendian.specs.BigEndian.{byte_at, with_byte, number_at, stored_at};
ghost use Rattle.std.proofs.Common.{rules};

// A number type that is kept in so many whole bytes, at most 8.
pub trait Number: Copy {
    const BYTES: usize;

    ghost BYTES: { ℕ };

    // What number a value is.
    ghost value: { Self → ℕ };

    // The number at a place of a buffer, and the buffer with one stored at a place: for a single byte `byte_at` and
    // `with_byte`, which are the same.
    ghost at_place: { List ℕ → ℕ → ℕ };

    ghost with_number: { List ℕ → ℕ → ℕ → List ℕ };

    // The number in the low bytes of a wider one.
    fn low(n: u64) -> Self
        ensures { value result ≡ n % 256 ^ BYTES };

    fn wide(self) -> u64
        ensures value { result ≡ value self }
        ensures upper_bound { result < 256 ^ BYTES };

    ghost narrow: { BYTES ≤ 8 };

    ghost reads: { (s : List ℕ) (at : ℕ) → at_place s at ≡ number_at BYTES s at };

    ghost stores: { (s : List ℕ) (at n : ℕ) → n < 256 ^ BYTES → with_number s at n ≡ stored_at BYTES s at n };
}

// One impl for each type: no macro may write them, and a ghost member's default cannot name another member.
impl Number for u8 {
    const BYTES: usize = 1;

    ghost BYTES = { 1 };

    ghost value = { λ n. n };

    ghost at_place = { byte_at };

    ghost with_number = { with_byte };

    fn low(n: u64) -> u8 {
        (n % 256) as u8
    }

    fn wide(self) -> u64 {
        u64::from(self)
    }

    ghost narrow = { Prim.search rules };

    ghost reads = { Prim.search rules };

    ghost stores = { Prim.search rules };
}

impl Number for u16 {
    const BYTES: usize = 2;

    ghost BYTES = { 2 };

    ghost value = { λ n. n };

    ghost at_place = { number_at 2 };

    ghost with_number = { stored_at 2 };

    fn low(n: u64) -> u16 {
        (n % 65536) as u16
    }

    fn wide(self) -> u64 {
        u64::from(self)
    }

    ghost narrow = { Prim.search rules };

    ghost reads = { λ s at. refl };

    ghost stores = { λ s at n below. refl };
}

impl Number for u32 {
    const BYTES: usize = 4;

    ghost BYTES = { 4 };

    ghost value = { λ n. n };

    ghost at_place = { number_at 4 };

    ghost with_number = { stored_at 4 };

    fn low(n: u64) -> u32 {
        (n % 4294967296) as u32
    }

    fn wide(self) -> u64 {
        u64::from(self)
    }

    ghost narrow = { Prim.search rules };

    ghost reads = { λ s at. refl };

    ghost stores = { λ s at n below. refl };
}

impl Number for u64 {
    const BYTES: usize = 8;

    ghost BYTES = { 8 };

    ghost value = { λ n. n };

    ghost at_place = { number_at 8 };

    ghost with_number = { stored_at 8 };

    fn low(n: u64) -> u64 {
        n
    }

    fn wide(self) -> u64 {
        self
    }

    ghost narrow = { Prim.search rules };

    ghost reads = { λ s at. refl };

    ghost stores = { λ s at n below. refl };
}

// The byte at an index; 0 past the end.
fn byte_of(s: &[u8], at: usize) -> u8
    ensures { result ≡ byte_at s.now at }
{
    s.get(at).copied().unwrap_or(0)
}

// Stores a byte at an index; past the end nothing is stored.
fn put_byte(s: &mut [u8], at: usize, n: u8)
    ensures { s.new ≡ with_byte s.old at n }
{
    if at < s.len() {
        s[at] = n;
    }
}

// The number at a place of a buffer.
pub fn get<N: Number>(s: &[u8], at: usize) -> N
    ensures { N.value result ≡ N.at_place s.now at }
{
    if s.len() <= at {
        return N::low(0);
    }
    let mut n: u64 = 0;
    for i in 0..N::BYTES {
        n = n * 256 + u64::from(byte_of(s, at + i));
    }
    N::low(n)
}

// Stores a number at a place of a buffer.
pub fn put<N: Number>(s: &mut [u8], at: usize, n: N)
    ensures { s.new ≡ N.with_number s.old at (N.value n) }
{
    let wide = n.wide();
    if s.len() <= at {
        return;
    }
    for i in 0..N::BYTES {
        let above = N::BYTES - 1 - i;
        put_byte(s, at + i, ((wide >> (8 * above)) % 256) as u8);
    }
}
