// Turnout sets: a set is a 64-bit word, bit n is turnout n (SET-2 of docs/RULES.md). Every function is total: it takes
// any number and any word. The rules are in specs/Sets.antt, the laws by membership in proofs/Membership.antt.
#![tactic(auto)]

ghost use Rattle.std.specs.Prelude.{◌≡◌, cond};
ghost use Rattle.sets.specs.Sets.{has, single, is_empty, overlaps, within, without, union, count, lowest};

// The turnouts that a set can hold, numbered from 0.
pub const TURNOUTS: usize = 64;

// Whether turnout n is in s; false from 64 on.
pub fn contains(s: u64, n: usize) -> bool
    ensures { result ≡ has s n }
{
    if n < TURNOUTS {
        return (s >> n) % 2 == 1;
    }
    false
}

// The set of turnout n alone; empty from 64 on.
pub fn only(n: usize) -> u64
    ensures { result ≡ single n }
{
    if n < TURNOUTS {
        return 1u64 << n;
    }
    0
}

pub fn is_empty(s: u64) -> bool
    ensures { result ≡ is_empty s }
{
    s == 0
}

// Whether some turnout is in both.
pub fn overlap(a: u64, b: u64) -> bool
    ensures { result ≡ overlaps a b }
{
    a & b != 0
}

// Whether each turnout of a is in b.
pub fn is_within(a: u64, b: u64) -> bool
    ensures { result ≡ within a b }
{
    a & b == a
}

// The turnouts of a that are not in b.
pub fn minus(a: u64, b: u64) -> u64
    ensures { result ≡ without a b }
{
    a ^ (a & b)
}

// The turnouts of a and those of b.
pub fn join(a: u64, b: u64) -> u64
    ensures { result ≡ union a b }
{
    a | b
}

// The set s with turnout n where the test holds; n from 64 on is not added.
pub fn add_if(s: u64, n: usize, test: bool) -> u64
    ensures { result ≡ union s (cond test (single n) 0) }
{
    if test {
        return join(s, only(n));
    }
    s
}

// How many turnouts are in s (FORM-2).
#[tactic(auto, using(crate::proofs::Counting::count_ones))]
pub fn how_many(s: u64) -> u32
    ensures { result ≡ count s }
{
    s.count_ones()
}

// The lowest turnout in s; 64 if s is empty (FORM-2).
pub fn lowest_of(s: u64) -> u32
    ensures { result ≡ lowest s }
{
    s.trailing_zeros()
}
