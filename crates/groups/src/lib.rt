// The groups of a station (SHEET-3, VALUE-1 and VALUE-2 of docs/RULES.md): what is tied to a turnout, who is of a
// group, which sets split one. The rules are in specs/Groups.antt. Every function takes any station value, also one
// that no sheet gave.
#![tactic(auto)]

ghost use Rattle.std.specs.Prelude.{◌≡◌, cond, ◌&&◌, ltb};
ghost use Rattle.sets.specs.Sets.{single, union};
ghost use Rattle.groups.specs.Groups.{tied, grouped, whole, splits};

use station::observe::record_of;
use station::{Station, turnout_count};

pub mod carriers;

// The turnouts tied to a turnout: those of its group, or itself alone (VALUE-2).
#[tactic(auto, unfolding(crate::specs::Groups::tied_among))]
pub fn tied_to(st: Station, n: usize) -> u64
    ensures { result ≡ tied st n }
{
    let t = record_of(st.turnout, n);
    if (n < turnout_count(st)) & (t.group < carriers::GROUPS) {
        return carriers::carriers_of(st.turnouts, st.turnout, t.group);
    }
    sets::only(n)
}

// Whether a turnout is of a group (FIT-4, VALUE-2).
#[tactic(auto, unfolding(crate::specs::Groups::grouped))]
pub fn is_grouped(st: Station, n: usize) -> bool
    ensures { result ≡ grouped st n }
{
    2 <= sets::how_many(tied_to(st, n))
}

// Whether a set takes all of a group, or none of it.
pub fn is_whole(group: u64, s: u64) -> bool
    ensures { result ≡ whole group s }
{
    sets::is_within(group, s) | !sets::overlap(group, s)
}

// Whether a set takes a part of a group (KIND-1.2, VALUE-2): a number that a turnout of the set and one outside it
// carry. The loop counts in eight bits (VALUE-1, M-104).
pub fn splits_group(st: Station, s: u64) -> bool
    ensures { result ≡ splits st s }
{
    let mut taken: u64 = 0;
    let mut left: u64 = 0;
    let limit = st.turnouts.min(64);
    for i in 0..limit {
        let n = usize::from(i);
        let number = st.turnout[n].group;
        let inside = sets::contains(s, n);
        taken = with_number(taken, number, inside);
        left = with_number(left, number, !inside);
    }
    sets::overlap(taken, left)
}

// The set of group numbers with g added where the test holds; a number that is no group's is not added.
fn with_number(s: u64, g: u8, test: bool) -> u64
    ensures { result ≡ union s (cond (test && ltb g 32) (single g) 0) }
{
    sets::add_if(s, usize::from(g), test & (g < carriers::GROUPS))
}
