// The turnouts that carry a group's number, 0 to 31, of so many turnouts with their records (SHEET-3 and VALUE-2 of
// docs/RULES.md). A count and 64 records, and no slice: the rules speak of a count that may be over its limit
// (VALUE-1).
ghost use Rattle.std.specs.Prelude.{◌≡◌, eqb};
ghost use Rattle.sets.specs.Table.{places};
ghost use Rattle.groups.specs.Groups.{carriers_among, group_sets, tied_in, tied_among};

use station::observe::{TurnoutTest, turnouts_where};
use station::{TURNOUTS, Turnout};

// The numbers of groups, from 0 on.
pub const GROUPS: u8 = 32;

// The test that a turnout carries a number.
#[derive(Drop)]
struct Carries {
    number: u8,
}

impl TurnoutTest for Carries {
    ghost meets = { λ test t. eqb t.group test.number };

    fn meets(&self, t: Turnout) -> bool {
        t.group == self.number
    }
}

// The turnouts that carry a number.
#[tactic(auto, unfolding(crate::specs::Groups::carriers_among, station::specs::Station::turnouts_meeting))]
pub fn carriers_of(p: u8, ts: [Turnout; 64], g: u8) -> u64
    ensures { result ≡ carriers_among p ts g }
{
    turnouts_where(p, ts, &Carries { number: g })
}

// The sets of the groups, in one pass over the turnouts.
pub fn group_sets(p: u8, ts: [Turnout; 64]) -> [u64; 32]
    ensures { result ≡ group_sets p ts }
{
    let mut gs = [0u64; 32];
    for i in 0..usize::from(p).min(TURNOUTS) {
        let at = usize::from(ts[i].group);
        if at >= 32 {
            continue;
        }
        gs[at] = sets::join(gs[at], sets::only(i));
    }
    gs
}

// The turnouts tied to turnout n of number g, out of the sets of the groups.
fn tied_in(gs: &[u64; 32], n: usize, g: u8) -> u64
    ensures { result ≡ tied_in gs.now n g }
{
    let at = usize::from(g);
    if at < 32 {
        return gs[at];
    }
    sets::only(n)
}

// What is tied to each turnout, in two passes over the turnouts; 0 past P. A loop of its own, beside that of a sheet's
// records: one table for all would be lent a closure, and no public function asks its caller for that.
pub fn ties(p: u8, ts: [Turnout; 64]) -> [u64; 64]
    ensures { result ≡ places (tied_among p ts) p 0 }
{
    let gs = group_sets(p, ts);
    let mut out = [0u64; 64];
    for i in 0..usize::from(p).min(TURNOUTS) {
        out[i] = tied_in(&gs, i, ts[i].group);
    }
    out
}
