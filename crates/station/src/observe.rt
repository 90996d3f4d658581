// What is looked for among turnout records, a count and 64 of them (VALUE-1), for the observers of a station and for
// the crates that read it.
ghost use Rattle.std.specs.Prelude.{◌≡◌, get_or, Bool};
ghost use Rattle.station.specs.Station.{empty_turnout, turnouts_meeting};
ghost use Rattle.station.specs.declared.Turnout.{Turnout};

use super::{TURNOUTS, Turnout};

// A test of a turnout by its record: a trait and no closure, since a public function asks nothing of its caller.
pub trait TurnoutTest {
    ghost meets: { Self → Turnout → Bool };

    fn meets(&self, t: Turnout) -> bool
        ensures { result ≡ meets self.now t };
}

// The turnouts that meet a test, of p with these records.
pub fn turnouts_where<T: TurnoutTest>(p: u8, ts: [Turnout; 64], test: &T) -> u64
    ensures { result ≡ turnouts_meeting (T.meets test.now) p ts }
{
    let mut found: u64 = 0;
    for i in 0..usize::from(p).min(TURNOUTS) {
        found = sets::add_if(found, i, test.meets(ts[i]));
    }
    found
}

// The record of a turnout, as stored; every number 0 from 64 on.
pub fn record_of(ts: [Turnout; 64], n: usize) -> Turnout
    ensures { result ≡ get_or ts n empty_turnout }
{
    ts.get(n).copied().unwrap_or(Turnout::NONE)
}
