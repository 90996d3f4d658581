// Turnout records of a sheet of version 1 (SHEET-2, SHEET-11, SHEET-13 and SHEET-14 of docs/RULES.md): the first bad
// one, and their crossovers as groups. The byte that is the group's number in version 2 is the partner here. The rules
// are in specs/PartnerRecords.antt; specs/Crossovers.antt has what they guarantee.
#![tactic(auto)]

ghost use Rattle.std.specs.Prelude.{◌≡◌, cond, ◌+◌, ◌<◌, min, eqb, get_or};
ghost use Rattle.station.specs.Station.{turnouts_alone};
ghost use Rattle.partner_records.specs.PartnerRecords.{
  turnout_kept,
  partner_kept,
  first_bad_turnout,
  lower_end_of,
  renumbered,
};

use station::observe::record_of;
use station::{TURNOUTS, Turnout, ZONES};

// Whether turnout n, with the record t, and its partner's record o are two ends of a crossover (SHEET-13).
fn partner_kept(p: usize, n: usize, t: Turnout, o: Turnout) -> bool
    ensures { result ≡ partner_kept p n t o }
{
    let other = t.group as usize;
    let back = o.group as usize;
    (other < p) & (other != n) & (back == n) & (o.zone == t.zone) & (o.drive == t.drive)
}

// Whether the record t of turnout n is good, o being its partner's (SHEET-2).
fn turnout_kept(p: usize, z: usize, n: usize, t: Turnout, o: Turnout) -> bool
    ensures { result ≡ turnout_kept p z n t o }
{
    let zone = t.zone as usize;
    (zone < z) & (t.drive <= 1) & ((t.group == 255) | partner_kept(p, n, t, o))
}

// The index of the first bad one of p turnouts with these records, of z zones; none if all are good (SHEET-11). A count
// and 64 records, and no slice: `bad_turnout` speaks of a count that may be over its limit (VALUE-1).
pub fn first_bad_turnout(p: u8, z: u8, ts: [Turnout; 64]) -> Option<u8>
    ensures { result ≡ first_bad_turnout (turnouts_alone p z ts) }
{
    let count = usize::from(p).min(TURNOUTS);
    let zones = usize::from(z).min(ZONES);
    (0..p.min(64)).find(|i| {
        let n = usize::from(*i);
        let t = ts[n];
        !turnout_kept(count, zones, n, t, record_of(ts, usize::from(t.group)))
    })
}

// The count, one more where turnout n, with the record t, is the lower end of a crossover of p turnouts.
fn with_lower_end(found: u8, p: usize, n: usize, t: Turnout) -> u8
    requires { found < 255 }
    ensures { result ≡ found + cond (lower_end_of p n t) 1 0 }
{
    let other = t.group as usize;
    if (other < p) & (n < other) {
        return found + 1;
    }
    found
}

// The number of turnout n with its partner: that of the lower of them, by how many lower ends stand below each.
fn number_with(below: &[u8; 64], n: usize, partner: u8) -> u8
    requires { n < 64 }
    ensures { result ≡ cond (eqb partner 255) 255 (get_or below.now (min n partner) 0) }
{
    let other = partner as usize;
    if partner == 255 {
        return 255;
    }
    if other < n {
        return below[other];
    }
    below[n]
}

// The records of p turnouts with their groups' numbers, in one pass: crossovers become groups (SHEET-14). A count and
// 64 records, as `renumbered` speaks of them; beside them how many lower ends stand below each, in fixed memory.
pub fn renumber(p: u8, old: [Turnout; 64]) -> [Turnout; 64]
    ensures { result ≡ (renumbered (turnouts_alone p 0 old)).turnout }
{
    let n = usize::from(p).min(TURNOUTS);
    let mut ts = [Turnout::NONE; TURNOUTS];
    let mut below: [u8; 64] = [0; 64];
    let mut found: u8 = 0;
    for i in 0..n {
        let t = old[i];
        below[i] = found;
        found = with_lower_end(found, n, i, t);
        ts[i] = Turnout {
            zone: t.zone,
            group: number_with(&below, i, t.group),
            drive: t.drive,
        };
    }
    ts
}
