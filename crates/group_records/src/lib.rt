// Turnout records of a sheet of version 2 (SHEET-2, SHEET-3 and SHEET-11 of docs/RULES.md): the first bad one. The
// rules are in specs/GroupRecords.antt; specs/FirstCarrier.antt says where a wrong group is reported,
// specs/Guaranteed.antt what a good record guarantees.
#![tactic(auto)]

ghost use Rattle.std.specs.Prelude.{◌≡◌};
ghost use Rattle.station.specs.Station.{turnouts_alone};
ghost use Rattle.group_records.specs.GroupRecords.{
  as_zone_drive,
  by_zone_drive,
  group_kept,
  turnout_kept,
  first_bad_turnout,
};

use groups::carriers::{GROUPS, ties};
use station::{TURNOUTS, Turnout, ZONES};

// The record with a number for its zone and drive in place of its group's.
fn as_zone_drive(t: Turnout) -> Turnout
    ensures { result ≡ as_zone_drive t }
{
    if (t.zone < 8) & (t.drive <= 1) {
        return Turnout {
            zone: t.zone,
            group: t.zone * 2 + t.drive,
            drive: t.drive,
        };
    }
    Turnout {
        zone: t.zone,
        group: 255,
        drive: t.drive,
    }
}

// The records with such numbers, so that the turnouts of one zone and drive are tied. A loop of its own, as `groups`
// ties have.
fn by_zone_drive(p: u8, ts: [Turnout; 64]) -> [Turnout; 64]
    ensures { result ≡ by_zone_drive p ts }
{
    let mut out = [Turnout::NONE; TURNOUTS];
    for i in 0..usize::from(p).min(TURNOUTS) {
        out[i] = as_zone_drive(ts[i]);
    }
    out
}

// Whether a group has 2 to 8 turnouts, and all are among those of the zone and drive of one of it (SHEET-3).
fn group_kept(group: u64, like: u64) -> bool
    ensures { result ≡ group_kept group like }
{
    let n = sets::how_many(group);
    (2 <= n) & (n <= 8) & sets::is_within(group, like)
}

// Whether a turnout's record is good, with the turnouts tied to it and those of its zone and drive (SHEET-2). Version 1
// has a rule of its own, on partners.
fn turnout_kept(z: usize, t: Turnout, group: u64, like: u64) -> bool
    ensures { result ≡ turnout_kept z t group like }
{
    let zone = t.zone as usize;
    let kept = group_kept(group, like);
    (zone < z) & (t.drive <= 1) & ((t.group == 255) | ((t.group < GROUPS) & kept))
}

// The index of the first bad one of p turnouts with these records, of z zones; none if all are good (SHEET-11). A count
// and 64 records, and no slice: `bad_turnout` speaks of a count that may be over its limit (VALUE-1). What is tied and
// what is alike is worked out for all turnouts in one pass each, in fixed memory.
pub fn first_bad_turnout(p: u8, z: u8, ts: [Turnout; 64]) -> Option<u8>
    ensures { result ≡ first_bad_turnout (turnouts_alone p z ts) }
{
    let zones = usize::from(z).min(ZONES);
    let tied = ties(p, ts);
    let alike = ties(p, by_zone_drive(p, ts));
    (0..p.min(64)).find(|i| {
        let n = usize::from(*i);
        !turnout_kept(zones, ts[n], tied[n], alike[n])
    })
}
