// Judging a station whose counts are in range: the first bad turnout, by the rules of its sheet's version, then the
// first bad route (SHEET-5 to SHEET-9 and SHEET-11 of docs/RULES.md). Records come as a count and 64 of them, and no
// slice: the rules speak of a count that may be over its limit (VALUE-1).
ghost use Rattle.std.specs.Prelude.{◌≡◌, min, get_or};
ghost use Rattle.sheet.specs.Sheet.{
  all_turnouts,
  sets_kept,
  member_by,
  pair_in,
  first_bad_route,
  found_of,
  finding_of,
  routes_judged,
  bad_turnout_by,
  turnouts_found,
  meant,
  judged,
};
ghost use Rattle.group_records.specs.GroupRecords.{found_below};
ghost use Rattle.sets.specs.Table.{places};
ghost use Rattle.station.specs.Station.{turnouts_alone};

use groups::carriers::ties;
use groups::is_whole;
use refusals::Refusal;
use station::{Route, Station, TURNOUTS, Turnout, names, turnout_count};

// The set of the first p turnouts.
fn all_turnouts(p: usize) -> u64
    ensures { result ≡ all_turnouts (min p 64) }
{
    if p < 64 {
        return sets::only(p) - 1;
    }
    18446744073709551615
}

// Whether the sets of a route are disjoint, among the p turnouts, not empty and within each other as they must be
// (SHEET-5 to SHEET-7).
fn sets_kept(p: usize, r: Route) -> bool
    ensures { result ≡ sets_kept (min p 64) r }
{
    !sets::overlap(r.over, r.flank)
        & !sets::overlap(r.over, r.exits)
        & !sets::overlap(r.flank, r.exits)
        & sets::is_within(names(r), all_turnouts(p))
        & !sets::is_empty(r.over)
        & sets::is_within(r.reverse, names(r))
}

// A group if it is one of two, else nothing (SHEET-9).
fn pair_in(group: u64) -> u64
    ensures { result ≡ pair_in group }
{
    if sets::how_many(group) == 2 {
        return group;
    }
    0
}

// The groups of two among the first p of these. A loop of its own, as `groups` ties have: one table for all would be
// lent a closure, and no public function asks its caller for that.
fn pairs_in(p: u8, groups: [u64; 64]) -> [u64; 64]
    ensures { result ≡ places (λ k. pair_in (get_or groups k 0)) p 0 }
{
    let mut out: [u64; 64] = [0; 64];
    for i in 0..usize::from(p).min(TURNOUTS) {
        out[i] = pair_in(groups[i]);
    }
    out
}

// Whether turnout n, its record t and the turnouts tied to it, of which a pair counts for the position, are as the
// route r wants them (SHEET-6, SHEET-8, SHEET-9).
fn member_kept(r: Route, n: usize, t: Turnout, group: u64, pair: u64) -> bool
    ensures { result ≡ member_by r n t group pair }
{
    let named = names(r);
    (!sets::contains(named, n) | (t.zone == r.zone))
        & (!sets::contains(r.flank, n) | sets::is_within(group, r.flank))
        & is_whole(pair & named, r.reverse)
}

// The index of the first bad route; none if all are good (SHEET-11, FORM-7). What is tied to each turnout is worked out
// once for all routes, in fixed memory beside the records.
fn first_bad_route(st: Station) -> Option<u8>
    ensures { result ≡ first_bad_route st }
{
    let p = turnout_count(st);
    let ts = st.turnout;
    let tied = ties(st.turnouts, ts);
    let pairs = pairs_in(st.turnouts, tied);
    let mut bad = None;
    'routes: for i in 0..st.routes.min(64) {
        let r = st.route[usize::from(i)];
        if !sets_kept(p, r) {
            bad = Some(i);
            break 'routes;
        }
        for k in 0..p {
            if !member_kept(r, k, ts[k], tied[k], pairs[k]) {
                bad = Some(i);
                break 'routes;
            }
        }
    }
    bad
}

// Judges the routes of a station whose turnouts are good: the first bad one refuses it.
#[tactic(auto, unfolding(crate::specs::Sheet::routes_judged))]
pub fn judge_routes(st: Station) -> Result<(), Refusal>
    ensures { found_of result ≡ finding_of (routes_judged st) }
{
    first_bad_route(st).map_or(Ok(()), |r| Err(Refusal::BadRoute(r)))
}

// The first bad one of p turnouts with these records, of z zones, by the version of their sheet. The version stays its
// number: `bad_turnout_by` and `meant` take every version but 1 as 2.
fn first_bad_turnout(version: u16, p: u8, z: u8, ts: [Turnout; 64]) -> Option<u8>
    ensures { result ≡ found_below (bad_turnout_by version (turnouts_alone p z ts)) (min p 64) }
{
    if version == 1 {
        return partner_records::first_bad_turnout(p, z, ts);
    }
    group_records::first_bad_turnout(p, z, ts)
}

// Judges these turnouts: the first bad one refuses them (SHEET-11).
pub fn judge_turnouts(version: u16, p: u8, z: u8, ts: [Turnout; 64]) -> Result<(), Refusal>
    ensures { found_of result ≡ turnouts_found version (turnouts_alone p z ts) }
{
    first_bad_turnout(version, p, z, ts).map_or(Ok(()), |t| Err(Refusal::BadTurnout(t)))
}

// The records of p turnouts with their groups' numbers, by the version of their sheet (SHEET-14).
pub fn grouped_turnouts(version: u16, p: u8, ts: [Turnout; 64]) -> [Turnout; 64]
    ensures { result ≡ (meant version (turnouts_alone p 0 ts)).turnout }
{
    if version == 1 {
        return partner_records::renumber(p, ts);
    }
    ts
}

// Judges a station as one of version 2: its first bad record refuses it.
pub fn judge(st: Station) -> Result<(), Refusal>
    ensures { found_of result ≡ finding_of (judged st) }
{
    judge_turnouts(2, st.turnouts, st.zones, st.turnout)?;
    judge_routes(st)
}
