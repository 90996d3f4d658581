// The works desk: it hears messages and records (HEAR-1 to HEAR-4 of docs/RULES.md), and answers two questions (ASK-1
// to ASK-4). The rules are in specs/: Desk.antt (hearing) and Questions.antt; the kinds are in the crate `rules`. Every
// function takes any station and any desk value. specs/Separate.antt is the law that a message touches its own zone
// alone (APART-1, APART-2).
#![tactic(auto)]

ghost use Rattle.std.specs.Prelude.{◌≡◌, ◌≢◌, ◌<◌, unwrap_or, Some, IfOk};
ghost use Rattle.refusals.specs.Numbers.{index_in};
ghost use Rattle.zone.specs.Zone.{answer_of};
ghost use Rattle.desk.specs.Desk.{
  fresh_desk,
  reached,
  applied,
  applied_record,
  applied_of,
  zone_place,
  zone_hears_on,
  zone_hears,
};
ghost use Rattle.desk.specs.Questions.{
  lowest_of,
  movement_in,
  movement_answered,
  movement_answer_of,
  NamesATurnout,
  work_answered,
  work_answer_of,
};

use message::Message;
use refusals::{Refusal, refuse_if};
use rules::Concerned;
use rules::routes::routes_concerned;
use station::Station;
use zone::{Heard, Regime, Zone};

// A desk: the state of its zones.
#[derive(Clone, Copy)]
pub struct Desk {
    pub zones: [Zone; 8],
}

// What an accepted message leaves: the desk after it, and the minutes. One that is refused leaves the desk as it was.
// Beside `zone::Heard` a struct of its own: each names what it holds, and the rules have two records.
#[derive(Clone, Copy)]
pub struct After {
    pub desk: Desk,
    pub minutes: u32,
}

// The answer to the movement question: the regime, the lowest-numbered turnout that has neither a clearance nor a key,
// if there is one, and how many have neither.
#[derive(Clone, Copy)]
pub struct MovementState {
    pub regime: Regime,
    pub lowest: Option<u32>,
    pub count: u32,
}

impl Desk {
    pub const ZONES: usize = station::ZONES;

    pub const TURNOUTS: usize = station::TURNOUTS;

    // A desk with no work and no movement in any zone, recorders working, times 0 (ZONE-2, FORM-3).
    #[tactic(auto, unfolding(crate::specs::Desk::fresh_desk))]
    pub fn fresh() -> Desk
        ensures { result ≡ fresh_desk }
    {
        let z = Zone::fresh();
        Desk {
            zones: [z; Desk::ZONES],
        }
    }
}

// The place of a message's zone in a desk; 0 for a zone that the station has not, so that the law `reached-in-place` is
// of every message.
#[tactic(auto, unfolding(crate::specs::Desk::zone_place))]
pub fn zone_place(st: Station, m: Message) -> usize
    ensures value { result ≡ zone_place st m }
    ensures upper_bound { result < 8 }
{
    let n = m.zone as usize;
    if station::zone_count(st) <= n {
        return 0;
    }
    n
}

// A message that keeps the field rules, heard by the zone in its place, the routes that bear on it being given: 12
// for a zone that the station has not, else as the zone hears it.
pub fn zone_hears_on(st: Station, routes: Concerned, z: Zone, m: Message) -> Result<Heard, Refusal>
    ensures { answer_of z result ≡ zone_hears_on st routes z m }
{
    let zone = m.zone as usize;
    refuse_if(station::zone_count(st) <= zone, Refusal::NoSuchZone)?;
    kinds::hear(st, routes, z, m)
}

// The same, the routes being the station's.
#[tactic(auto, unfolding(crate::specs::Desk::zone_hears))]
pub fn zone_hears(st: Station, z: Zone, m: Message) -> Result<Heard, Refusal>
    ensures { answer_of z result ≡ zone_hears st z m }
{
    zone_hears_on(st, routes_concerned(st, z, m), z, m)
}

// A message that keeps the field rules, heard by the desk (HEAR-2).
fn reach(st: Station, d: Desk, m: Message) -> Result<After, Refusal>
    ensures { applied_of d result ≡ reached st d m }
{
    let place = zone_place(st, m);
    let heard = zone_hears(st, d.zones[place], m)?;
    let mut desk = d;
    desk.zones[place] = heard.zone;
    Ok(After {
        desk,
        minutes: heard.minutes,
    })
}

// A message heard by the desk (HEAR-1).
#[tactic(auto, using(refusals::proofs::Numbers::not_zero), unfolding(crate::specs::Desk::applied))]
pub fn apply(st: Station, d: Desk, m: Message) -> Result<After, Refusal>
    ensures { applied_of d result ≡ applied st d m }
{
    message::check_fields(m)?;
    reach(st, d, m)
}

// Bytes heard by the desk as a record (HEAR-1, FORM-1).
#[tactic(auto, using(refusals::proofs::Numbers::not_zero), unfolding(crate::specs::Desk::applied_record))]
pub fn apply_record(st: Station, d: Desk, s: &[u8]) -> Result<After, Refusal>
    ensures { applied_of d result ≡ applied_record st d s.now }
{
    let reading = message::read_record(s);
    let Ok(m) = reading else {
        return Err(reading.unwrap_err());
    };
    reach(st, d, m)
}

// The lowest turnout of a set; none if it is empty (ASK-1).
fn lowest_of(s: u64) -> Option<u32>
    ensures number { unwrap_or result 255 ≡ lowest_of s }
    ensures turnout { result ≢ Some 255 }
{
    if sets::is_empty(s) {
        return None;
    }
    Some(sets::lowest_of(s))
}

// The movement question in its zone (ASK-1, ASK-2).
fn movement_in(st: Station, z: Zone, train: u32) -> Result<MovementState, Refusal>
    ensures answer { movement_answer_of result ≡ movement_in st z train }
    ensures index { index_in result ≡ 0 }
    ensures lowest { IfOk result NamesATurnout }
{
    let w = zone::work_of(z);
    let v = zone::trains::movement_under(z, train);
    refuse_if(v.is_none(), Refusal::NotUnderThisId)?;
    let r = zone::movements::route_for(st, v);
    let lacking = zone::regimes::lacking_clearance(r, w, v);
    Ok(MovementState {
        regime: zone::regimes::regime(r, w, v),
        lowest: lowest_of(lacking),
        count: sets::how_many(lacking),
    })
}

// The movement question: may the train go, and under which signals (ASK-1, ASK-2).
#[tactic(auto, unfolding(crate::specs::Questions::movement_answered))]
pub fn query_movement(st: Station, d: Desk, zone: u8, train: u32) -> Result<MovementState, Refusal>
    ensures answer { movement_answer_of result ≡ movement_answered st d zone train }
    ensures index { index_in result ≡ 0 }
    ensures lowest { IfOk result NamesATurnout }
{
    let n = zone as usize;
    refuse_if(station::zone_count(st) <= n, Refusal::NoSuchZone)?;
    movement_in(st, d.zones[n], train)
}

// The work question: is the turnout open to work (ASK-3, ASK-4).
#[tactic(auto, unfolding(crate::specs::Questions::work_answered))]
pub fn query_work(st: Station, d: Desk, turnout: u8) -> Result<bool, Refusal>
    ensures answer { work_answer_of result ≡ work_answered st d turnout }
    ensures index { index_in result ≡ 0 }
{
    let n = turnout as usize;
    refuse_if(station::turnout_count(st) <= n, Refusal::BadField)?;
    let zone = station::zone_of(st, n) as usize;
    if station::zone_count(st) <= zone {
        return Ok(false);
    }
    let w = zone::work_of(d.zones[zone]);
    Ok(sets::contains(zone::works::open_set(w), n))
}
