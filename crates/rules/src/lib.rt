// The tests of the kinds, KIND-1 to KIND-13 (docs/RULES.md), that look at more than one thing. The rules are in specs/:
// the table of kinds in Kinds.antt, its tests in Tests.antt, what makes a clearance fit in Clearance.antt, where a key
// may be used in Keys.antt.
#![tactic(auto)]

ghost use Rattle.std.specs.Prelude.{◌≡◌};
ghost use Rattle.rules.specs.Tests.{
  no_work_under,
  no_movement_under,
  bad_request,
  bad_detection,
  bad_route,
  bad_part,
  in_the_way,
  cleared_among,
  device_under_verbal,
  has_already,
  not_worked,
  misfits,
  key_misfits,
  order_forbidden,
};

pub mod clearances;
pub mod keys;
pub mod routes;

use clearances::clearance_fits;
use keys::key_fits;
use message::Message;
use station::{Route, Station};
use zone::movements::{is_standing, lack_nothing};
use zone::regimes::{order_refused, regime, worked_turnouts};
use zone::trains::{cleared_standing, movement_under, named_standing};
use zone::works::{manner_of, under_form};
use zone::{Passage, Work, Zone, work_of};

// The routes that bear on a message: the one that it asks for, and that of the movement under its id.
#[derive(Clone, Copy)]
pub struct Concerned {
    pub asked: Route,
    pub its: Route,
}

// Their numbers, which the rules keep in a record of their own; 255 for one that is not there, and no Option: the law
// `concerned-by-records` says of any number, 255 too, that the record at its index gives the route.
#[derive(Clone, Copy)]
pub struct RouteNumbers {
    pub asked: u8,
    pub its: u8,
}

// 15: no work under this id (KIND-2.1, KIND-3.1, KIND-4.1, KIND-10.1, KIND-11.1).
pub fn no_work_under(z: Zone, m: Message) -> bool
    ensures { result ≡ no_work_under z m }
{
    !under_form(work_of(z), m.id)
}

// 15: no movement under this id (KIND-6.1, KIND-7.1, KIND-8.1, KIND-9.1, KIND-13.1).
pub fn no_movement_under(z: Zone, m: Message) -> bool
    ensures { result ≡ no_movement_under z m }
{
    !is_standing(movement_under(z, m.id))
}

// 17 of a request: empty, outside the zone or splitting a group (KIND-1.2).
pub fn bad_request(st: Station, zone: u8, a: u64) -> bool
    ensures { result ≡ bad_request st zone a }
{
    sets::is_empty(a)
        | !sets::is_within(a, station::turnouts_of_zone(st, zone))
        | groups::splits_group(st, a)
}

// 17 of detection off: both empty, overlapping or outside the work (KIND-4.2).
pub fn bad_detection(set: u64, a: u64, b: u64) -> bool
    ensures { result ≡ bad_detection set a b }
{
    let both = sets::join(a, b);
    sets::is_empty(both) | sets::overlap(a, b) | !sets::is_within(both, set)
}

// 17 of a movement: route not below R or of another zone (KIND-5.2).
pub fn bad_route(st: Station, r: Route, zone: u8, route: u8) -> bool
    ensures { result ≡ bad_route st r zone route }
{
    let n = route as usize;
    let count = station::route_count(st);
    !(n < count) | !(r.zone == zone)
}

// 17 of a part restored: empty, not a proper part of the work, or splitting a group (KIND-10.2).
pub fn bad_part(st: Station, set: u64, a: u64) -> bool
    ensures { result ≡ bad_part st set a }
{
    sets::is_empty(a) | !sets::is_within(a, set) | (a == set) | groups::splits_group(st, a)
}

// 19: whether a standing movement names a turnout of the set (KIND-2.3, KIND-10.4, KIND-11.3).
pub fn names_of(st: Station, z: Zone, s: u64) -> bool
    ensures { result ≡ in_the_way st z s }
{
    sets::overlap(named_standing(st, z), s)
}

// 19 of detection off: a cleared turnout in a or b (KIND-4.4).
pub fn cleared_among(z: Zone, s: u64) -> bool
    ensures { result ≡ cleared_among z s }
{
    sets::overlap(cleared_standing(z), s)
}

// 22 of detection off: a portable device under a verbal request (KIND-4.5).
pub fn device_under_verbal(w: Work, b: u64) -> bool
    ensures { result ≡ device_under_verbal w b }
{
    !sets::is_empty(b) & (manner_of(w) == 2)
}

// 16 of a clearance and of a key: the turnout is cleared or has a key already (KIND-6.2, KIND-13.2).
pub fn has_already(v: Option<Passage>, n: u8) -> bool
    ensures { result ≡ has_already v n }
{
    sets::contains(lack_nothing(v), n as usize)
}

// 17 of a clearance and of a key: the turnout is not under agreed work or not named (KIND-6.3, KIND-13.3).
pub fn not_worked(r: Route, w: Work, n: u8) -> bool
    ensures { result ≡ not_worked r w n }
{
    !sets::contains(worked_turnouts(r, w), n as usize)
}

// 20: the clearance does not fit its turnout (KIND-6.4).
pub fn misfit(st: Station, r: Route, m: Message) -> bool
    ensures { result ≡ misfits st r m }
{
    !clearance_fits(st, r, m)
}

// 23: the key may not be used on turnout n of the route (KIND-13.4).
pub fn key_misfit(r: Route, n: u8, key: u8) -> bool
    ensures { result ≡ key_misfits r n key }
{
    !key_fits(r, n, key)
}

// 22 of an order: the regime on the route forbids it (KIND-7.3).
pub fn order_forbidden(r: Route, w: Work, v: Option<Passage>, order: u8) -> bool
    ensures { result ≡ order_forbidden r w v order }
{
    order_refused(order, regime(r, w, v))
}
