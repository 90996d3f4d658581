// Stations: what a station says of its turnouts, routes and zones (SHEET-2 to SHEET-9, VALUE-1 and VALUE-3 of
// docs/RULES.md). The rules are in specs/Station.antt. Every function takes any station value, also one that no sheet
// gave. The crate `groups` says what is tied together, the crate `sheet` reads a station.
#![tactic(auto)]

ghost use Rattle.std.specs.Prelude.{◌≡◌, ◌<◌, eqb};
ghost use Rattle.station.specs.Station.{
  empty_station,
  turnout_count,
  route_count,
  zone_count,
  zone_of,
  drive_of,
  zone_turnouts,
  the_route,
  route_index,
  route_by,
  named_by,
};

pub mod observe;

use observe::TurnoutTest;

// The limits of a station.
pub const TURNOUTS: usize = 64;

pub const ROUTES: usize = 64;

pub const ZONES: usize = 8;

// A turnout: its zone, the number of its group (255 for alone), its drive (0 electric, 1 hand with key lock). They stay
// bytes: a station is judged as it stands, whatever they are (SHEET-2, WRITE-3).
#[derive(Clone, Copy, Debug, PartialEq, Eq)]
pub struct Turnout {
    pub zone: u8,
    pub group: u8,
    pub drive: u8,
}

impl Turnout {
    // A record in which every number is 0.
    pub const NONE: Turnout = Turnout {
        zone: 0,
        group: 0,
        drive: 0,
    };
}

// A route: its zone, the sets that it runs over, of its flank and of its exit zone, and those that lie reverse.
#[derive(Clone, Copy, Debug, PartialEq, Eq)]
pub struct Route {
    pub over: u64,
    pub flank: u64,
    pub exits: u64,
    pub reverse: u64,
    pub zone: u8,
}

impl Route {
    // A route that names nothing: every number is 0.
    pub const NONE: Route = Route {
        zone: 0,
        over: 0,
        flank: 0,
        exits: 0,
        reverse: 0,
    };
}

// A station: the counts P, R and Z, and the records; those past P and R are 0. Counts beside 64 records of each: memory
// is fixed, and a count over its limit is read as the limit (VALUE-1).
#[derive(Clone, Copy, Debug, PartialEq, Eq)]
pub struct Station {
    pub route: [Route; 64],
    pub turnout: [Turnout; 64],
    pub turnouts: u8,
    pub routes: u8,
    pub zones: u8,
}

impl Station {
    // The station in which every number is 0 (SHEET-12).
    #[tactic(auto, unfolding(crate::specs::Station::empty_station))]
    pub fn empty() -> Station
        ensures { result ≡ empty_station }
    {
        Station {
            turnouts: 0,
            routes: 0,
            zones: 0,
            turnout: [Turnout::NONE; 64],
            route: [Route::NONE; 64],
        }
    }
}

// How many turnouts, at most 64 (VALUE-1).
pub fn turnout_count(st: Station) -> usize
    ensures { result ≡ turnout_count st }
{
    usize::from(st.turnouts).min(TURNOUTS)
}

// How many routes, at most 64 (VALUE-1).
pub fn route_count(st: Station) -> usize
    ensures { result ≡ route_count st }
{
    usize::from(st.routes).min(ROUTES)
}

// How many zones, at most 8 (VALUE-1).
pub fn zone_count(st: Station) -> usize
    ensures { result ≡ zone_count st }
{
    usize::from(st.zones).min(ZONES)
}

// The zone of a turnout, as stored; 0 from 64 on.
pub fn zone_of(st: Station, n: usize) -> u8
    ensures { result ≡ zone_of st n }
{
    observe::record_of(st.turnout, n).zone
}

// The drive of a turnout, as stored; 0 from 64 on.
pub fn drive_of(st: Station, n: usize) -> u8
    ensures { result ≡ drive_of st n }
{
    observe::record_of(st.turnout, n).drive
}

// The test that a turnout is of a zone.
#[derive(Drop)]
struct IsOfZone {
    zone: u8,
}

impl TurnoutTest for IsOfZone {
    ghost meets = { λ test t. eqb t.zone test.zone };

    fn meets(&self, t: Turnout) -> bool {
        t.zone == self.zone
    }
}

// The turnouts of a zone.
#[tactic(auto, unfolding(crate::specs::Station::zone_turnouts, crate::specs::Station::turnouts_meeting))]
pub fn turnouts_of_zone(st: Station, z: u8) -> u64
    ensures { result ≡ zone_turnouts st z }
{
    observe::turnouts_where(st.turnouts, st.turnout, &IsOfZone { zone: z })
}

// A route; one not below R has every number 0 and names nothing (VALUE-3).
#[tactic(auto, unfolding(crate::specs::Station::the_route))]
pub fn route_of(st: Station, n: usize) -> Route
    ensures { result ≡ the_route st n }
{
    if n < route_count(st) {
        return st.route[n];
    }
    Route::NONE
}

// The index of a route's record in a station; 0 for a number from 64 on, so that `route_by` is lent a record in any
// case (VALUE-3).
pub fn route_index(n: u8) -> usize
    ensures value { result ≡ route_index n }
    ensures upper_bound { result < 64 }
{
    let n = usize::from(n);
    if n < ROUTES {
        return n;
    }
    0
}

// Route n by its record, of so many routes; one not below the count has every number 0.
pub fn route_by(count: u8, n: u8, r: Route) -> Route
    ensures { result ≡ route_by count n r }
{
    if usize::from(n) < usize::from(count).min(ROUTES) {
        return r;
    }
    Route::NONE
}

// The turnouts that a route names: those that it runs over, of its flank and of its exit zone (SHEET-5).
pub fn names(r: Route) -> u64
    ensures { result ≡ named_by r }
{
    sets::join(sets::join(r.over, r.flank), r.exits)
}
