// What stations say: that of station K, and stations that no sheet gave. And all numbers of a station, in a row.
use super::bases::{Base, Shape};
use station::{Route, Station, Turnout};

// The numbers of a station, 515, in the order of their places (main.rt): the counts, then those of each turnout, then
// those of each route.
fn counts(st: &Station) -> [u64; 3] {
    [
        u64::from(st.turnouts),
        u64::from(st.routes),
        u64::from(st.zones),
    ]
}

fn turnout_numbers(t: &Turnout) -> [u64; 3] {
    [u64::from(t.zone), u64::from(t.group), u64::from(t.drive)]
}

fn route_numbers(r: &Route) -> [u64; 5] {
    [u64::from(r.zone), r.over, r.flank, r.exits, r.reverse]
}

// A sum with more numbers.
fn added(sum: u64, numbers: &[u64]) -> u64 {
    numbers.iter().fold(sum, |sum, n| sum.wrapping_add(*n))
}

// All numbers of a station, added up.
pub fn sum(st: &Station) -> u64 {
    let mut sum = added(0, &counts(st));
    for t in &st.turnout {
        sum = added(sum, &turnout_numbers(t));
    }
    for r in &st.route {
        sum = added(sum, &route_numbers(r));
    }
    sum
}

// How many of the numbers differ.
fn unlike(a: &[u64], b: &[u64]) -> usize {
    a.iter().zip(b).filter(|(n, m)| **n != **m).count()
}

// How many of the numbers of two stations differ.
pub fn differing(a: &Station, b: &Station) -> usize {
    let mut n = unlike(&counts(a), &counts(b));
    for (t, u) in a.turnout.iter().zip(&b.turnout) {
        n = n.wrapping_add(unlike(&turnout_numbers(t), &turnout_numbers(u)));
    }
    for (r, q) in a.route.iter().zip(&b.route) {
        n = n.wrapping_add(unlike(&route_numbers(r), &route_numbers(q)));
    }
    n
}

// A station that no sheet gave: all counts are the same, and so are all turnouts and all routes.
fn made(count: u8, number: u8) -> Station {
    let turnout = Turnout {
        zone: 9,
        group: number,
        drive: 7,
    };
    let route = Route {
        zone: 9,
        over: 1,
        flank: 2,
        exits: 4,
        reverse: 0,
    };
    Station {
        turnouts: count,
        routes: count,
        zones: count,
        turnout: [turnout; 64],
        route: [route; 64],
    }
}

// The station that a question is about: station K for count 0, else one that no sheet gave.
pub fn asked(count: u16, number: u16) -> Station {
    if count == 0 {
        let sheet = Base::Version1(Shape::StationK).sheet();
        return sheet::read_sheet(sheet.bytes()).unwrap_or(Station::empty());
    }
    made((count % 256) as u8, (number % 256) as u8)
}

// The answer to a question about a turnout, a zone, a route or a set n. The numbers of the rows (main.rt) are looked at
// here alone: an enum would be a second table of them.
pub fn answer(st: Station, question: u16, n: u16) -> u64 {
    let i = usize::from(n);
    match question {
        10 => station::turnout_count(st) as u64,
        11 => station::route_count(st) as u64,
        12 => station::zone_count(st) as u64,
        13 => u64::from(station::zone_of(st, i)),
        14 => u64::from(station::drive_of(st, i)),
        15 => groups::tied_to(st, i),
        16 => station::turnouts_of_zone(st, (n % 256) as u8),
        17 => station::names(station::route_of(st, i)),
        18 => u64::from(groups::splits_group(st, u64::from(n))),
        _ => u64::from(groups::is_grouped(st, i)),
    }
}
