// The movement of a zone: what it says, and what messages do to it (the effects of KIND-5 to KIND-7 and KIND-13,
// docs/RULES.md).
ghost use Rattle.std.specs.Prelude.{◌≡◌};
ghost use Rattle.zone.specs.Movement.{
  is_standing,
  under_train,
  order_of,
  is_ordered,
  cleared_set,
  efficient_set,
  key_set,
  lack_nothing,
  allow_clear,
  route_for,
  route_number,
  named_turnouts,
  movement_for,
  cleared_at,
  keyed_at,
  ordered_as,
};

use super::Passage;
use station::{Route, Station};

pub fn is_standing(v: Option<Passage>) -> bool
    ensures { result ≡ is_standing v }
{
    v.is_some()
}

// Whether a movement of this train stands.
pub fn under_train(v: Option<Passage>, id: u32) -> bool
    ensures { result ≡ under_train v id }
{
    v.is_some_and(|p| p.train == id)
}

// The order given: 0 none, 1 clear, 2 danger.
pub fn order_of(v: Option<Passage>) -> u8
    ensures { result ≡ order_of v }
{
    v.map_or(0, |p| p.order)
}

pub fn is_ordered(v: Option<Passage>) -> bool
    ensures { result ≡ is_ordered v }
{
    order_of(v) != 0
}

// The turnouts cleared for the movement.
pub fn cleared_set(v: Option<Passage>) -> u64
    ensures { result ≡ cleared_set v }
{
    v.map_or(0, |p| p.cleared)
}

// The cleared turnouts whose declaration means all efficient.
pub fn efficient_set(v: Option<Passage>) -> u64
    ensures { result ≡ efficient_set v }
{
    v.map_or(0, |p| p.efficient)
}

// The turnouts on which a release key was used for the movement.
pub fn key_set(v: Option<Passage>) -> u64
    ensures { result ≡ key_set v }
{
    v.map_or(0, |p| p.keys)
}

// The turnouts that lack nothing: cleared, or with a key (KIND-13.5).
pub fn lack_nothing(v: Option<Passage>) -> u64
    ensures { result ≡ lack_nothing v }
{
    sets::join(cleared_set(v), key_set(v))
}

// The turnouts that let the signals be clear: efficient, or with a key (REGIME-2).
pub fn allow_clear(v: Option<Passage>) -> u64
    ensures { result ≡ allow_clear v }
{
    sets::join(efficient_set(v), key_set(v))
}

// The route of the movement; where none stands, one that names nothing.
pub fn route_for(st: Station, v: Option<Passage>) -> Route
    ensures { result ≡ route_for st v }
{
    match v {
        None => Route::NONE,
        Some(p) => station::route_of(st, p.route as usize),
    }
}

// The turnouts that a standing movement names.
pub fn named_turnouts(st: Station, v: Option<Passage>) -> u64
    ensures { result ≡ named_turnouts st v }
{
    station::names(route_for(st, v))
}

// The number of the movement's route; 255, which no route has, where none stands, as the law `concerned-by-records` has
// it.
pub fn route_number(v: Option<Passage>) -> u8
    ensures { result ≡ route_number v }
{
    v.map_or(255, |p| p.route)
}

// A movement asked for (KIND-5.3).
pub fn movement_for(train: u32, route: u8) -> Option<Passage>
    ensures { result ≡ movement_for train route }
{
    Some(Passage {
        train,
        route,
        order: 0,
        cleared: 0,
        efficient: 0,
        keys: 0,
    })
}

// The movement with a clearance for turnout n (KIND-6.6).
pub fn cleared_at(v: Option<Passage>, n: u8, efficient: bool) -> Option<Passage>
    ensures { result ≡ cleared_at v n efficient }
{
    v.map(|p| Passage {
        cleared: sets::join(p.cleared, sets::only(n as usize)),
        efficient: sets::add_if(p.efficient, n as usize, efficient),
        ..p
    })
}

// The movement with a key used on turnout n (KIND-13.5).
pub fn keyed_at(v: Option<Passage>, n: u8) -> Option<Passage>
    ensures { result ≡ keyed_at v n }
{
    v.map(|p| Passage {
        keys: sets::join(p.keys, sets::only(n as usize)),
        ..p
    })
}

// The movement with an order (KIND-7.4).
pub fn ordered_as(v: Option<Passage>, order: u8) -> Option<Passage>
    ensures { result ≡ ordered_as v order }
{
    v.map(|p| Passage { order, ..p })
}
