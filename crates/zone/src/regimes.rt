// The regime of a movement, REGIME-1 to REGIME-3 (docs/RULES.md): which turnouts of its route are under agreed work,
// which of them lack something, and which order that allows. Route, work and movement stay three arguments: the rules
// speak of them so, and of a route alone.
ghost use Rattle.std.specs.Prelude.{◌≡◌};
ghost use Rattle.zone.specs.Movement.{worked_turnouts, lacking_on, regime_on, order_refused};

use super::movements::{allow_clear, lack_nothing};
use super::works::agreed_set;
use super::{Passage, Regime, Work};
use station::Route;

// The route's turnouts under agreed work.
pub fn worked_turnouts(r: Route, w: Work) -> u64
    ensures { result ≡ worked_turnouts r w }
{
    station::names(r) & agreed_set(w)
}

// Those of them that have neither a clearance for the movement nor a key (REGIME-1).
pub fn lacking_clearance(r: Route, w: Work, v: Option<Passage>) -> u64
    ensures { result ≡ lacking_on r w v }
{
    sets::minus(worked_turnouts(r, w), lack_nothing(v))
}

// The regime of the movement on the route (REGIME-1 to REGIME-3).
#[tactic(auto, unfolding(crate::specs::Movement::regime_on))]
pub fn regime(r: Route, w: Work, v: Option<Passage>) -> Regime
    ensures { result ≡ regime_on r w v }
{
    let worked = worked_turnouts(r, w);
    if !sets::is_empty(sets::minus(worked, lack_nothing(v))) {
        return Regime::Held;
    }
    if sets::is_within(worked, allow_clear(v)) {
        return Regime::Clear;
    }
    Regime::Danger
}

// Whether the regime forbids an order, 1 clear or 2 danger (KIND-7.3).
pub fn order_refused(order: u8, r: Regime) -> bool
    ensures { result ≡ order_refused order r }
{
    if order == 1 {
        return r != Regime::Clear;
    }
    r == Regime::Held
}
