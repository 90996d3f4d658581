// The movements of a zone, by train: what they say, and what messages do to them. A zone has one place for a movement
// (ZONE-1 of docs/RULES.md).
ghost use Rattle.std.specs.Prelude.{◌≡◌};
ghost use Rattle.zone.specs.Trains.{
  movement_under,
  no_place,
  named_standing,
  cleared_standing,
  with_movement,
  changed_under,
};

use super::movements::{cleared_set, is_standing, named_turnouts, under_train};
use super::{Passage, Zone};
use station::Station;

// The movement under this train, or none.
#[tactic(auto, unfolding(crate::specs::Trains::movement_under))]
pub fn movement_under(z: Zone, train: u32) -> Option<Passage>
    ensures { result ≡ movement_under z train }
{
    z.movement.filter(|p| p.train == train)
}

// Whether there is no place for one more movement (KIND-5.1).
#[tactic(auto, unfolding(crate::specs::Trains::no_place))]
pub fn no_place(z: Zone) -> bool
    ensures { result ≡ no_place z }
{
    is_standing(z.movement)
}

// The turnouts that standing movements name.
#[tactic(auto, unfolding(crate::specs::Trains::named_standing))]
pub fn named_standing(st: Station, z: Zone) -> u64
    ensures { result ≡ named_standing st z }
{
    named_turnouts(st, z.movement)
}

// The turnouts cleared for standing movements.
#[tactic(auto, unfolding(crate::specs::Trains::cleared_standing))]
pub fn cleared_standing(z: Zone) -> u64
    ensures { result ≡ cleared_standing z }
{
    cleared_set(z.movement)
}

// The zone with one more movement, where there is a place for it (KIND-5.3).
#[tactic(auto, unfolding(crate::specs::Trains::placed))]
pub fn with_movement(z: Zone, v: Option<Passage>) -> Zone
    ensures { result ≡ with_movement z v }
{
    Zone {
        movement: z.movement.or(v),
        ..z
    }
}

// The zone with another movement, or none, in the place of the one under this train.
#[tactic(auto, unfolding(crate::specs::Trains::changed))]
pub fn changed_under(z: Zone, train: u32, v: Option<Passage>) -> Zone
    ensures { result ≡ changed_under z train v }
{
    if under_train(z.movement, train) {
        return Zone { movement: v, ..z };
    }
    z
}
