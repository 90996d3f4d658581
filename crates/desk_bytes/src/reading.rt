// The desk that stands in bytes, UNIT-1 (docs/RULES.md): each zone from its place on. A stage, and whether a movement
// stands, are bytes there beside the fields.
ghost use Rattle.std.specs.Prelude.{◌≡◌, ◌+◌, ◌*◌};
ghost use Rattle.desk_bytes.specs.Encoding.{work_in, movement_in, zone_in, desk_in};

use crate::place;
use desk::Desk;
use zone::{Agreement, Passage, Request, Work, Zone};

#[tactic(auto, unfolding(crate::specs::Encoding::work_in))]
fn work_in(s: &[u8], at: u16) -> Work
    ensures { result ≡ work_in s.now at }
{
    let at = at as usize;
    let stage: u8 = bigendian::get(s, at);
    if stage == 1 {
        return Work::Asked(Request {
            form: bigendian::get(s, at + 2),
            manner: bigendian::get(s, at + 1),
            set: bigendian::get(s, at + 6),
        });
    }
    if stage == 2 {
        return Work::Agreed(Agreement {
            form: bigendian::get(s, at + 2),
            manner: bigendian::get(s, at + 1),
            set: bigendian::get(s, at + 6),
            since: bigendian::get(s, at + 14),
            opened: bigendian::get(s, at + 18),
        });
    }
    Work::NoWork
}

#[tactic(auto, unfolding(crate::specs::Encoding::movement_in))]
fn movement_in(s: &[u8], at: u16) -> Option<Passage>
    ensures { result ≡ movement_in s.now at }
{
    let at = at as usize;
    let standing: u8 = bigendian::get(s, at);
    if standing == 1 {
        return Some(Passage {
            train: bigendian::get(s, at + 3),
            route: bigendian::get(s, at + 1),
            order: bigendian::get(s, at + 2),
            cleared: bigendian::get(s, at + 7),
            efficient: bigendian::get(s, at + 15),
            keys: bigendian::get(s, at + 28),
        });
    }
    None
}

// Zone k, in its place.
#[tactic(auto, unfolding(crate::specs::Encoding::zone_in))]
pub fn zone_in(s: &[u8], k: u8) -> Zone
    ensures { result ≡ zone_in s.now (8 + 64 * k) }
{
    let at = place(k);
    let recorder: u8 = bigendian::get(s, at as usize + 49);
    Zone {
        work: work_in(s, at),
        movement: movement_in(s, at + 26),
        recorder: recorder == 1,
        time: bigendian::get(s, at as usize + 50),
    }
}

// Zone by zone: std's arrays have no `from_fn`, and their `map` copies the zones through an iterator.
#[tactic(auto, unfolding(crate::specs::Encoding::desk_in))]
pub fn desk_in(s: &[u8]) -> Desk
    ensures { result ≡ desk_in s.now }
{
    Desk {
        zones: [
            zone_in(s, 0),
            zone_in(s, 1),
            zone_in(s, 2),
            zone_in(s, 3),
            zone_in(s, 4),
            zone_in(s, 5),
            zone_in(s, 6),
            zone_in(s, 7),
        ],
    }
}
