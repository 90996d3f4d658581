// Whether a clearance fits its turnout, FIT-1 to FIT-5, and its medium the recorder, KIND-6.5 (docs/RULES.md). What a
// message says of it is bytes and no enums: they may hold any value, and FIT-1 to FIT-5 answer each.
ghost use Rattle.std.specs.Prelude.{◌≡◌};
ghost use Rattle.rules.specs.Clearance.{
  is_efficient,
  position_fits,
  drive_fits,
  clamp_fits,
  group_fits,
  clearance_fits,
  medium_fits,
};

use message::Message;
use station::{Route, Station};

// Whether a declaration means all efficient (FIT-5).
pub fn is_efficient(declaration: u8) -> bool
    ensures { result ≡ is_efficient declaration }
{
    (declaration == 1) | (declaration == 2)
}

// Whether a position is that of turnout n in the route (FIT-1).
fn position_fits(r: Route, n: u8, position: u8) -> bool
    ensures { result ≡ position_fits r n position }
{
    if sets::contains(r.reverse, n as usize) {
        return position == 1;
    }
    position == 0
}

// Whether a declaration fits a drive (FIT-2).
fn drive_fits(declaration: u8, drive: u8) -> bool
    ensures { result ≡ drive_fits declaration drive }
{
    if declaration <= 2 {
        return true;
    }
    if declaration <= 6 {
        return drive == 0;
    }
    drive == 1
}

// Whether a clamp is as the declaration wants it on a turnout that is run over, or is not (FIT-3).
fn clamp_fits(declaration: u8, over: bool, clamp: u8) -> bool
    ensures { result ≡ clamp_fits declaration over clamp }
{
    if (declaration == 4) | (declaration == 6) | (declaration == 9) {
        if over {
            return clamp == 1;
        }
        return clamp == 0;
    }
    if declaration == 8 {
        if over {
            return (clamp == 1) | (clamp == 2);
        }
        return clamp == 0;
    }
    clamp == 0
}

// Whether a declaration covers the whole group where it must, and nowhere else: where all is efficient on a turnout of
// a group (FIT-4).
fn group_fits(declaration: u8, grouped: bool, covers: u8) -> bool
    ensures { result ≡ group_fits declaration grouped covers }
{
    if is_efficient(declaration) & grouped {
        return covers == 1;
    }
    covers == 0
}

// Whether a clearance fits its turnout in a route (KIND-6.4).
#[tactic(auto, unfolding(crate::specs::Clearance::clearance_fits))]
pub fn clearance_fits(st: Station, r: Route, m: Message) -> bool
    ensures { result ≡ clearance_fits st r m }
{
    let over = sets::contains(r.over, m.d0 as usize);
    let drive = station::drive_of(st, m.d0 as usize);
    let grouped = groups::is_grouped(st, m.d0 as usize);
    position_fits(r, m.d0, m.d2)
        & drive_fits(m.d1, drive)
        & clamp_fits(m.d1, over, m.d3)
        & group_fits(m.d1, grouped, m.d5)
}

// Whether the medium of a clearance, 1 voice or 2 written, is the one that the recorder asks for (KIND-6.5).
pub fn medium_fits(working: bool, medium: u8) -> bool
    ensures { result ≡ medium_fits working medium }
{
    if medium == 1 {
        return working;
    }
    !working
}
