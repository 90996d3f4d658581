// Which release key may be used on which turnout of a route (KIND-13.4 of docs/RULES.md).
ghost use Rattle.std.specs.Prelude.{◌≡◌};
ghost use Rattle.rules.specs.Keys.{key_fits};

use station::Route;

// The key Es; Tcl is 1. A key is a byte of a message, which may hold any value (KIND-13.4).
pub const ES: u8 = 2;

// Whether a key may be used on turnout n of the route: on flank either, in the exit zone Es.
pub fn key_fits(r: Route, n: u8, key: u8) -> bool
    ensures { result ≡ key_fits r n key }
{
    let at = n as usize;
    sets::contains(r.flank, at) | (sets::contains(r.exits, at) & (key == ES))
}
