// What stands in a station past its counts, with all 64 records: SHEET-12 and WRITE-3 (docs/RULES.md).
ghost use Rattle.std.specs.Prelude.{◌≡◌};
ghost use Rattle.std.specs.List.{list_all};
ghost use Rattle.sheet_writer.specs.Past.{turnouts_end, routes_end};

use station::{ROUTES, Route, TURNOUTS, Turnout};

// Whether every record is the same as `zero`.
fn all_are<T: Copy + PartialEq>(records: &[T], zero: T) -> bool
    ensures { result ≡ list_all (λ r. T.eq r zero) records.now }
{
    records.iter().all(|r| *r == zero)
}

// Whether every turnout record from p on is 0.
pub fn turnouts_end(p: u8, ts: [Turnout; 64]) -> bool
    ensures { result ≡ turnouts_end p ts }
{
    all_are(&ts[usize::from(p).min(TURNOUTS)..], Turnout::NONE)
}

// Whether every route from r on is 0.
pub fn routes_end(r: u8, rs: [Route; 64]) -> bool
    ensures { result ≡ routes_end r rs }
{
    all_are(&rs[usize::from(r).min(ROUTES)..], Route::NONE)
}
