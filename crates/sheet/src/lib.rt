// The reader of station sheets of both versions (SHEET-1 to SHEET-14 of docs/RULES.md). The rules of routes and of
// reading are in specs/Sheet.antt, those of turnout records in the crates `group_records` and `partner_records`, those
// of the bytes in `layout`. specs/Accepted.antt has what an accepted sheet guarantees of its station.
#![tactic(auto)]

ghost use Rattle.std.specs.Prelude.{◌≡◌};
ghost use Rattle.sheet.specs.Sheet.{sheet_of, read_sheet};

use refusals::Refusal;
use station::Station;

pub mod judge;

// Reads a sheet of either version.
pub fn read_sheet(s: &[u8]) -> Result<Station, Refusal>
    ensures { sheet_of result ≡ read_sheet s.now }
{
    layout::check_header(s)?;
    let version = layout::version_of(s);
    let mut station = layout::station_in(s);
    judge::judge_turnouts(version, station.turnouts, station.zones, station.turnout)?;
    station.turnout = judge::grouped_turnouts(version, station.turnouts, station.turnout);
    judge::judge_routes(station)?;
    Ok(station)
}
