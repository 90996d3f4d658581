// The writer of station sheets (WRITE-1 to WRITE-5 of docs/RULES.md). The rules are in specs/Writer.antt, the bytes of
// a station in the crate `sheet_bytes`. specs/Laws.antt says what follows: what is written reads as the station, and a
// sheet that is read and written is the same bytes.
#![tactic(auto)]

ghost use Rattle.std.specs.Prelude.{◌≡◌};
ghost use Rattle.refusals.specs.Numbers.{code_of};
ghost use Rattle.sheet.specs.Sheet.{found_of};
ghost use Rattle.sheet_writer.specs.Writer.{described, written_sheet, copied_sheet};

use refusals::{Refusal, refuse_if};
use station::Station;

mod past;

// Whether some sheet describes the station, as it stands (WRITE-3).
#[tactic(auto, unfolding(crate::specs::Writer::described))]
fn is_described(st: Station) -> bool
    ensures { result ≡ described st }
{
    layout::counts_kept(st.turnouts, st.routes, st.zones)
        & sheet::judge::judge(st).is_ok()
        & past::turnouts_end(st.turnouts, st.turnout)
        & past::routes_end(st.routes, st.route)
}

// Writes the sheet of a station at the start of a buffer (WRITE-1 to WRITE-4).
#[tactic(auto, unfolding(crate::specs::Writer::written_sheet))]
pub fn write_sheet(st: Station, s: &mut [u8]) -> Result<(), Refusal>
    ensures { record { code = code_of result; bytes = s.new } ≡ written_sheet st s.old }
{
    let length = layout::sheet_length(st.turnouts, st.routes);
    refuse_if(!is_described(st), Refusal::NoSheet)?;
    refuse_if(s.len() < length, Refusal::ShortBuffer)?;
    sheet_bytes::put_sheet(st, s);
    Ok(())
}

// Reads a sheet and writes it into a buffer (WRITE-5). It never gives 7.
#[tactic(auto, unfolding(crate::specs::Writer::copied_sheet, crate::specs::Writer::written_sheet))]
pub fn copy_sheet(sheet: &[u8], s: &mut [u8]) -> Result<(), Refusal>
    ensures { record { found = found_of result; bytes = s.new } ≡ copied_sheet sheet.now s.old }
{
    let station = sheet::read_sheet(sheet)?;
    write_sheet(station, s)
}
