// The writer of sheets and the test for splitting for every station value, from numbers in bytes: what `./compare`
// tries them by, from C, so that it answers numbers. It is not shipped: a station that no sheet gave does not come from
// a unit.
#![tactic(auto)]

ghost use Rattle.std.specs.Prelude.{◌≡◌};
ghost use Rattle.station.specs.Station.{number_if};
ghost use Rattle.groups.specs.Groups.{splits};
ghost use Rattle.sheet_writer.specs.Writer.{written_sheet};
ghost use Rattle.station_trial.specs.Values.{station_of};

use station::Station;

// The length of a sheet of 64 turnouts and 64 routes; the counts stand after it.
const RECORDS: usize = 2312;

// The station with these numbers.
#[tactic(auto, unfolding(crate::specs::Values::station_of))]
fn station_of(values: &[u8]) -> Station
    ensures { result ≡ station_of values.now }
{
    let mut st = layout::station_in(values);
    st.turnouts = bigendian::get(values, RECORDS);
    st.routes = bigendian::get(values, RECORDS + 1);
    st.zones = bigendian::get(values, RECORDS + 2);
    st
}

// Writes the sheet of the station with these numbers into the buffer.
#[unsafe(no_mangle)]
pub extern "C" fn trial_write_sheet(values: &[u8], buffer: &mut [u8]) -> u8
    ensures { record { code = result; bytes = buffer.new }
        ≡ written_sheet (station_of values.now) buffer.old }
{
    refusals::code(sheet_writer::write_sheet(station_of(values), buffer))
}

// Whether a set splits a group of the station with these numbers: 1 for yes.
#[unsafe(no_mangle)]
pub extern "C" fn trial_splits(values: &[u8], set: u64) -> u8
    ensures { result ≡ number_if (splits (station_of values.now) set) 1 0 }
{
    u8::from(groups::splits_group(station_of(values), set))
}
