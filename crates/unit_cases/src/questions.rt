// Rows that ask the two questions, of a copy of the desk with damage.
use super::asked::Station;
use super::bench::{Bench, first};
use case_rows::Row;
use std::io;

impl Bench<'_> {
    // The lengths of the sheet and of the desk, the zone, the train, then the desk's damage. Written are the four
    // values of the packed answer.
    pub fn movement_tried(
        &self,
        rt: &impl Print,
        station: Station,
        row: &mut Row<'_>,
    ) -> io::Result<()> {
        let sheet = first(self.sheet(station).bytes, row.number());
        let length = row.number();
        let zone = (row.number() % 256) as u8;
        let train = u32::from(row.number());
        let own = self.damaged(row);
        let answer = works_desk_unit::unit_movement(sheet, first(&own, length), zone, train);
        let (code, regime, lowest) = (answer % 256, answer / 256 % 256, answer / 65536 % 256);
        print!(rt; " {code} {regime} {lowest} {}", answer / 16777216)
    }

    // The lengths of the sheet and of the desk, the turnout, then the desk's damage. Written are the two values of the
    // packed answer.
    pub fn work_tried(
        &self,
        rt: &impl Print,
        station: Station,
        row: &mut Row<'_>,
    ) -> io::Result<()> {
        let sheet = first(self.sheet(station).bytes, row.number());
        let length = row.number();
        let turnout = (row.number() % 256) as u8;
        let own = self.damaged(row);
        let answer = works_desk_unit::unit_work(sheet, first(&own, length), turnout);
        print!(rt; " {} {}", answer % 256, answer / 256)
    }
}
