// What the rows are tried on: the sheets, the journal and the desk. Rows that store the fresh desk, that write its
// bytes and that hear a record; questions.rt has those that ask.
use super::asked::Station;
use case_rows::{Row, byte_at};
use std::io;

// The length of a desk, and of the buffer that holds it.
const DESK: usize = 520;

pub const ROOM: usize = 521;

// The length of station K's sheet.
pub const SHEET: usize = 50;

// The first n bytes; all of them if there are fewer.
pub fn first<'a>(s: &'a [u8], n: u16) -> &'a [u8] {
    s.get(..usize::from(n)).unwrap_or(s)
}

// A sheet: the first of these bytes, as many as its length says; a case may read more of the bytes or less.
#[derive(Clone, Copy)]
pub struct Sheet<'a> {
    pub bytes: &'a [u8],
    pub length: usize,
}

// A sheet that is all of the bytes.
impl<'a> From<&'a [u8]> for Sheet<'a> {
    fn from(bytes: &'a [u8]) -> Sheet<'a> {
        let length = bytes.len();
        Sheet { bytes, length }
    }
}

impl<'a> Sheet<'a> {
    fn whole(self) -> &'a [u8] {
        self.bytes.get(..self.length).unwrap_or(self.bytes)
    }
}

// The sheets and the journal, and the desk that is kept from row to row.
#[derive(Drop)]
pub struct Bench<'a> {
    pub first: Sheet<'a>,
    pub second: Sheet<'a>,
    pub third: Sheet<'a>,
    pub journal: &'a [u8],
    pub desk: [u8; ROOM],
}

// Writes whether two desks are the same.
fn write_same(rt: &impl Print, desk: &[u8; ROOM], other: &[u8; ROOM]) -> io::Result<()> {
    if desk == other {
        return rt.write_all(b" same");
    }
    rt.write_all(b" changed")
}

// Hears a record by the first n bytes of a desk, if it has as many; writes the code, which is byte 0 of the answer,
// and the minutes above it.
fn heard(
    rt: &impl Print,
    sheet: &[u8],
    desk: &mut [u8],
    n: usize,
    record: &[u8],
) -> io::Result<()> {
    let Some(desk) = desk.get_mut(..n) else {
        return Ok(());
    };
    let answer = works_desk_unit::unit_apply(sheet, desk, record);
    print!(rt; " {} {}", answer % 256, answer / 256)
}

impl<'a> Bench<'a> {
    pub fn sheet(&self, station: Station) -> Sheet<'a> {
        match station {
            Station::First => self.first,
            Station::Second => self.second,
            Station::Third => self.third,
        }
    }

    // The copy of the desk with the row's damage.
    pub fn damaged(&self, row: &mut Row<'_>) -> [u8; ROOM] {
        let mut own = self.desk;
        row.put_pairs(&mut own);
        own
    }

    // Record k of the journal, k from 1, in a buffer of N bytes, with 0s after its end; 0s alone if there is none.
    fn record<const N: usize>(&self, k: u16) -> [u8; N] {
        let mut record = [0u8; N];
        if k == 0 {
            return record;
        }
        let part = journal::part_at(self.journal, u32::from(k - 1));
        for (to, from) in record.iter_mut().zip(part) {
            *to = *from;
        }
        record
    }

    // Stores the fresh desk: the length, then the damage that the desk gets after it.
    pub fn fresh_tried(&mut self, rt: &impl Print, row: &mut Row<'_>) -> io::Result<()> {
        let n = row.number();
        let before = self.desk;
        if let Some(desk) = self.desk.get_mut(..usize::from(n)) {
            print!(rt; " {}", works_desk_unit::unit_fresh(desk))?;
        }
        write_same(rt, &self.desk, &before)?;
        row.put_pairs(&mut self.desk);
        Ok(())
    }

    // Hears a record: its number, then its damage.
    pub fn record_tried(
        &mut self,
        rt: &impl Print,
        station: Station,
        row: &mut Row<'_>,
    ) -> io::Result<()> {
        let sheet = self.sheet(station).whole();
        let k = row.number();
        let mut record = self.record::<32>(k);
        row.put_pairs(&mut record);
        print!(rt; " {k}")?;
        heard(rt, sheet, &mut self.desk, DESK, &record)
    }

    // Writes bytes of the desk: the place and how many.
    pub fn bytes_written(&self, rt: &impl Print, row: &mut Row<'_>) -> io::Result<()> {
        let place = usize::from(row.number());
        let n = usize::from(row.number());
        for i in place..place + n {
            print!(rt; " {}", byte_at(&self.desk, i))?;
        }
        Ok(())
    }

    // Hears by a copy: the lengths of sheet and desk, the record's number, its length, then the desk's damage.
    // Written last is whether the copy is changed.
    pub fn copy_tried(&self, rt: &impl Print, row: &mut Row<'_>) -> io::Result<()> {
        let sheet = first(self.first.bytes, row.number());
        let length = usize::from(row.number());
        let record = self.record::<33>(row.number());
        let n = row.number();
        let before = self.damaged(row);
        let mut own = before;
        heard(rt, sheet, &mut own, length, first(&record, n))?;
        write_same(rt, &own, &before)
    }
}
