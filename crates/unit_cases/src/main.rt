// Tries the unit (UNIT-1 to UNIT-6 of docs/RULES.md) on station K, on a second station, and on a third one, whose
// sheet is of version 2 and has groups (M-107). The unit is proved to follow the rules in its crate's specs/; what
// this program writes shows that these rules give the answers that docs/RULES.md does, and that a desk's bytes stand
// where the layout says.
// The stations' sheets are in data/, the cases are in stdin and the expected lines in stdout, written from the rules
// and the layout by hand; no expected number stands here.
//
// One desk is kept from row to row, in a buffer of 521 bytes that are 7 at first. A row of the input that starts with
// # is a remark; an empty row ends the input. Any other row starts with a name, which is written, and a number;
// damage may end it, pairs of a place and the byte that is put there:
// 1: stores the fresh desk in the first n bytes. Written: the code, and whether the buffer is changed. Then the desk
// gets the damage. 2: hears record k of the journal, k from 1, with the damage. Written: k, the code, the minutes.
// 3: writes n bytes of the desk from a place on.
// The others take a copy of the desk with the damage. They have the lengths of the sheet and of the desk, and then 4:
// k and the length of a record, which is heard. Written: the code, the minutes, and whether the copy is changed.
// 5: zone and train of the movement question. Written: the code, the regime, the lowest turnout, the count.
// 6: the turnout of the work question. Written: the code, and 1 for yes.
// 7, 8 and 9 are 2, 5 and 6 on the second station, 10, 11 and 12 on the third.
#![tactic(auto)]

mod asked;
mod bench;
mod questions;

use asked::Kind;
use bench::{Bench, ROOM, SHEET, Sheet};
use case_rows::Row;
use std::io;
use std::io::Read;

// Tries the row, after its name. A kind that is none writes nothing.
fn kind_tried(rt: &impl Print, bench: &mut Bench<'_>, row: &mut Row<'_>) -> io::Result<()> {
    let Ok(kind) = Kind::try_from(row.number()) else {
        return Ok(());
    };
    match kind {
        Kind::Fresh => bench.fresh_tried(rt, row),
        Kind::Bytes => bench.bytes_written(rt, row),
        Kind::Copy => bench.copy_tried(rt, row),
        Kind::Record(station) => bench.record_tried(rt, station, row),
        Kind::Movement(station) => bench.movement_tried(rt, station, row),
        Kind::Work(station) => bench.work_tried(rt, station, row),
    }
}

// Writes the name of the row, and tries what stands after it.
fn row_tried(rt: &impl Print, bench: &mut Bench<'_>, row: &mut Row<'_>) -> io::Result<()> {
    rt.write_all(row.name())?;
    kind_tried(rt, bench, row)?;
    row.skip();
    rt.write_all(b"\n")
}

// Tries every row that is no remark; remarks and rows are at most 1,600. Each program of rows has this loop, since a
// library's call would owe a clause on what is printed.
fn all_tried(rt: &impl Print, bench: &mut Bench<'_>, row: &mut Row<'_>) -> io::Result<()> {
    for _ in 0..1600u16 {
        match row.byte() {
            b'\n' => return Ok(()),
            b'#' => row.skip_line(),
            _ => row_tried(rt, bench, row)?,
        }
    }
    Ok(())
}

// Reads the input until it ends, a read fails or the buffer is full: the part of the buffer that is read. A `while`: a
// read takes as many bytes as it likes. Each program of rows reads so itself: of a library's call no clause could say
// what it reads.
fn read_input<'a, R: Read>(reader: &mut R, buf: &'a mut [u8]) -> &'a [u8] {
    let mut done: usize = 0;
    while done < buf.len() {
        let Ok(n) = reader.read(&mut buf[done..]) else {
            break;
        };
        if n == 0 {
            break;
        }
        done += n;
    }
    &buf[..done]
}

fn main(rt: HostRuntime) -> io::Result<()> {
    // A byte more than the sheet of station K.
    let mut first = [0u8; SHEET + 1];
    let mut second = [0u8; 128];
    let mut third = [0u8; 256];
    let mut journal = [0u8; 1024];
    let mut input = [0u8; 65536];
    files::read_file(&rt, b"sheet", &mut first);
    let first = Sheet {
        bytes: &first,
        length: SHEET,
    };
    let n = files::read_file(&rt, b"second", &mut second);
    let second = Sheet::from(&second[..n]);
    let n = files::read_file(&rt, b"third", &mut third);
    let third = Sheet::from(&third[..n]);
    let n = files::read_file(&rt, b"journal", &mut journal);
    let input = read_input(&mut rt.reader(), &mut input);
    let mut bench = Bench {
        first,
        second,
        third,
        journal: &journal[..n],
        desk: [7; ROOM],
    };
    let mut row = Row { text: input, at: 0 };
    all_tried(&rt, &mut bench, &mut row)
}
