// Tries the reader of station sheets (SHEET-1 to SHEET-14 of docs/RULES.md) on worked sheets, their writer (WRITE-1 to
// WRITE-5) on worked stations, the cabin panel's reader (PANEL-1 to PANEL-3) beside the desk's, and what stations say
// (VALUE-1 to VALUE-3, FIT-4). They are proved to follow the rules in the specs/ of their crates, sheet, sheet_writer,
// panel and station; what this program writes shows that these rules accept, refuse and answer as docs/RULES.md does.
// The cases are in stdin and the expected lines in stdout, written from the rules by hand; no expected number stands
// here.
//
// A line of the input that starts with # is a remark; an empty line ends the input. Any other line starts with a name
// and a number, and its output starts with the name.
// 1 to 4 and 31 to 36 name a sheet (bases.rt). Of version 1: 1 station K, 2 a larger one, 3 and 4 the largest with 8
// zones and with 1. Of version 2: 31 to 34 the same four, 35 one with groups, 36 the largest with groups of eight.
// Then come how many bytes of it are read, and its damage, pairs of a place and the byte that is put there. Output:
// the code and the index. With 5 the sheet is station K's of version 1, and the output is the sum of all numbers of
// the station that reading gives.
// 6 is a plain sheet that both readers read (panels.rt). Then come its counts of turnouts and routes, modulo 256, how
// many bytes of it are read, and its damage. Output: of the panel's reading the code, the index and the sum of all
// numbers of its station; then the same three of the desk's.
// 7 asks whether a set splits a group (splitting.rt). Then come the station's count of turnouts, modulo 256, and
// pairs, at most 32: a turnout and the number of its group, or 100 more than a turnout of the set and a 1. Every
// other of the 64 turnouts has the number 255. Output: 1 for yes, 0 for no. 8 asks what is tied to a turnout, which
// comes after the count; there is no set. Output: the set of these turnouts; 1 if it is of a group, else 0.
// 10 to 19 is a question about a station: 10, 11, 12 the count of turnouts, routes, zones; 13 and 14 the zone and the
// drive of a turnout; 15 what is tied to it; 16 the turnouts of a zone; 17 what a route names; 18 whether a set splits
// a group; 19 whether a turnout is of a group (FIT-4), 1 for yes. Then come a count, a group's number and what is
// asked about. With count 0 the station is station K; else it is one that no sheet gave, with this count, modulo 256,
// of turnouts, routes and zones, and this group's number for each turnout. Output: the answer.
// 20 to 24 and 51 to 56 is a station that is written: 20 the empty one, every number 0; any other the one that the
// sheet of a number 20 lower gives. Then come the length of the buffer, at most 2,400, and changes to the station,
// pairs of a place and the number that is put there. Places 0, 1 and 2 are the counts of turnouts, routes and zones;
// 3 + 3n, 4 + 3n and 5 + 3n the zone, group's number and drive of turnout n (3 to 194); 195 + 5n to 199 + 5n the
// zone, run over, flank, exit zone and reverse of route n (195 to 514). Any other place changes nothing. Counts,
// zones, groups' numbers and drives take the number modulo 256; a number in the input has at most 4 digits. Before the
// call every byte of the buffer is 170. Output: the code; how many bytes at the start of the buffer are then those of
// the sheet that the station without the changes should be written as, up to the first that differs: since the writer
// writes version 2, that is sheet 31 to 34 for 21 to 24 and the sheet itself for 51 to 56 (for 20 it is no sheet, so
// 0); and how many bytes of the rest of the buffer are still 170.
// 40 compares the stations of two sheets (comparing.rt): their numbers, then damage to the first. Output: the codes,
// and how many of the 515 numbers of a station differ.
// 41 is a plain sheet, as in 6, with its counts, and 42 a sheet, with its number. Then come a turnout, how many
// turnouts from it on, and the damage; all bytes are read. Output: the code, the index, and the groups' numbers of
// these turnouts in the station (numbers.rt).
// 43 is a sheet that is copied (WRITE-5): its number, how many bytes of it are read, the length of the buffer, as in
// 21, and its damage. Output: the code and the index; how many bytes at the start of the buffer are then those of the
// sheet with its damage, up to the first that differs; how many of the rest are still 170; and, if it was copied,
// how many of the 515 numbers differ between the station of the sheet and that of the copy.
#![tactic(auto)]

mod bases;
mod comparing;
mod grouped;
mod numbers;
mod panels;
mod sheets;
mod splitting;
mod stations;
mod writing;

use bases::{Base, Shape, Sheet};
use case_rows::Row;
use refusals::Refusal;
use station::Station;
use std::io;
use std::io::Read;

// Writes the code of an answer, and the index that a refusal names.
fn write_finding<T: Copy>(rt: &impl Print, answer: Result<T, Refusal>) -> io::Result<()> {
    let index = answer.err().map_or(0, |refusal| refusal.index());
    print!(rt; " {} {index}", refusals::code(answer))
}

// What reading a sheet gives, in the length and with the damage of the row.
fn read(mut sheet: Sheet, row: &mut Row<'_>) -> Result<Station, Refusal> {
    let n = usize::from(row.number());
    row.put_pairs(&mut sheet.buffer);
    sheet::read_sheet(sheet.first(n))
}

// Tries the sheet of a base number.
fn sheet_tried(rt: &impl Print, number: u16, row: &mut Row<'_>) -> io::Result<()> {
    write_finding(rt, read(Sheet::of(Base::try_from(number)), row))
}

// Tries station K's sheet.
fn station_k_tried(rt: &impl Print, row: &mut Row<'_>) -> io::Result<()> {
    let answer = read(Base::Version1(Shape::StationK).sheet(), row);
    let st = answer.unwrap_or(Station::empty());
    print!(rt; " {}", stations::sum(&st))
}

// Tries the question of the row.
fn question_tried(rt: &impl Print, question: u16, row: &mut Row<'_>) -> io::Result<()> {
    let count = row.number();
    let number = row.number();
    let st = stations::asked(count, number);
    print!(rt; " {}", stations::answer(st, question, row.number()))
}

// Tries what stands after the name. The numbers are looked at here alone: an enum would be a second table of them.
fn rest_tried(rt: &impl Print, row: &mut Row<'_>) -> io::Result<()> {
    let number = row.number();
    match number {
        5 => station_k_tried(rt, row),
        6 => panels::tried(rt, row),
        7 => splitting::tried(rt, row),
        8 => splitting::tied_tried(rt, row),
        10..=19 => question_tried(rt, number, row),
        40 => comparing::stations_tried(rt, row),
        41 => numbers::tried(rt, panels::plain(row), row),
        42 => numbers::tried(rt, Sheet::of(Base::try_from(row.number())), row),
        43 => comparing::copy_tried(rt, row),
        20..=29 | 50.. => writing::tried(rt, number - 20, row),
        _ => sheet_tried(rt, number, row),
    }
}

// Writes the name of the row, and tries what stands after it.
fn row_tried(rt: &impl Print, row: &mut Row<'_>) -> io::Result<()> {
    rt.write_all(row.name())?;
    rest_tried(rt, row)?;
    row.skip();
    rt.write_all(b"\n")
}

// Tries every row that is no remark; remarks and rows are at most 1,600. Each program of rows has this loop, since a
// library's call would owe a clause on what is printed.
fn all_tried(rt: &impl Print, row: &mut Row<'_>) -> io::Result<()> {
    for _ in 0..1600u16 {
        match row.byte() {
            b'\n' => return Ok(()),
            b'#' => row.skip_line(),
            _ => row_tried(rt, row)?,
        }
    }
    Ok(())
}

// Reads the input until it ends, a read fails or the buffer is full: the part of the buffer that is read. A `while`: a
// read takes as many bytes as it likes. Each program of rows reads so itself: of a library's call no clause could say
// what it reads.
fn read_input<'a, R: Read>(reader: &mut R, buf: &'a mut [u8]) -> &'a [u8] {
    let mut done: usize = 0;
    while done < buf.len() {
        let Ok(n) = reader.read(&mut buf[done..]) else {
            break;
        };
        if n == 0 {
            break;
        }
        done += n;
    }
    &buf[..done]
}

fn main(rt: HostRuntime) -> io::Result<()> {
    let mut input = [0u8; 65536];
    let input = read_input(&mut rt.reader(), &mut input);
    let mut row = Row { text: input, at: 0 };
    all_tried(&rt, &mut row)
}
