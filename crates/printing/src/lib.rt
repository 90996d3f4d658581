// Printing the text of a sheet and a journal that stand in files: what the desk program does (PROGRAM-1 and PROGRAM-2
// of docs/RULES.md), for any names. The text is `desk_text`'s; what is proved here is that the program's buffers hold
// all of it, and that printing is safe and ends.
#![tactic(auto)]

ghost use Rattle.std.specs.Prelude.{◌≡◌, ◌≤◌, take};
ghost use Rattle.printing.specs.Files.{TextOfFiles};

use std::io;
use std::rt::Files;

// Room for a sheet: more than the longest, 2,312 bytes, so that a longer one shows.
const SHEET: usize = 4096;

// Room for a journal of 1,024 records.
const JOURNAL: usize = 32784;

// Room for the text.
const TEXT: usize = desk_text::ROOM;

// The first n bytes; all if there are fewer.
fn first<'a>(buffer: &'a [u8], n: usize) -> &'a [u8]
    ensures { result.now ≡ take n buffer.now }
{
    buffer.get(..n).unwrap_or(buffer)
}

// Puts the text of the files that stand in the first n and m bytes of the buffers, and says how many bytes it takes.
fn text_of_files(
    sheet: &[u8; SHEET],
    n: usize,
    journal: &[u8; JOURNAL],
    m: usize,
    out: &mut [u8; TEXT],
) -> usize
    ensures text { TextOfFiles SHEET (take n sheet.now) JOURNAL (take m journal.now) out.old
        (record { place = result; bytes = out.new }) }
    ensures within { result ≤ TEXT }
{
    desk_text::put_text(first(sheet, n), first(journal, m), out)
}

// Prints the text of the files with these names; a file that cannot be read counts as empty (PROGRAM-2).
pub fn print_files(
    rt: &(impl Files + Print),
    sheet_name: &[u8],
    journal_name: &[u8],
) -> io::Result<()> {
    let mut sheet = [0u8; SHEET];
    let mut journal = [0u8; JOURNAL];
    let mut out = [0u8; TEXT];
    let n = files::read_file(rt, sheet_name, &mut sheet);
    let m = files::read_file(rt, journal_name, &mut journal);
    let text = text_of_files(&sheet, n, &journal, m, &mut out);
    rt.write_all(&out[..text])
}
