// What the desk program prints of a sheet and a journal (PROGRAM-1 and PROGRAM-2 of docs/RULES.md). The text is in
// specs/Printed.antt; proofs/Printed.antt has that there is always room for the answers, and that a buffer of ROOM
// bytes holds the whole text.
#![tactic(auto)]

ghost use Rattle.std.specs.Prelude.{◌≡◌};
ghost use Rattle.report.specs.Text.{put_all};
ghost use Rattle.desk_text.specs.Printed.{printed};

// The bytes that every text fits into: 1,024 lines of three numbers with at most 10 digits.
pub const ROOM: usize = 33792;

// Puts the text into a buffer, as far as it fits; says how many bytes of the buffer it takes: a count, since no clause
// can name a buffer that the answer borrows.
pub fn put_text(sheet: &[u8], journal: &[u8], out: &mut [u8]) -> usize
    ensures { record { place = result; bytes = out.new }
        ≡ put_all out.old 0 (printed sheet.now journal.now) }
{
    let mut answers = [0u8; 5120];
    let replayed = replay::replay(sheet, journal, &mut answers);
    report::text(
        refusals::code(replayed),
        &answers,
        journal::count(journal),
        out,
    )
}
