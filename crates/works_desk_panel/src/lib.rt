// The static library of the cabin panel (PANEL-1 to PANEL-3 of docs/RULES.md), a product of its own, for firmware in C
// or Rust: a byte slice goes as a pointer and a length. It takes any bytes. Code and index are packed here as in
// `works_desk_journal`: this archive holds nothing of the desk.
#![tactic(auto)]

ghost use Rattle.std.specs.Prelude.{◌≡◌};
ghost use Rattle.works_desk_panel.specs.Packed.{panel_packed};

use refusals::Refusal;

// Reads a sheet for a panel: its code, and 256 times the index of the bad record.
#[unsafe(no_mangle)]
pub extern "C" fn panel_sheet(sheet: &[u8]) -> u32
    ensures { result ≡ panel_packed sheet.now }
{
    let read = panel::read_panel_sheet(sheet);
    let index = read.err().map_or(0, Refusal::index);
    packing::two_packed(refusals::code(read), index)
}
