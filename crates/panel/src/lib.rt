// The cabin panel's reader of station sheets (PANEL-1 to PANEL-3 of docs/RULES.md): the desk's, with limits of its own.
// The rules are in specs/Panel.antt; specs/Laws.antt has how the two readers' answers go together.
#![tactic(auto)]

ghost use Rattle.std.specs.Prelude.{◌≡◌};
ghost use Rattle.refusals.specs.Numbers.{code_of};
ghost use Rattle.sheet.specs.Sheet.{sheet_of};
ghost use Rattle.panel.specs.Panel.{panel_number, read_panel_sheet};

use refusals::{Refusal, refuse_if};
use station::Station;

// The most turnouts and routes that a panel has lamps for (PANEL-1).
pub const TURNOUTS: u8 = 16;

pub const ROUTES: u8 = 8;

// The checks of the header and of the length, in the panel's order: its limits after the counts (PANEL-2).
#[tactic(auto, using(layout::proofs::Refused::header_order), unfolding(crate::specs::Panel::panel_number))]
fn check_header(s: &[u8]) -> Result<(), Refusal>
    ensures { code_of result ≡ panel_number s.now }
{
    layout::before_length(s)?;
    let within = layout::within_limits(
        TURNOUTS,
        ROUTES,
        bigendian::get(s, 5),
        bigendian::get(s, 6),
    );
    refuse_if(!within, Refusal::OverLimits)?;
    layout::check_length(s)
}

// Reads a sheet for a panel: where its limits are not passed, the desk's answer is the panel's (PANEL-3).
pub fn read_panel_sheet(s: &[u8]) -> Result<Station, Refusal>
    ensures { sheet_of result ≡ read_panel_sheet s.now }
{
    check_header(s)?;
    sheet::read_sheet(s)
}
