// The field rules, RECORD-2 and RECORD-3 (docs/RULES.md): the id, the sets and the details that each kind names.
ghost use Rattle.std.specs.Prelude.{◌≡◌, [], ◌∷◌, false, ◌&&◌};
ghost use Rattle.message.specs.Fields.{
  in_span,
  ◌to◌,
  details,
  details_kept,
  clearance_spans,
  key_spans,
  set_kept,
  id_kept,
  named,
  named_kept,
};
ghost use Rattle.message.specs.Kind.{kind_number};

use super::{Kind, Message};

// Whether a detail is from least to most.
fn in_span(d: u8, least: u8, most: u8) -> bool
    ensures { result ≡ in_span (least to most) d }
{
    (least <= d) & (d <= most)
}

// Whether details d2 to d5 are 0. This and the two after it are a line each: a function over a list of details would be
// longer, and its proof needs the list's laws.
fn last_details(m: Message) -> bool
    ensures { result ≡ details_kept [] (m.d2 ∷ m.d3 ∷ m.d4 ∷ m.d5 ∷ []) }
{
    (m.d2 == 0) & ((m.d3 == 0) & ((m.d4 == 0) & (m.d5 == 0)))
}

// Whether details d1 to d5 are 0.
fn no_more_details(m: Message) -> bool
    ensures { result ≡ details_kept [] (m.d1 ∷ m.d2 ∷ m.d3 ∷ m.d4 ∷ m.d5 ∷ []) }
{
    (m.d1 == 0) & last_details(m)
}

// Whether no detail is named: each is 0.
fn no_details(m: Message) -> bool
    ensures { result ≡ details_kept [] (details m) }
{
    (m.d0 == 0) & no_more_details(m)
}

// Whether d0 is from least to most and the other details are 0.
fn first_detail(m: Message, least: u8, most: u8) -> bool
    ensures { result ≡ details_kept ((least to most) ∷ []) (details m) }
{
    in_span(m.d0, least, most) & no_more_details(m)
}

// The details of a clearance: turnout, declaration, position, clamp, voice or written, whether it covers the whole
// group.
fn clearance_details(m: Message) -> bool
    ensures { result ≡ details_kept clearance_spans (details m) }
{
    in_span(m.d0, 0, 63)
        & (in_span(m.d1, 1, 9)
            & (in_span(m.d2, 0, 1)
                & (in_span(m.d3, 0, 2) & (in_span(m.d4, 1, 2) & in_span(m.d5, 0, 1)))))
}

// The details of a key: turnout, Tcl or Es.
fn key_details(m: Message) -> bool
    ensures { result ≡ details_kept key_spans (details m) }
{
    in_span(m.d0, 0, 63) & (in_span(m.d1, 1, 2) & last_details(m))
}

// Whether no set is named: both are empty.
fn no_sets(m: Message) -> bool
    ensures { result ≡ (set_kept false m.a && set_kept false m.b) }
{
    (m.a == 0) & (m.b == 0)
}

// Whether the sets and details that the kind names are as it wants them, and all others 0 (RECORD-3).
#[tactic(auto, unfolding(crate::specs::Fields::named))]
fn named_kept(kind: Kind, m: Message) -> bool
    ensures { result ≡ named_kept (named (kind_number kind)) m }
{
    match kind {
        Kind::WorkAsked => (m.b == 0) & first_detail(m, 1, 2),
        Kind::DetectionOff => no_details(m),
        Kind::MovementAsked => no_sets(m) & first_detail(m, 0, 63),
        Kind::Clearance => no_sets(m) & clearance_details(m),
        Kind::Ordered => no_sets(m) & first_detail(m, 1, 2),
        Kind::PartRestored => (m.b == 0) & no_details(m),
        Kind::Recorder => no_sets(m) & first_detail(m, 0, 1),
        Kind::KeyUsed => no_sets(m) & key_details(m),
        Kind::Agreed | Kind::Withdrawn | Kind::Passed | Kind::Cancelled | Kind::AllRestored => {
            no_sets(m) & no_details(m)
        }
    }
}

// Whether the id is 0 for the recorder, and not 0 for every other kind (RECORD-2).
fn id_kept(kind: Kind, id: u32) -> bool
    ensures { result ≡ id_kept (kind_number kind) id }
{
    if kind == Kind::Recorder {
        return id == 0;
    }
    id != 0
}

// Whether every field keeps the rule of this kind.
pub fn fields_kept(kind: Kind, m: Message) -> bool
    ensures { result ≡ (id_kept (kind_number kind) m.id && named_kept (named (kind_number kind)) m) }
{
    id_kept(kind, m.id) & named_kept(kind, m)
}
