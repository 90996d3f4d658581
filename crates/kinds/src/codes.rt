// The checks of each kind in a zone, the routes that bear on the message being given: those after 14 (KIND-1 to
// KIND-13 of docs/RULES.md), in the written order; the first whose test holds refuses the message by its number.
#![tactic(auto, unfolding(rules::specs::Kinds::row))]

ghost use Rattle.std.specs.Prelude.{◌≡◌};
ghost use Rattle.refusals.specs.Numbers.{code_of};
ghost use Rattle.rules.specs.Kinds.{first, row};

use super::Hearing;
use refusals::{Refusal, refuse_if};
use rules::clearances::medium_fits;
use zone::movements::is_ordered;
use zone::trains::{movement_under, no_place};
use zone::work_of;
use zone::works::{has_work, is_agreed, manner_of, work_set};

pub fn work_asked(h: &Hearing) -> Result<(), Refusal>
    ensures { code_of result ≡ first (row 1 h.now.st.now h.now.routes h.now.z h.now.m) }
{
    refuse_if(has_work(work_of(h.z)), Refusal::AlreadyThere)?;
    refuse_if(
        rules::bad_request(*h.st, h.m.zone, h.m.a),
        Refusal::BadTurnouts,
    )
}

pub fn agreed(h: &Hearing) -> Result<(), Refusal>
    ensures { code_of result ≡ first (row 2 h.now.st.now h.now.routes h.now.z h.now.m) }
{
    let w = work_of(h.z);
    refuse_if(rules::no_work_under(h.z, h.m), Refusal::NotUnderThisId)?;
    refuse_if(is_agreed(w), Refusal::WrongStage)?;
    refuse_if(
        rules::names_of(*h.st, h.z, work_set(w)),
        Refusal::MovementInTheWay,
    )
}

pub fn withdrawn(h: &Hearing) -> Result<(), Refusal>
    ensures { code_of result ≡ first (row 3 h.now.st.now h.now.routes h.now.z h.now.m) }
{
    refuse_if(rules::no_work_under(h.z, h.m), Refusal::NotUnderThisId)?;
    refuse_if(is_agreed(work_of(h.z)), Refusal::WrongStage)
}

pub fn detection_off(h: &Hearing) -> Result<(), Refusal>
    ensures { code_of result ≡ first (row 4 h.now.st.now h.now.routes h.now.z h.now.m) }
{
    let w = work_of(h.z);
    refuse_if(rules::no_work_under(h.z, h.m), Refusal::NotUnderThisId)?;
    refuse_if(
        rules::bad_detection(work_set(w), h.m.a, h.m.b),
        Refusal::BadTurnouts,
    )?;
    refuse_if(!is_agreed(w), Refusal::WrongStage)?;
    refuse_if(
        rules::cleared_among(h.z, sets::join(h.m.a, h.m.b)),
        Refusal::MovementInTheWay,
    )?;
    refuse_if(rules::device_under_verbal(w, h.m.b), Refusal::Forbidden)
}

pub fn movement_asked(h: &Hearing) -> Result<(), Refusal>
    ensures { code_of result ≡ first (row 5 h.now.st.now h.now.routes h.now.z h.now.m) }
{
    refuse_if(no_place(h.z), Refusal::AlreadyThere)?;
    refuse_if(
        rules::bad_route(*h.st, h.routes.asked, h.m.zone, h.m.d0),
        Refusal::BadTurnouts,
    )
}

pub fn clearance(h: &Hearing) -> Result<(), Refusal>
    ensures { code_of result ≡ first (row 6 h.now.st.now h.now.routes h.now.z h.now.m) }
{
    let w = work_of(h.z);
    let v = movement_under(h.z, h.m.id);
    let r = h.routes.its;
    refuse_if(rules::no_movement_under(h.z, h.m), Refusal::NotUnderThisId)?;
    refuse_if(rules::has_already(v, h.m.d0), Refusal::AlreadyThere)?;
    refuse_if(rules::not_worked(r, w, h.m.d0), Refusal::BadTurnouts)?;
    refuse_if(rules::misfit(*h.st, r, h.m), Refusal::ClearanceDoesNotFit)?;
    refuse_if(!medium_fits(h.z.recorder, h.m.d4), Refusal::WrongMedium)
}

pub fn ordered(h: &Hearing) -> Result<(), Refusal>
    ensures { code_of result ≡ first (row 7 h.now.st.now h.now.routes h.now.z h.now.m) }
{
    let w = work_of(h.z);
    let v = movement_under(h.z, h.m.id);
    refuse_if(rules::no_movement_under(h.z, h.m), Refusal::NotUnderThisId)?;
    refuse_if(is_ordered(v), Refusal::WrongStage)?;
    refuse_if(
        rules::order_forbidden(h.routes.its, w, v, h.m.d0),
        Refusal::Forbidden,
    )
}

pub fn passed(h: &Hearing) -> Result<(), Refusal>
    ensures { code_of result ≡ first (row 8 h.now.st.now h.now.routes h.now.z h.now.m) }
{
    let v = movement_under(h.z, h.m.id);
    refuse_if(rules::no_movement_under(h.z, h.m), Refusal::NotUnderThisId)?;
    refuse_if(!is_ordered(v), Refusal::WrongStage)
}

pub fn cancelled(h: &Hearing) -> Result<(), Refusal>
    ensures { code_of result ≡ first (row 9 h.now.st.now h.now.routes h.now.z h.now.m) }
{
    let v = movement_under(h.z, h.m.id);
    refuse_if(rules::no_movement_under(h.z, h.m), Refusal::NotUnderThisId)?;
    refuse_if(is_ordered(v), Refusal::WrongStage)
}

pub fn part_restored(h: &Hearing) -> Result<(), Refusal>
    ensures { code_of result ≡ first (row 10 h.now.st.now h.now.routes h.now.z h.now.m) }
{
    let w = work_of(h.z);
    refuse_if(rules::no_work_under(h.z, h.m), Refusal::NotUnderThisId)?;
    refuse_if(
        rules::bad_part(*h.st, work_set(w), h.m.a),
        Refusal::BadTurnouts,
    )?;
    refuse_if(!is_agreed(w), Refusal::WrongStage)?;
    refuse_if(
        rules::names_of(*h.st, h.z, h.m.a),
        Refusal::MovementInTheWay,
    )?;
    refuse_if(manner_of(w) == 1, Refusal::Forbidden)
}

pub fn all_restored(h: &Hearing) -> Result<(), Refusal>
    ensures { code_of result ≡ first (row 11 h.now.st.now h.now.routes h.now.z h.now.m) }
{
    let w = work_of(h.z);
    refuse_if(rules::no_work_under(h.z, h.m), Refusal::NotUnderThisId)?;
    refuse_if(!is_agreed(w), Refusal::WrongStage)?;
    refuse_if(
        rules::names_of(*h.st, h.z, work_set(w)),
        Refusal::MovementInTheWay,
    )
}

pub fn key_used(h: &Hearing) -> Result<(), Refusal>
    ensures { code_of result ≡ first (row 13 h.now.st.now h.now.routes h.now.z h.now.m) }
{
    let w = work_of(h.z);
    let v = movement_under(h.z, h.m.id);
    let its = h.routes.its;
    refuse_if(rules::no_movement_under(h.z, h.m), Refusal::NotUnderThisId)?;
    refuse_if(rules::has_already(v, h.m.d0), Refusal::AlreadyThere)?;
    refuse_if(rules::not_worked(its, w, h.m.d0), Refusal::BadTurnouts)?;
    refuse_if(
        rules::key_misfit(its, h.m.d0, h.m.d1),
        Refusal::KeyDoesNotFit,
    )
}
