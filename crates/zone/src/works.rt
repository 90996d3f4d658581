// The work of a zone: what it says, and what messages do to it (the effects of KIND-1, KIND-2, KIND-4, KIND-6 and
// KIND-10, docs/RULES.md).
ghost use Rattle.std.specs.Prelude.{◌≡◌};
ghost use Rattle.zone.specs.Work.{
  has_work,
  is_agreed,
  form_of,
  under_form,
  manner,
  work_set,
  agreed_set,
  open_set,
  agreed_at,
  asked_for,
  agreed_from,
  opened_to,
  shut_to,
  restored_of,
  agreement_changes,
};

use super::{Agreement, Request, Work};

// Whether work is asked for or agreed to.
pub fn has_work(w: Work) -> bool
    ensures { result ≡ has_work w }
{
    !matches!(w, Work::NoWork)
}

pub fn is_agreed(w: Work) -> bool
    ensures { result ≡ is_agreed w }
{
    matches!(w, Work::Agreed(_))
}

// Three matches of this shape: one for all would be lent two closures by each.
fn form_of(w: Work) -> u32
    ensures { result ≡ form_of w }
{
    match w {
        Work::NoWork => 0,
        Work::Asked(q) => q.form,
        Work::Agreed(g) => g.form,
    }
}

// Whether there is work under this form number.
pub fn under_form(w: Work, id: u32) -> bool
    ensures { result ≡ under_form w id }
{
    has_work(w) & (form_of(w) == id)
}

// 1 form M.45, 2 recorded verbal.
pub fn manner_of(w: Work) -> u8
    ensures { result ≡ manner w }
{
    match w {
        Work::NoWork => 0,
        Work::Asked(q) => q.manner,
        Work::Agreed(g) => g.manner,
    }
}

// The turnouts asked for, agreed or not.
pub fn work_set(w: Work) -> u64
    ensures { result ≡ work_set w }
{
    match w {
        Work::NoWork => 0,
        Work::Asked(q) => q.set,
        Work::Agreed(g) => g.set,
    }
}

// The turnouts under agreed work. Here and below a match of one arm: an agreement taken out first would be one more
// definition, and no line less.
pub fn agreed_set(w: Work) -> u64
    ensures { result ≡ agreed_set w }
{
    match w {
        Work::Agreed(g) => g.set,
        _ => 0,
    }
}

// The turnouts open to work.
pub fn open_set(w: Work) -> u64
    ensures { result ≡ open_set w }
{
    match w {
        Work::Agreed(g) => g.opened,
        _ => 0,
    }
}

// When the work was agreed to; 0 if it was not.
pub fn agreed_at(w: Work) -> u32
    ensures { result ≡ agreed_at w }
{
    match w {
        Work::Agreed(g) => g.since,
        _ => 0,
    }
}

// Work asked for (KIND-1.3).
pub fn asked_for(form: u32, manner: u8, set: u64) -> Work
    ensures { result ≡ asked_for form manner set }
{
    Work::Asked(Request { form, manner, set })
}

// Work agreed to at a time, nothing open yet (KIND-2.4).
pub fn agreed_from(w: Work, time: u32) -> Work
    ensures { result ≡ agreed_from w time }
{
    match w {
        Work::NoWork => Work::NoWork,
        Work::Asked(q) => Work::Agreed(Agreement {
            form: q.form,
            manner: q.manner,
            set: q.set,
            since: time,
            opened: 0,
        }),
        Work::Agreed(g) => Work::Agreed(g),
    }
}

// The work with its agreement changed; other work as it is.
fn on_agreed<F: Fn(Agreement) -> Agreement>(w: Work, change: F) -> Work
    requires { F.IsAlwaysCallable change }
    ensures { agreement_changes (F.post change) w result }
{
    match w {
        Work::Agreed(g) => Work::Agreed(change(g)),
        _ => w,
    }
}

// The work with more turnouts open (KIND-4.6).
pub fn opened_to(w: Work, s: u64) -> Work
    ensures { result ≡ opened_to w s }
{
    on_agreed(
        w,
        |g| Agreement {
            opened: sets::join(g.opened, s),
            ..g
        },
    )
}

// The work with turnouts shut (KIND-6.6).
pub fn shut_to(w: Work, s: u64) -> Work
    ensures { result ≡ shut_to w s }
{
    on_agreed(
        w,
        |g| Agreement {
            opened: sets::minus(g.opened, s),
            ..g
        },
    )
}

// The work without the turnouts restored (KIND-10.6).
pub fn restored_of(w: Work, s: u64) -> Work
    ensures { result ≡ restored_of w s }
{
    on_agreed(
        w,
        |g| Agreement {
            set: sets::minus(g.set, s),
            opened: sets::minus(g.opened, s),
            ..g
        },
    )
}
