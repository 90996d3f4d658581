// How long a work took, in minutes: MINUTES-1 and VALUE-5 (docs/RULES.md). The rule is in specs/Minutes.antt, what is
// asked of it in specs/Laws.antt.
#![tactic(auto)]

ghost use Rattle.std.specs.Prelude.{◌≡◌};
ghost use Rattle.durations.specs.Minutes.{goes_up, nearest_minute, minutes_between};

// Whether whole minutes and seconds over go to the next minute: it is the nearer one, or both are as near and the
// next is the even one.
fn goes_up(minutes: u32, over: u32) -> bool
    ensures { result ≡ goes_up minutes over }
{
    (over > 30) | ((over == 30) & (minutes % 2 == 1))
}

// The minutes of a duration, to the nearest; an exact half minute goes to the even one (MINUTES-1).
fn nearest_minute(seconds: u32) -> u32
    ensures { result ≡ nearest_minute seconds }
{
    let minutes = seconds / 60;
    if goes_up(minutes, seconds % 60) {
        return minutes + 1;
    }
    minutes
}

// Minutes from an agreement to a time, to the nearest; 0 for an agreement that is later (MINUTES-1, VALUE-5).
#[tactic(auto, unfolding(crate::specs::Minutes::minutes_between))]
pub fn minutes_between(since: u32, now: u32) -> u32
    ensures { result ≡ minutes_between since «now» }
{
    if now < since {
        return 0;
    }
    nearest_minute(now - since)
}
