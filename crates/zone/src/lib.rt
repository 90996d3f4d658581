// The state of one zone of the works desk, ZONE-1 and ZONE-2 (docs/RULES.md): its work, its movement, its recorder, its
// last accepted time; what they say, and what messages do to them. The rules are in specs/: Work.antt, Movement.antt,
// Trains.antt (movements by train) and Zone.antt. Every function takes any value, also one that no desk gave.
#![tactic(auto)]

ghost use Rattle.std.specs.Prelude.{◌≡◌};
ghost use Rattle.zone.specs.Movement.{regime_number};
ghost use Rattle.zone.specs.Zone.{fresh_zone, work_of, with_work, at_time, with_recorder};

pub mod movements;
pub mod regimes;
pub mod trains;
pub mod works;

// What was asked for: the form number, how it was recorded (1 form M.45, 2 recorded verbal; a byte, as said below), the
// turnouts.
#[derive(Clone, Copy)]
pub struct Request {
    pub set: u64,
    pub form: u32,
    pub manner: u8,
}

// An agreed request: also when it was agreed to, and the turnouts that are open to work.
#[derive(Clone, Copy)]
pub struct Agreement {
    pub set: u64,
    pub opened: u64,
    pub form: u32,
    pub since: u32,
    pub manner: u8,
}

// The work of a zone (ZONE-1, FORM-6).
#[derive(Clone, Copy)]
pub enum Work {
    NoWork,
    Asked(Request),
    Agreed(Agreement),
}

// A movement that stands: its train, its route, the order given (0 none, 1 clear, 2 danger), the turnouts cleared for
// it, those of them whose declaration means all efficient, and the turnouts on which a release key was used for it. An
// order and a manner stay bytes: those of a stored desk may hold any value (UNIT-2, VALUE-7, VALUE-9).
#[derive(Clone, Copy)]
pub struct Passage {
    pub cleared: u64,
    pub efficient: u64,
    pub keys: u64,
    pub train: u32,
    pub route: u8,
    pub order: u8,
}

// The regimes: REGIME-1 to REGIME-3.
#[derive(Clone, Copy, Debug, PartialEq, Eq)]
pub enum Regime {
    Held,
    Clear,
    Danger,
}

impl From<Regime> for u8 {
    ghost from_gives = { λ r n. n ≡ regime_number r };

    // 0 held, 1 clear, 2 danger.
    fn from(regime: Regime) -> u8 {
        match regime {
            Regime::Held => 0,
            Regime::Clear => 1,
            Regime::Danger => 2,
        }
    }
}

// A zone: its work, its movement if one stands, its last accepted time, and its recorder, true while it works (ZONE-1,
// FORM-6).
#[derive(Clone, Copy)]
pub struct Zone {
    pub work: Work,
    pub movement: Option<Passage>,
    pub time: u32,
    pub recorder: bool,
}

// What an accepted message leaves: the zone after it, and the minutes (HEAR-4). A message is heard as
// `Result<Heard, Refusal>`; one that is refused leaves the zone as it was.
#[derive(Clone, Copy)]
pub struct Heard {
    pub zone: Zone,
    pub minutes: u32,
}

impl Zone {
    // A zone with no work and no movement, its recorder working, its time 0 (ZONE-2).
    pub fn fresh() -> Zone
        ensures { result ≡ fresh_zone }
    {
        Zone {
            work: Work::NoWork,
            movement: None,
            recorder: true,
            time: 0,
        }
    }
}

// The zone's work.
pub fn work_of(z: Zone) -> Work
    ensures { result ≡ work_of z }
{
    z.work
}

// The zone with other work, at a time.
pub fn with_work(z: Zone, w: Work, time: u32) -> Zone
    ensures { result ≡ with_work z w time }
{
    Zone { work: w, time, ..z }
}

// The zone at a time.
pub fn at_time(z: Zone, time: u32) -> Zone
    ensures { result ≡ at_time z time }
{
    Zone { time, ..z }
}

// The zone with its recorder working or out, at a time.
pub fn with_recorder(z: Zone, working: bool, time: u32) -> Zone
    ensures { result ≡ with_recorder z working time }
{
    Zone {
        recorder: working,
        time,
        ..z
    }
}
