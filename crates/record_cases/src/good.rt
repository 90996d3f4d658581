// One good message of each kind: zone 3, time 1000, id 7 (0 for kind 12), the sets and details that the kind names,
// else 0.
use message::{Kind, Message};

// The good message of a kind; of a number that is no kind's, one that names nothing. Set a is turnouts 2 and 3, set b 4
// and 5. The details: form M.45; route 9; a clearance of turnout 17 by declaration 4 in reverse, with a clamp, by
// voice; signals clear; recorder working; key Tcl of turnout 17.
pub fn good(kind: u8) -> Message {
    let bare = Message {
        kind,
        zone: 3,
        time: 1000,
        id: 7,
        a: 0,
        b: 0,
        d0: 0,
        d1: 0,
        d2: 0,
        d3: 0,
        d4: 0,
        d5: 0,
    };
    let Ok(named) = Kind::try_from(kind) else {
        return bare;
    };
    match named {
        Kind::WorkAsked => Message {
            a: 12,
            d0: 1,
            ..bare
        },
        Kind::DetectionOff => Message {
            a: 12,
            b: 48,
            ..bare
        },
        Kind::MovementAsked => Message { d0: 9, ..bare },
        Kind::Clearance => Message {
            d0: 17,
            d1: 4,
            d2: 1,
            d3: 1,
            d4: 1,
            ..bare
        },
        Kind::Ordered => Message { d0: 1, ..bare },
        Kind::PartRestored => Message { a: 12, ..bare },
        Kind::Recorder => Message {
            id: 0,
            d0: 1,
            ..bare
        },
        Kind::KeyUsed => Message {
            d0: 17,
            d1: 1,
            ..bare
        },
        Kind::Agreed | Kind::Withdrawn | Kind::Passed | Kind::Cancelled | Kind::AllRestored => bare,
    }
}
