// The 32 bytes of a record: where each field of a message stands (RECORD-1 of docs/RULES.md).
ghost use Rattle.std.specs.Prelude.{◌≡◌};
ghost use Rattle.std.proofs.lemmas.List.Edits.{sets};
ghost use Rattle.message.specs.Record.{decoded, encoded};

use super::Message;
use bigendian::{get, put};

// The message that stands in the bytes, whatever they are.
#[tactic(auto, unfolding(crate::specs::Record::decoded))]
pub fn decode(s: &[u8]) -> Message
    ensures { result ≡ decoded s.now }
{
    Message {
        kind: get(s, 0),
        zone: get(s, 1),
        time: get(s, 2),
        id: get(s, 6),
        a: get(s, 10),
        b: get(s, 18),
        d0: get(s, 26),
        d1: get(s, 27),
        d2: get(s, 28),
        d3: get(s, 29),
        d4: get(s, 30),
        d5: get(s, 31),
    }
}

// Stores the record of a message at the start of the bytes.
#[tactic(auto, unfolding(crate::specs::Record::encoded, crate::specs::Record::head_bytes))]
pub fn encode(m: Message, s: &mut [u8])
    ensures { s.new ≡ sets s.old 0 (encoded m) }
{
    put(s, 0, m.kind);
    put(s, 1, m.zone);
    put(s, 2, m.time);
    put(s, 6, m.id);
    put(s, 10, m.a);
    put(s, 18, m.b);
    put(s, 26, m.d0);
    put(s, 27, m.d1);
    put(s, 28, m.d2);
    put(s, 29, m.d3);
    put(s, 30, m.d4);
    put(s, 31, m.d5);
}
