// The 32 bytes of a message, whether a record carries it or not: the layout of RECORD-1 (docs/RULES.md), written here
// once more on purpose, so that a fault in message's own layout shows as a wrong line.
use bigendian::put;
use message::Message;

// Stores a message in the first 32 bytes.
pub fn store(m: Message, s: &mut [u8]) {
    put(s, 0, m.kind);
    put(s, 1, m.zone);
    put(s, 2, m.time);
    put(s, 6, m.id);
    put(s, 10, m.a);
    put(s, 18, m.b);
    put(s, 26, m.d0);
    put(s, 27, m.d1);
    put(s, 28, m.d2);
    put(s, 29, m.d3);
    put(s, 30, m.d4);
    put(s, 31, m.d5);
}
