// The sheets of version 1 that the cases start from, put into a buffer that is 0.
use super::bases::Shape;
use bigendian::put;

// Stores bytes one after another from a place on, as far as the buffer goes.
pub fn put_bytes(s: &mut [u8], at: usize, bytes: &[u8]) {
    for (to, from) in s.iter_mut().skip(at).zip(bytes) {
        *to = *from;
    }
}

// Stores a header with the version and the counts P, R and Z.
pub fn put_header(s: &mut [u8], version: u8, p: u8, r: u8, z: u8) {
    put_bytes(s, 0, &[b'S', b'P', b'T', 0, version, p, r, z]);
}

// Stores a sheet that there is in both versions.
pub fn put_shape(s: &mut [u8], shape: Shape) {
    match shape {
        Shape::StationK => put_k(s),
        Shape::Larger => put_larger(s),
        Shape::Largest { zones } => put_largest(s, zones),
    }
}

// Stores a route: its zone, and the sets of turnouts that it runs over, of its flank, of its exit zone and that lie
// reverse.
pub fn put_route(s: &mut [u8], at: u16, zone: u8, sets: [u64; 4]) {
    let at = usize::from(at);
    put(s, at, zone);
    put(s, at + 1, sets[0]);
    put(s, at + 9, sets[1]);
    put(s, at + 17, sets[2]);
    put(s, at + 25, sets[3]);
}

// Stores station K (K-1 of docs/RULES.md) in 50 bytes that are 0: 0 and 1 an electric crossover, 2 alone by hand; the
// route runs over {0}, flank {2}, exit zone and reverse empty.
fn put_k(s: &mut [u8]) {
    put_header(s, 1, 3, 1, 1);
    put_bytes(s, 8, &[0, 1, 0, 0, 0, 0, 0, 255, 1]);
    put_route(s, 17, 0, [1, 4, 0, 0]);
}

// Stores a larger sheet in 131 bytes that are 0: P = 8, R = 3, Z = 2. Turnouts 1 and 2, 4 and 5, 6 and 7 are
// crossovers, the last one by hand; 0 stands alone, and so does 3, by hand. Turnouts 0 to 2 are in zone 0, the others
// in zone 1. The routes: 0: zone 0, runs over {0}, flank {1, 2}, exit zone empty, reverse {0};
// 1: zone 1, runs over {4, 6}, flank empty, exit zone {3}, reverse {4};
// 2: zone 1, runs over {3}, flank {4, 5}, exit zone {6}, reverse {3, 6}.
fn put_larger(s: &mut [u8]) {
    put_header(s, 1, 8, 3, 2);
    put_bytes(s, 8, &[0, 255, 0, 0, 2, 0, 0, 1, 0]);
    put_bytes(s, 17, &[1, 255, 1, 1, 5, 0, 1, 4, 0, 1, 7, 1, 1, 6, 1]);
    put_route(s, 32, 0, [1, 6, 0, 1]);
    put_route(s, 65, 1, [80, 0, 8, 16]);
    put_route(s, 98, 1, [8, 48, 64, 72]);
}

// The other end of turnout n in the largest sheet: 0 to 7 go with 8 to 15, 16 to 23 with 24 to 31, and so on.
fn other_end(n: u8) -> u8 {
    n ^ 8
}

// Stores turnout n of the largest sheet.
fn put_turnout_of_many(s: &mut [u8], n: u8, zones: u8) {
    let turnout = [zone(n, zones), other_end(n), n / 16 % 2];
    put_bytes(s, 8 + 3 * usize::from(n), &turnout);
}

// The zone of turnout n and of route n in the largest sheet: all zones in turn.
fn zone(n: u8, zones: u8) -> u8 {
    n.checked_rem(zones).unwrap_or(0)
}

// The set {n} of route n of the largest sheet, if n is odd; else none.
pub fn reverse(n: u8) -> u64 {
    if n % 2 == 1 { 1 << (n % 64) } else { 0 }
}

// Stores route n of the largest sheet: it runs over {n}, which lies reverse if n is odd.
fn put_route_of_many(s: &mut [u8], n: u8, zones: u8) {
    let sets = [1 << (n % 64), 0, 0, reverse(n)];
    put_route(s, 200 + 33 * u16::from(n), zone(n, zones), sets);
}

// Stores the largest sheet, 2,312 bytes: 64 turnouts and 64 routes, with 1 to 8 zones.
fn put_largest(s: &mut [u8], zones: u8) {
    put_header(s, 1, 64, 64, zones);
    for n in 0..64u8 {
        put_turnout_of_many(s, n, zones);
        put_route_of_many(s, n, zones);
    }
}
