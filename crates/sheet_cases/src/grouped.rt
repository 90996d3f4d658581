// The sheets of version 2 that the cases start from, put into a buffer that is 0. Four are those of sheets.rt, with
// another version and with the groups' numbers (SHEET-14 of docs/RULES.md) in the partners' place.
use super::bases::Shape;
use super::sheets;
use super::sheets::{put_bytes, put_header, put_route};
use bigendian::put;

// Stores the number of turnout n's group.
fn put_number(s: &mut [u8], n: u8, number: u8) {
    put(s, 9 + 3 * usize::from(n), number);
}

// Stores a sheet that there is in both versions.
pub fn put_shape(s: &mut [u8], shape: Shape) {
    sheets::put_shape(s, shape);
    put(s, 4, 2u8);
    match shape {
        Shape::StationK => put_k_numbers(s),
        Shape::Larger => put_larger_numbers(s),
        Shape::Largest { .. } => put_largest_numbers(s),
    }
}

// Stores two turnouts' number.
fn put_pair(s: &mut [u8], lower: u8, higher: u8, number: u8) {
    put_number(s, lower, number);
    put_number(s, higher, number);
}

// Stores the groups' numbers of station K: 0 and 1 are group 0 (K-1).
fn put_k_numbers(s: &mut [u8]) {
    put_pair(s, 0, 1, 0);
}

// Stores those of the larger sheet: 1 and 2 are group 0, 4 and 5 group 1, 6 and 7 group 2.
fn put_larger_numbers(s: &mut [u8]) {
    put_pair(s, 1, 2, 0);
    put_pair(s, 4, 5, 1);
    put_pair(s, 6, 7, 2);
}

// Stores those of the largest sheet, with 64 turnouts in 32 groups. The lower ends are 0 to 7, 16 to 23, 32 to 39, 48
// to 55: the groups are 0 to 7 of the first 16 turnouts, 8 to 15 of the next, and so on to 31, that of 55 and 63.
fn put_largest_numbers(s: &mut [u8]) {
    for n in 0..64u8 {
        put_number(s, n, n / 16 * 8 + n % 8);
    }
}

// Stores a sheet with groups in 188 bytes that are 0: P = 16, R = 4, Z = 2. Turnouts 0 to 6 are in zone 0, the others
// in zone 1. 1, 3 and 5 are group 4, by hand; 2 and 6 group 31, electric; 7 to 10 and 12 to 15 group 0, electric. 0
// is alone and electric, 4 and 11 are alone and by hand. The routes:
// 0: zone 0, runs over {0}, flank {1, 3, 5}, exit zone {2}, reverse {0, 3};
// 1: zone 0, runs over {1, 4}, flank {2, 6}, exit zone {3}, reverse {1, 2, 6};
// 2: zone 1, runs over {7, 8, 11}, flank empty, exit zone {15}, reverse {8, 15};
// 3: zone 1, runs over {11}, flank {7, 8, 9, 10, 12, 13, 14, 15}, exit zone empty, reverse {7, 12}.
pub fn put_groups(s: &mut [u8]) {
    put_header(s, 2, 16, 4, 2);
    put_turnouts_of_groups(s);
    put_route(s, 56, 0, [1, 42, 4, 9]);
    put_route(s, 89, 0, [18, 68, 8, 70]);
    put_route(s, 122, 1, [2432, 0, 32768, 33024]);
    put_route(s, 155, 1, [2048, 63360, 0, 4224]);
}

// Stores its turnouts: 0 to 6, 7 to 11, 12 to 15.
fn put_turnouts_of_groups(s: &mut [u8]) {
    put_bytes(
        s,
        8,
        &[
            0, 255, 0, 0, 4, 1, 0, 31, 0, 0, 4, 1, 0, 255, 1, 0, 4, 1, 0, 31, 0,
        ],
    );
    put_bytes(s, 29, &[1, 0, 0, 1, 0, 0, 1, 0, 0, 1, 0, 0, 1, 255, 1]);
    put_bytes(s, 44, &[1, 0, 0, 1, 0, 0, 1, 0, 0, 1, 0, 0]);
}

// Stores turnout n of the largest sheet with groups of eight: 0, 8, .. 56 are group 31 and electric, 1, 9, .. 57 group
// 30 and by hand, and so on, the two drives in turn, to 7, 15, .. 63, group 24. All are in zone 0.
fn put_turnout_of_eight(s: &mut [u8], n: u8) {
    put_number(s, n, 31 - n % 8);
    put(s, 10 + 3 * usize::from(n), n % 2);
}

// Stores route n of that sheet: it runs over {n}, which lies reverse if n is odd, and its flank is the whole group of
// turnout n + 1, or of turnout 0 for route 63.
fn put_route_of_eight(s: &mut [u8], n: u8) {
    let flank = u64::from_be_bytes([1 << ((n % 64 + 1) % 8); 8]);
    let sets = [1 << (n % 64), flank, 0, sheets::reverse(n)];
    put_route(s, 200 + 33 * u16::from(n), 0, sets);
}

// Stores the largest sheet with groups of eight, 2,312 bytes.
pub fn put_eights(s: &mut [u8]) {
    put_header(s, 2, 64, 64, 1);
    for n in 0..64u8 {
        put_turnout_of_eight(s, n);
        put_route_of_eight(s, n);
    }
}
