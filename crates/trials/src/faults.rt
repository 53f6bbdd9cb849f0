// Small decks that are refused, by the question that refuses them. Where two questions fail at once, the lower one is told.
use crate::case::{Case, all_refused};

const NO_BYTE: [Case; 5] = [
    Case(b"", 3, 0),
    Case(b"G\xff\x01\0HERON   ", 3, 12),
    Case(b"G\xff\x01\0HERON   S\0\0", 3, 15),
    Case(b"G\xff\x01\0HERON   R\0\0\0", 3, 16),
    Case(b"T\0\0\0ADA     ", 3, 12),
];

const NO_KIND: [Case; 7] = [
    Case(b"X", 4, 0),
    Case(b"\0\0\0", 4, 0),
    Case(b"e\0\0", 4, 0),
    Case(b"\xc5\0\0", 4, 0),
    // A byte that begins no record where hardly a kind may stand.
    Case(b"G\xff\x01\0HERON   e\0\0", 4, 12),
    Case(b"G\xff\x01\0HERON   S\0\0g", 4, 15),
    Case(b"G\xff\x01\0HERON   T\x03\0\0ADA     W\0\x32\0\0 ", 4, 29),
];

// A body that is missing, or is out of range, is not asked for.
const MISPLACED: [Case; 16] = [
    Case(b"W", 5, 0),
    Case(b"B", 5, 0),
    Case(b"G\xff\x01\0HERON   W\0\0\0\0", 5, 12),
    Case(b"G\xff\x01\0HERON   B\0", 5, 12),
    Case(b"G\xff\x01\0HERON   S\0\0G\xff\x01\0TERN    ", 5, 15),
    Case(b"G\xff\x01\0HERON   S\0\0W", 5, 15),
    Case(b"G\xff\x01\0HERON   S\0\0B", 5, 15),
    Case(
        b"G\xff\x01\0HERON   R\0\0\0G\x63\0\0\0\0\0\0\0\0\0\0",
        5,
        16,
    ),
    Case(b"G\xff\x01\0HERON   R\0\0\0S\0\x09", 5, 16),
    Case(b"G\xff\x01\0HERON   R\0\0\0W", 5, 16),
    Case(b"G\xff\x01\0HERON   R\0\0\0B\0", 5, 16),
    Case(b"T\0\0\0ADA     G\xff\x01\0HERON   ", 5, 12),
    Case(b"T\0\0\0ADA     S\0\0", 5, 12),
    Case(b"T\0\0\0ADA     R", 5, 12),
    Case(b"G\xff\x01\0HERON   T\0\0\0ADA     W\0\0\0\0R\0\0\0", 5, 29),
    Case(b"G\xff\x01\0HERON   T\0\0\0ADA     B\0S\0\0", 5, 26),
];

const SHORT: [Case; 14] = [
    Case(b"E", 6, 0),
    Case(b"E\0", 6, 0),
    Case(b"G", 6, 0),
    Case(b"G\xff\x01\0HERON  ", 6, 0),
    Case(b"G\xff\x01\0HERON   S\0", 6, 12),
    Case(b"G\xff\x01\0HERON   R\0\0", 6, 12),
    Case(b"T\0\0\0ADA    ", 6, 0),
    Case(b"G\xff\x01\0HERON   T\0\0\0ADA     W\0\0\0", 6, 24),
    Case(b"G\xff\x01\0HERON   T\0\0\0ADA     B", 6, 24),
    // The field that is there is out of range too.
    Case(b"S\x09", 6, 0),
    Case(b"G\x63\0\0\0\0\0\0\0\0\0", 6, 0),
    Case(b"T\0\0\x02ADA    ", 6, 0),
    // A lot that repeats, and a number of wishes that is wrong.
    Case(b"T\0\0\0ADA     T\0\0\0BEN    ", 6, 12),
    Case(b"E\x01", 6, 0),
];

const GROUP_RANGE: [Case; 8] = [
    Case(b"G\0\x01\0HERON   ", 8, 0),
    Case(b"G\xfe\x01\0HERON   ", 8, 0),
    Case(b"G\xff\x01\0HERON   G\x01\x01\0ENGINE  ", 8, 12),
    Case(
        b"G\xff\x01\0HERON   G\x02\x01\0ENGINE  G\xff\x01\0TERN    ",
        8,
        12,
    ),
    Case(b"G\xff\x01\0\x1fERON   ", 8, 0),
    Case(b"G\xff\x01\0HERON  \x1f", 8, 0),
    Case(b"G\xff\x01\0HER\x7fN   ", 8, 0),
    Case(b"G\xff\x01\0HERON  \xff", 8, 0),
];

const PLACE_RANGE: [Case; 9] = [
    Case(b"S\0\0E\0\0", 8, 0),
    Case(b"G\xff\x01\0HERON   S\x01\0", 8, 12),
    Case(b"G\xff\x01\0HERON   S\xff\0", 8, 12),
    Case(b"G\xff\x01\0HERON   S\0\x03", 8, 12),
    Case(b"G\xff\x01\0HERON   S\0\0S\0\xff", 8, 15),
    Case(b"G\xff\x01\0HERON   G\0\x01\0ENGINE  S\x01\0", 8, 24),
    Case(b"R\0\0\0E\0\0", 8, 0),
    Case(b"G\xff\x01\0HERON   R\x01\0\0", 8, 12),
    Case(b"G\xff\x01\0HERON   G\0\x01\0ENGINE  R\x01\0\0", 8, 24),
];

const TRAINEE_RANGE: [Case; 12] = [
    Case(b"T\0\0\x02ADA     ", 8, 0),
    Case(b"T\0\0\xffADA     ", 8, 0),
    Case(b"T\0\0\0\x1fDA     ", 8, 0),
    Case(b"T\0\0\0ADA    \x7f", 8, 0),
    Case(b"T\0\0\0ADA     W\0\0\0\0", 8, 12),
    Case(b"G\xff\x01\0HERON   T\0\0\0ADA     W\x01\0\0\0", 8, 24),
    Case(b"G\xff\x01\0HERON   T\0\0\0ADA     W\0\0\0\x0a", 8, 24),
    Case(b"T\0\0\0ADA     B\0", 8, 12),
    Case(b"G\xff\x01\0HERON   T\0\0\0ADA     B\xff", 8, 24),
    Case(
        b"G\xff\x01\0HERON   G\0\x01\0ENGINE  T\0\0\0ADA     B\x01",
        8,
        36,
    ),
    // A lot and a wish that repeat, with a field out of range.
    Case(b"T\0\0\0ADA     T\0\0\x02BEN     ", 8, 12),
    Case(
        b"G\xff\x01\0HERON   T\0\0\0ADA     W\0\0\0\0W\0\0\0\x0a",
        8,
        29,
    ),
];

const REPEATS: [Case; 9] = [
    Case(b"T\0\0\0ADA     T\0\0\0BEN     E\0\0", 9, 12),
    Case(
        b"T\x01\0\0ADA     T\x02\0\0BEN     T\x01\0\x01CAI     ",
        9,
        24,
    ),
    Case(b"T\xff\xff\0ADA     T\xff\xff\x01ADA     ", 9, 12),
    Case(b"G\xff\x01\0HERON   R\0\x01\0R\0\x02\0", 9, 16),
    Case(
        b"G\xff\x01\0HERON   G\xff\x01\0TERN    R\0\0\0R\x01\0\0R\0\0\0",
        9,
        32,
    ),
    Case(
        b"G\xff\x01\0HERON   T\0\0\0ADA     W\0\x01\0\0W\0\x02\0\x01",
        9,
        29,
    ),
    // Two groups of one dredger.
    Case(
        b"G\xff\x01\0HERON   G\0\x01\0ENGINE  T\0\0\0ADA     W\x01\0\0\0W\0\0\0\0",
        9,
        41,
    ),
    Case(b"G\xff\x01\0HERON   T\0\0\0ADA     B\0B\0", 9, 26),
    Case(b"G\xff\x01\0HERON   T\0\0\0ADA     B\0W\0\0\0\0B\0", 9, 31),
];

const WRONG_COUNT: [Case; 8] = [
    Case(b"E\x01\0", 10, 0),
    Case(b"E\0\x01", 10, 0),
    Case(b"T\0\0\0ADA     T\x01\0\0BEN     E\x02\0", 10, 24),
    Case(b"G\xff\x01\0HERON   T\0\0\0ADA     B\0E\x01\0", 10, 26),
    Case(b"G\xff\x01\0HERON   T\0\0\0ADA     W\0\0\0\0E\0\0", 10, 29),
    Case(
        b"G\xff\x01\0HERON   T\0\0\0ADA     W\0\0\0\0E\x01\x01",
        10,
        29,
    ),
    // Bytes after it are not asked for.
    Case(b"E\x01\0E", 10, 0),
    Case(b"E\x01\0E\0\0", 10, 0),
];

const TRAILING: [Case; 7] = [
    Case(b"E\0\0\0", 11, 3),
    Case(b"E\0\0E\0\0", 11, 3),
    Case(b"E\0\0E", 11, 3),
    Case(b"E\0\0E\x05\0", 11, 3),
    Case(b"E\0\0W", 11, 3),
    Case(b"G\xff\x01\0HERON   E\0\0G\xff\x01\0TERN    ", 11, 15),
    Case(
        b"G\xff\x01\0HERON   T\0\0\0ADA     W\0\0\0\0E\x01\0\n",
        11,
        32,
    ),
];

#[test]
fn bytes_of_a_record(rt: HostRuntime) {
    all_refused(&rt, "no byte", &NO_BYTE);
    all_refused(&rt, "no kind", &NO_KIND);
    all_refused(&rt, "short", &SHORT);
}

#[test]
fn places_of_a_record(rt: HostRuntime) {
    all_refused(&rt, "misplaced", &MISPLACED);
}

#[test]
fn ranges_of_fields(rt: HostRuntime) {
    all_refused(&rt, "groups", &GROUP_RANGE);
    all_refused(&rt, "seats and reserves", &PLACE_RANGE);
    all_refused(&rt, "trainees", &TRAINEE_RANGE);
}

#[test]
fn repeats_of_records(rt: HostRuntime) {
    all_refused(&rt, "repeats", &REPEATS);
}

#[test]
fn ends_of_decks(rt: HostRuntime) {
    all_refused(&rt, "wrong count", &WRONG_COUNT);
    all_refused(&rt, "trailing", &TRAILING);
}
