use std::test::Fail;
use svr_num::{
    Hit, SCORE_MAX, clamp_score, floor_div, get_u16, get_u32, get_u64, put_u16, put_u32, put_u64,
    rank_hits, read_digits, read_int,
};

/// Numbers, by what they are divided, and the quotients rounded down.
const QUOTIENTS: &[(i128, i128, i128)] = &[
    (7, 2, 3),
    (-7, 2, -4),
    (-8, 2, -4),
    (0, 5, 0),
    (-1, 1_000_000_000, -1),
    (i128::MAX, 1, i128::MAX),
    (i128::MIN, 1, i128::MIN),
    (
        i128::MAX,
        1_000_000_000,
        170_141_183_460_469_231_731_687_303_715,
    ),
    (
        i128::MIN,
        1_000_000_000,
        -170_141_183_460_469_231_731_687_303_716,
    ),
];

/// Numbers, and the scores that are nearest.
const SCORES: &[(i128, u64)] = &[
    (i128::MIN, 0),
    (-1, 0),
    (0, 0),
    (1, 1),
    ((1 << 48) - 2, 281_474_976_710_654),
    ((1 << 48) - 1, 281_474_976_710_655),
    (1 << 48, 281_474_976_710_655),
    (1 << 64, 281_474_976_710_655),
    (i128::MAX, 281_474_976_710_655),
];

/// Texts, and the number that their digits write, and that a sign and digits write.
const DIGITS: &[(&[u8], Option<u64>, Option<i64>)] = &[
    (b"", None, None),
    (b"0", Some(0), Some(0)),
    (b"00016", Some(16), Some(16)),
    (b"18446744073709551615", Some(u64::MAX), None),
    (b"018446744073709551615", Some(u64::MAX), None),
    (b"18446744073709551616", None, None),
    (b"+1", None, Some(1)),
    (b"-1", None, Some(-1)),
    (b"1 ", None, None),
    (b" 1", None, None),
    (b"1a", None, None),
    (b"1_0", None, None),
    (b"\xd9\xa1", None, None),
    (
        b"9223372036854775807",
        Some(9_223_372_036_854_775_807),
        Some(i64::MAX),
    ),
    (
        b"9223372036854775808",
        Some(9_223_372_036_854_775_808),
        None,
    ),
    (b"-9223372036854775808", None, Some(i64::MIN)),
    (b"-9223372036854775809", None, None),
    (b"+5", None, Some(5)),
    (b"-0", None, Some(0)),
    (b"-007", None, Some(-7)),
    (b"+", None, None),
    (b"-", None, None),
    (b"- 1", None, None),
    (b"+-1", None, None),
    (b"--1", None, None),
    (b"5.0", None, None),
    (b"1e3", None, None),
    (b"5-", None, None),
    (b"\xff", None, None),
    (b"1\xff", None, None),
    (b"\xc3", None, None),
    (b"1\0", None, None),
];

fn quotients_are_rounded_down() -> bool {
    QUOTIENTS
        .iter()
        .all(|(a, b, wanted)| *b >= 1 && floor_div(*a, *b) == *wanted)
}

fn scores_are_clamped() -> bool {
    SCORES
        .iter()
        .all(|(number, score)| clamp_score(*number) == *score)
        && SCORE_MAX == 281_474_976_710_655
}

fn digits_are_read() -> bool {
    DIGITS.iter().all(|(text, digits, int)| read_digits(text) == *digits && read_int(text) == *int)
}

/// The highest byte comes first, and no byte beside the number is changed.
fn numbers_stand_at_their_places() -> bool {
    let mut bytes = [0xee; 19];
    put_u16(&mut bytes, 1, 0x0102);
    put_u32(&mut bytes, 4, 0x0304_0506);
    put_u64(&mut bytes, 9, 0x0708_090a_0b0c_0d0e);
    let wanted = [
        0xee, 1, 2, 0xee, 3, 4, 5, 6, 0xee, 7, 8, 9, 10, 11, 12, 13, 14, 0xee, 0xee,
    ];
    let at_places = (get_u16(&bytes, 1), get_u32(&bytes, 4), get_u64(&bytes, 9));
    let beside = (get_u16(&bytes, 0), get_u32(&bytes, 15), get_u64(&bytes, 0));
    bytes == wanted
        && at_places == (0x0102, 0x0304_0506, 0x0708_090a_0b0c_0d0e)
        && beside == (0xee01, 0x0d0e_eeee, 0xee01_02ee_0304_0506)
}

/// A number may fill the whole slice.
fn numbers_fill_their_bytes() -> bool {
    let mut two = [0; 2];
    put_u16(&mut two, 0, u16::MAX);
    let mut four = [0; 4];
    put_u32(&mut four, 0, 1 << 31);
    let mut eight = [255; 8];
    put_u64(&mut eight, 0, 1);
    let read = (get_u16(&two, 0), get_u32(&four, 0), get_u64(&eight, 0));
    read == (u16::MAX, 1 << 31, 1)
        && two == [255, 255]
        && four == [128, 0, 0, 0]
        && eight == [0, 0, 0, 0, 0, 0, 0, 1]
}

/// The score descends, and of one score the id ascends.
fn hits_are_ranked() -> bool {
    let hit = |id: u64, score: u64| Hit { id, score };
    let mut hits = [hit(9, 7), hit(3, 7), hit(1, 6), hit(4, 8)];
    rank_hits(&mut hits);
    hits == [hit(4, 8), hit(3, 7), hit(9, 7), hit(1, 6)]
}

#[test]
fn numbers_are_exact(rt: HostRuntime) -> Result<(), Fail> {
    let divided = quotients_are_rounded_down() && scores_are_clamped();
    let read = digits_are_read();
    let kept = numbers_stand_at_their_places() && numbers_fill_their_bytes();
    let ranked = hits_are_ranked();
    assert!(rt;
        divided && read && kept && ranked,
        "{divided} {read} {kept} {ranked}"
    );
    Ok(())
}
