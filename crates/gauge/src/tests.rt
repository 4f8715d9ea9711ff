// Every gauge against the rules, each row through the same generic functions.
use super::*;
use at_least::AtLeast;
use std::process::Abort;

mod at_least;

// The rule, the signal, the condition's a and b, the word, and whether it is met.
type Row = (&'static str, u16, u16, u16, u16, bool);

const POSITIONS: &[Row] = &[
    ("bit 0 is the lowest", 0, 1, 0, 0, true),
    ("another bit", 0, 1, 0, 1, false),
    ("bit 15 is the highest", 9, 32768, 0, 15, true),
    ("all but bit 7", 9, 65407, 0, 7, false),
    ("all but bit 7, bit 8", 9, 65407, 0, 8, true),
    ("no bit", 9, 0, 0, 0, false),
    ("b is not 0", 9, 65535, 1, 3, false),
    ("b is not 0, high byte", 9, 65535, 256, 3, false),
    ("word 16 meets nothing", 65535, 65535, 0, 16, false),
    ("a word past 16 bits of a", 65535, 65535, 0, 65535, false),
];

const LEVELS: &[Row] = &[
    ("-1 in -1 to 0", 0, 65535, 0, 65535, true),
    ("0 in -1 to 0", 0, 65535, 0, 0, true),
    ("-32768 is below -1", 0, 65535, 0, 32768, false),
    ("1 is above 0", 0, 65535, 0, 1, false),
    ("the lowest level", 7, 32768, 32767, 32768, true),
    ("the highest level", 7, 32768, 32767, 32767, true),
    ("no level from 1 to 0", 7, 1, 0, 1, false),
    ("from 5 to -5 is empty", 7, 5, 65531, 5, false),
    ("one level alone", 65535, 300, 300, 300, true),
    ("beside one level alone", 65535, 300, 300, 301, false),
];

// Positions below 4, levels from 4 on; positions again from 20 on.
const NESTED: &[Row] = &[
    ("the last of the first positions", 3, 32768, 0, 15, true),
    ("the same there as levels", 4, 32768, 0, 15, false),
    ("levels, a negative one", 4, 65535, 3, 65535, true),
    ("the last of the levels", 19, 65535, 3, 65535, true),
    ("positions again", 20, 65535, 3, 65535, false),
    ("positions again, a bit", 20, 32768, 0, 15, true),
    ("the highest signal", 65535, 32768, 0, 15, true),
];

fn on(a: u16, b: u16) -> Condition {
    Condition { a, b }
}

fn check_rows<G: Gauge>(rt: &impl Abort, gauge: &G, rows: &[Row]) {
    for row in rows {
        let (rule, signal, a, b, word, met) = *row;
        assert_eq!(rt;
            gauge.meets(signal, Condition { a, b }, word),
            met,
            "{}",
            rule
        );
    }
}

#[test]
fn meets(rt: HostRuntime) {
    check_rows(&rt, &Positions, POSITIONS);
    check_rows(&rt, &Levels, LEVELS);
    check_rows(
        &rt,
        &Split::new(Positions, Split::new(Levels, Positions, 20), 4),
        NESTED,
    );
    check_rows(
        &rt,
        &Split::new(Split::new(Positions, Levels, 4), Positions, 20),
        NESTED,
    );
}

// The two kinds apart: below 32 as positions, from 32 on as levels.
#[test]
fn standard(rt: HostRuntime) {
    let gauge = standard_gauge();
    assert!(rt; gauge.meets(31, on(32768, 0), 15));
    assert!(rt; !gauge.meets(32, on(32768, 0), 15));
    assert!(rt; gauge.meets(32, on(65535, 0), 65535));
    assert!(rt; !gauge.meets(31, on(65535, 0), 65535));
    assert!(rt; meets_standard(31, on(32768, 0), 15));
    assert!(rt; !meets_standard(32, on(32768, 0), 15));
}

#[test]
fn lowest(rt: HostRuntime) {
    assert_eq!(rt; lowest_word(&Positions, 0, on(96, 0)), Some(5));
    assert_eq!(rt; lowest_word(&Positions, 0, on(96, 1)), None);
    // -2 to 3: as words, 0 to 3 and then 65534 and 65535.
    assert_eq!(rt; lowest_word(&Levels, 0, on(65534, 3)), Some(0));
    assert_eq!(rt; lowest_word(&Levels, 0, on(65534, 65535)), Some(65534));
    assert_eq!(rt; lowest_word(&Levels, 0, on(1, 0)), None);
    let gauge = Split::new(Positions, Levels, 1);
    assert_eq!(rt; lowest_word(&gauge, 0, on(32768, 0)), Some(15));
    assert_eq!(rt; lowest_word(&gauge, 1, on(32768, 32768)), Some(32768));
}

// A gauge of one's own goes wherever a gauge goes.
#[test]
fn another_gauge(rt: HostRuntime) {
    assert!(rt; !AtLeast.meets(0, on(40000, 0), 39999));
    assert_eq!(rt; lowest_word(&AtLeast, 0, on(40000, 0)), Some(40000));
    let gauge = Split::new(AtLeast, Levels, 8);
    assert!(rt; gauge.meets(7, on(1, 0), 65535));
    assert!(rt; !gauge.meets(8, on(1, 0), 65535));
}
