// Files that break one rule each, the limits from both sides, cuts at every byte, and the longest file.
use faults::fault::Fault;
use reader::{ReadError, read};
use std::alloc::{AllocError, Global};
use std::test::Fail;

// Three steps, one signal that starts at 0: eight bytes.
const HEAD: &[u8] = b"SH\x03\x01SG\x00\x00";

// The small sheet with two needs. Its records begin at 0, 4, 8, 14, 22, 30, 35 and 40.
const SMALL: &[u8] =
    b"SH\x03\x01SG\x00\x00EF\x01\x00\x00\x01ND\x01\x00\x00\x01\x00\x00ND\x02\x00\x00\x02\x00\x00LK\x00\x01\x00LK\x01\x01\x01EN";

const AFTER_HEAD: &[(&str, &[u8], u8, u16)] = &[
    ("ends ahead of EN", b"", 1, 8),
    ("half a mark", b"E", 1, 8),
    ("EF without fields", b"EF", 1, 8),
    ("EF one byte short", b"EF\x01\x00\x00", 1, 8),
    ("ND one byte short", b"ND\x01\x00\x00\x01\x00", 1, 8),
    ("PR one byte short", b"PR\x00", 1, 8),
    ("LK without its count", b"LK\x00", 1, 8),
    ("LK one contributor short", b"LK\x00\x02\x00", 1, 8),
    ("NM without its length", b"NM\x01", 1, 8),
    ("NM one byte short", b"NM\x01\x02A", 1, 8),
    ("unknown mark", b"XXEN", 2, 8),
    ("mark in small letters", b"enEN", 2, 8),
    ("letters of two marks", b"SFEN", 2, 8),
    ("second SH", b"SH\x03\x01EN", 2, 8),
    ("bare second SH", b"SH", 2, 8),
    ("SG past the last signal", b"SG\x00\x00EN", 2, 8),
    ("LK with k 0", b"LK\x00\x00EN", 3, 8),
    ("LK with k 65", b"LK\x00\x41EN", 3, 8),
    ("NM with length 0", b"NM\x01\x00EN", 3, 8),
    ("NM with length 25", b"NM\x01\x19EN", 3, 8),
    ("EF on no step", b"EF\x03\x00\x00\x01EN", 4, 8),
    ("EF on no signal", b"EF\x01\x01\x00\x01EN", 4, 8),
    ("ND of no step", b"ND\x03\x00\x00\x01\x00\x00EN", 4, 8),
    ("ND on no signal", b"ND\x01\x01\x00\x01\x00\x00EN", 4, 8),
    ("PR from no step", b"PR\x03\x01EN", 4, 8),
    ("PR to no step", b"PR\x01\x03EN", 4, 8),
    ("LK for no need", b"LK\x00\x01\x00EN", 4, 8),
    (
        "LK for a need that comes later",
        b"LK\x00\x01\x00ND\x01\x00\x00\x01\x00\x00EN",
        4,
        8,
    ),
    (
        "LK by no step",
        b"ND\x01\x00\x00\x01\x00\x00LK\x00\x02\x00\x03EN",
        4,
        16,
    ),
    ("NM of no step", b"NM\x03\x01AEN", 4, 8),
    ("EF on the start", b"EF\x00\x00\x00\x01EN", 5, 8),
    ("EF on the finish", b"EF\x02\x00\x00\x01EN", 5, 8),
    ("ND of the start", b"ND\x00\x00\x00\x01\x00\x00EN", 5, 8),
    (
        "second EF for a step and signal",
        b"EF\x01\x00\x00\x01EF\x01\x00\x00\x02EN",
        6,
        14,
    ),
    ("second NM for a step", b"NM\x01\x01ANM\x01\x01BEN", 6, 13),
    (
        "second LK for a need",
        b"ND\x01\x00\x00\x01\x00\x00LK\x00\x01\x00LK\x00\x01\x00EN",
        7,
        21,
    ),
    ("a byte after EN", b"EN\x00", 9, 10),
    ("a record after EN", b"ENPR\x00\x01", 9, 10),
    (
        "no signal ahead of the start",
        b"EF\x00\x01\x00\x01EN",
        4,
        8,
    ),
    (
        "no signal ahead of the start's need",
        b"ND\x00\x01\x00\x01\x00\x00EN",
        4,
        8,
    ),
    (
        "no step ahead of a second link",
        b"ND\x01\x00\x00\x01\x00\x00LK\x00\x01\x00LK\x00\x01\x03EN",
        4,
        21,
    ),
    ("limits ahead of the rest", b"LK\x00\x41", 3, 8),
    ("fixed fields ahead of limits", b"NM\x01", 1, 8),
    (
        "the first faulty record decides",
        b"EF\x00\x00\x00\x01PR\x03\x03EN",
        5,
        8,
    ),
    ("a fault ahead of a cut", b"PR\x03\x01P", 4, 8),
    ("a mark ahead of a cut", b"SG", 2, 8),
];

const WHOLE: &[(&str, &[u8], u8, u16)] = &[
    ("empty", b"", 1, 0),
    ("one byte", b"S", 1, 0),
    ("SH one byte short", b"SH\x03", 1, 0),
    ("ends after SH", b"SH\x03\x01", 1, 4),
    ("SG one byte short", b"SH\x03\x01SG\x00", 1, 4),
    ("SG first", b"SG", 2, 0),
    ("EF first", b"EF", 2, 0),
    ("ND first", b"ND", 2, 0),
    ("PR first", b"PR", 2, 0),
    ("LK first", b"LK", 2, 0),
    ("NM first", b"NM", 2, 0),
    ("EN first", b"EN", 2, 0),
    ("SH in place of SG", b"SH\x03\x01SH", 2, 4),
    ("EF in place of SG", b"SH\x03\x01EF", 2, 4),
    ("ND in place of SG", b"SH\x03\x01ND", 2, 4),
    ("PR in place of SG", b"SH\x03\x01PR", 2, 4),
    ("LK in place of SG", b"SH\x03\x01LK", 2, 4),
    ("NM in place of SG", b"SH\x03\x01NM", 2, 4),
    ("EN in place of SG", b"SH\x03\x01EN", 2, 4),
    (
        "EN in place of the second SG",
        b"SH\x03\x02SG\x00\x00EN",
        2,
        8,
    ),
    ("no step", b"SH\x00\x01", 3, 0),
    ("one step", b"SH\x01\x01", 3, 0),
    ("65 steps", b"SH\x41\x01", 3, 0),
    ("no signal", b"SH\x03\x00", 3, 0),
    ("65 signals", b"SH\x03\x41", 3, 0),
];

// Number and place of the file's fault, or nothing where it is read.
fn fault_of(heap: Global, file: &[u8]) -> Result<Option<(u8, u16)>, Fail> {
    match read(heap, file) {
        Ok(_) => Ok(None),
        Err(ReadError::Fault(fault)) => {
            let fault = Fault::Reader(fault);
            Ok(Some((fault.number(), fault.place())))
        }
        Err(ReadError::Memory) => Err(Fail::new("no memory")),
    }
}

// What stands after the head, with the number and the place of the fault.
#[test]
fn after_the_head(rt: HostRuntime) -> Result<(), Fail> {
    for &(what, rest, number, place) in AFTER_HEAD {
        let mut file = HEAD.to_vec(rt.alloc())?;
        file.extend_from_slice(rest)?;
        assert_eq!(rt;
            fault_of(rt.alloc(), &file)?,
            Some((number, place)),
            "{}",
            what
        );
    }
    Ok(())
}

// Whole files.
#[test]
fn whole_files(rt: HostRuntime) -> Result<(), Fail> {
    for &(what, file, number, place) in WHOLE {
        assert_eq!(rt;
            fault_of(rt.alloc(), file)?,
            Some((number, place)),
            "{}",
            what
        );
    }
    Ok(())
}

// A header and the start words, all 0.
fn headed(heap: Global, steps: u8, signals: u8) -> Result<Vec<u8>, AllocError> {
    let mut file = Vec::new(heap);
    file.extend_from_slice(&[b'S', b'H', steps, signals])?;
    for _ in 0..signals {
        file.extend_from_slice(b"SG\x00\x00")?;
    }
    Ok(file)
}

// 62 steps may have effects, each on 64 signals; no two of the first 256 are alike.
fn add_effects(file: &mut Vec<u8>, count: u16) -> Result<(), AllocError> {
    for i in 0..count {
        file.extend_from_slice(&[b'E', b'F', (1 + i / 64 % 62) as u8, (i % 64) as u8, 0, 1])?;
    }
    Ok(())
}

fn add_copies(file: &mut Vec<u8>, one: &[u8], count: u16) -> Result<(), AllocError> {
    for _ in 0..count {
        file.extend_from_slice(one)?;
    }
    Ok(())
}

const SIZES: &[(u8, u8, Option<(u8, u16)>)] = &[
    (2, 1, None),
    (64, 64, None),
    (1, 1, Some((3, 0))),
    (65, 1, Some((3, 0))),
    (2, 65, Some((3, 0))),
];

#[test]
fn steps_and_signals(rt: HostRuntime) -> Result<(), Fail> {
    for &(steps, signals, fault) in SIZES {
        let mut file = headed(rt.alloc(), steps, signals)?;
        file.extend_from_slice(b"EN")?;
        assert_eq!(rt; fault_of(rt.alloc(), &file)?, fault);
    }
    Ok(())
}

// A record as often as it may come, and one more record: a count is tested after every other rule.
const COUNTED: &[(&str, &[u8], u16, &[u8], u8, u16)] = &[
    (
        "257 ND",
        b"ND\x01\x00\x00\x01\x00\x00",
        256,
        b"ND\x01\x00\x00\x01\x00\x00EN",
        8,
        2056,
    ),
    (
        "the start's need ahead of the count",
        b"ND\x01\x00\x00\x01\x00\x00",
        256,
        b"ND\x00\x00\x00\x01\x00\x00EN",
        5,
        2056,
    ),
    ("513 PR", b"PR\x00\x01", 512, b"PR\x00\x01EN", 8, 2056),
    (
        "no such step ahead of the count",
        b"PR\x00\x01",
        512,
        b"PR\x03\x01EN",
        4,
        2056,
    ),
];

#[test]
fn counts(rt: HostRuntime) -> Result<(), Fail> {
    for &(what, one, count, last, number, place) in COUNTED {
        let mut file = HEAD.to_vec(rt.alloc())?;
        add_copies(&mut file, one, count)?;
        file.extend_from_slice(last)?;
        assert_eq!(rt;
            fault_of(rt.alloc(), &file)?,
            Some((number, place)),
            "{}",
            what
        );
    }
    Ok(())
}

// The header and 64 start words take 260 bytes, and 256 effects 1,536.
const EFFECTS: &[(&str, &[u8], u8, u16)] = &[
    ("257 EF", b"EF\x05\x00\x00\x01EN", 8, 1796),
    (
        "a repeat ahead of the count",
        b"EF\x01\x00\x00\x01EN",
        6,
        1796,
    ),
];

#[test]
fn effect_counts(rt: HostRuntime) -> Result<(), Fail> {
    for &(what, last, number, place) in EFFECTS {
        let mut file = headed(rt.alloc(), 64, 64)?;
        add_effects(&mut file, 256)?;
        file.extend_from_slice(last)?;
        assert_eq!(rt;
            fault_of(rt.alloc(), &file)?,
            Some((number, place)),
            "{}",
            what
        );
    }
    Ok(())
}

// The small sheet with a record as often as said ahead of its EN, which stood at 40.
const GROWN: &[(&[u8], u16, u8, u16)] = &[
    (b"PR\x07\x01", 1, 4, 40),
    (b"ND\x01\x00\x00\x01\x00\x00", 255, 8, 2072),
];

#[test]
fn small_sheet_and_more(rt: HostRuntime) -> Result<(), Fail> {
    assert!(rt; SMALL.len() == 42);
    for &(one, count, number, place) in GROWN {
        let mut file = SMALL[0..40].to_vec(rt.alloc())?;
        add_copies(&mut file, one, count)?;
        file.extend_from_slice(b"EN")?;
        assert_eq!(rt; fault_of(rt.alloc(), &file)?, Some((number, place)));
    }
    Ok(())
}

// A file that is cut ends inside the record that the cut falls into, or ahead of it.
#[test]
fn cut_at_every_byte(rt: HostRuntime) -> Result<(), Fail> {
    let mut place = 0u16;
    for cut in 0..SMALL.len() {
        if matches!(cut, 4 | 8 | 14 | 22 | 30 | 35 | 40) {
            place = cut as u16;
        }
        assert_eq!(rt; fault_of(rt.alloc(), &SMALL[0..cut])?, Some((1, place)));
    }
    assert_eq!(rt; fault_of(rt.alloc(), SMALL)?, None);
    Ok(())
}

// Contributor counts and name lengths from both sides.
const LENGTHS: &[(&[u8], u16, Option<(u8, u16)>)] = &[
    (b"LK\x00", 0, Some((3, 16))),
    (b"LK\x00", 1, None),
    (b"LK\x00", 64, None),
    (b"LK\x00", 65, Some((3, 16))),
    (b"NM\x01", 0, Some((3, 16))),
    (b"NM\x01", 1, None),
    (b"NM\x01", 24, None),
    (b"NM\x01", 25, Some((3, 16))),
];

#[test]
fn lengths(rt: HostRuntime) -> Result<(), Fail> {
    for &(record, length, fault) in LENGTHS {
        let mut file = HEAD.to_vec(rt.alloc())?;
        file.extend_from_slice(b"ND\x01\x00\x00\x01\x00\x00")?;
        file.extend_from_slice(record)?;
        file.push((length % 256) as u8)?;
        add_copies(&mut file, b"\x01", length)?;
        file.extend_from_slice(b"EN")?;
        assert_eq!(rt; fault_of(rt.alloc(), &file)?, fault);
    }
    Ok(())
}

// 4 + 64 * 4 + 256 * 6 + 256 * 8 + 512 * 4 + 256 * 68 + 64 * 28 + 2 bytes.
#[test]
fn longest(rt: HostRuntime) -> Result<(), Fail> {
    let mut file = headed(rt.alloc(), 64, 64)?;
    add_effects(&mut file, 256)?;
    add_copies(&mut file, b"ND\x01\x00\x00\x01\x00\x00", 256)?;
    add_copies(&mut file, b"PR\x00\x01", 512)?;
    for need in 0..256u16 {
        file.extend_from_slice(&[b'L', b'K', need as u8, 64])?;
        add_copies(&mut file, b"\x3f", 64)?;
    }
    for step in 0..64u8 {
        file.extend_from_slice(&[b'N', b'M', step, 24])?;
        add_copies(&mut file, b"x", 24)?;
    }
    file.extend_from_slice(b"EN")?;
    assert_eq!(rt; file.len(), 25094);
    assert_eq!(rt; fault_of(rt.alloc(), &file)?, None);
    file.push(0)?;
    assert_eq!(rt; fault_of(rt.alloc(), &file)?, Some((9, 25094)));
    add_copies(&mut file, b"EN", 40000)?;
    assert_eq!(rt;
        fault_of(rt.alloc(), &file)?,
        Some((9, 25094)),
        "however long the file goes on"
    );
    Ok(())
}
