// What the sheet and the names of a file are.
use faults::fault::{Fault, Layer};
use reader::{ReadError, name, read};
use records::record::Part;
use sheet::parts::Need;
use sheet::sheet::Sheet;
use std::alloc::Global;
use std::test::Fail;

// Three steps, one signal at 258. Step 1 sets it to 1 and has need 0; the finish has need 1, with no link. A link record
// that names step 2 twice. A name for step 1.
const SHEET: &[u8] =
    b"SH\x03\x01SG\x01\x02EF\x01\x00\xff\x01ND\x01\x00\x00\x01\x00\x02ND\x02\x00\x80\x00\x00\x00LK\x00\x03\x02\x00\x02PR\x00\x01NM\x01\x05PressEN";

fn sheet_of(heap: Global) -> Result<Sheet, Fail> {
    match read(heap, SHEET) {
        Ok(sheet) => Ok(sheet),
        Err(ReadError::Fault(_)) => Err(Fail::new("a fault")),
        Err(ReadError::Memory) => Err(Fail::new("no memory")),
    }
}

#[test]
fn parts(rt: HostRuntime) -> Result<(), Fail> {
    let sheet = sheet_of(rt.alloc())?;
    assert_eq!(rt; sheet.steps(), 3);
    assert_eq!(rt; sheet.starts(), [258].as_slice());
    let [effect] = sheet.effects() else {
        return Err(Fail::new("one effect"));
    };
    assert_eq!(rt; (effect.step, effect.signal, effect.word), (1, 0, 65281));
    let [pair] = sheet.pairs() else {
        return Err(Fail::new("one pair"));
    };
    assert_eq!(rt; (pair.earlier, pair.later), (0, 1));
    Ok(())
}

fn fields(need: &Need) -> (u8, u8, u16, u16) {
    (need.step, need.signal, need.condition.a, need.condition.b)
}

// A contributor that is named twice counts once.
#[test]
fn needs_and_links(rt: HostRuntime) -> Result<(), Fail> {
    let sheet = sheet_of(rt.alloc())?;
    let [linked, unlinked] = sheet.needs() else {
        return Err(Fail::new("two needs"));
    };
    assert_eq!(rt; fields(linked), (1, 0, 1, 2));
    assert_eq!(rt; fields(unlinked), (2, 0, 32768, 0));
    assert!(rt; unlinked.link.is_none());
    let Some(link) = linked.link else {
        return Err(Fail::new("a link"));
    };
    let contributors = link.contributors();
    assert_eq!(rt;
        (
            contributors.contains(0),
            contributors.contains(1),
            contributors.contains(2),
        ),
        (true, false, true)
    );
    Ok(())
}

// Number, place and layer.
fn fault_of(r: Result<Option<Part>, Fault>) -> Option<(u8, u16, Layer)> {
    match r {
        Ok(_) => None,
        Err(fault) => Some((fault.number(), fault.place(), fault.layer())),
    }
}

#[test]
fn a_name(rt: HostRuntime) -> Result<(), Fail> {
    let Ok(Some(part)) = name(SHEET, 1) else {
        return Err(Fail::new("a name"));
    };
    assert_eq!(rt; part.place, 45);
    assert_eq!(rt; part.bytes, b"Press".as_slice());
    Ok(())
}

const UNNAMED: &[(&str, &[u8], u16, Option<(u8, u16, Layer)>)] = &[
    ("a step without a name", SHEET, 0, None),
    ("the finish", SHEET, 2, None),
    (
        "the first number that is no step",
        SHEET,
        3,
        Some((31, 3, Layer::Run)),
    ),
    (
        "the last number",
        SHEET,
        65535,
        Some((31, 65535, Layer::Run)),
    ),
    (
        "the file's fault ahead of the step",
        b"SH\x03\x01SG\x00\x00",
        65535,
        Some((1, 8, Layer::Reader)),
    ),
    (
        "a second name",
        b"SH\x03\x01SG\x00\x00NM\x01\x01ANM\x01\x01BEN",
        1,
        Some((6, 13, Layer::Reader)),
    ),
];

#[test]
fn no_name(rt: HostRuntime) {
    for &(what, file, step, fault) in UNNAMED {
        assert_eq!(rt; fault_of(name(file, step)), fault, "{what}");
    }
}
