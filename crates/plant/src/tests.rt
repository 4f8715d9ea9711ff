// Both plants against the rules, each row through the same generic functions.
use super::*;
use faults::fault::{Fault, Layer, PlantFault};
use lamp::Lamp;
use std::process::Abort;
use std::test::Fail;

mod lamp;

// The rule, the signal, the word, and the number of the fault if the write is refused.
type Row = (&'static str, u16, u16, Option<u8>);

const ON_A_RACK_OF_3: &[Row] = &[
    ("the first signal", 0, 65535, None),
    ("the last signal", 2, 1, None),
    ("another word", 2, 256, None),
    ("the signal past the last", 3, 0, Some(40)),
    ("the highest signal", 65535, 65535, Some(40)),
    ("a word back to 0", 0, 0, None),
];

const ON_A_FULL_RACK: &[Row] = &[
    ("the last signal", 127, 32768, None),
    ("the signal past the last", 128, 32768, Some(40)),
    ("the first signal", 0, 7, None),
];

const ON_A_PANEL: &[Row] = &[
    ("the first signal", 0, 1, None),
    ("its neighbour", 1, 1, None),
    ("the last signal of the lower half", 63, 1, None),
    ("the first signal of the upper half", 64, 1, None),
    ("the last signal", 127, 1, None),
    ("1 again", 127, 1, None),
    ("back to 0", 1, 0, None),
    ("0 again", 1, 0, None),
    ("above the top", 5, 2, Some(41)),
    ("far above the top", 0, 65535, Some(41)),
    ("the signal past the last", 128, 1, Some(40)),
    ("the signal is tested first", 128, 2, Some(40)),
];

const ON_A_LAMP: &[Row] = &[
    ("lit", 0, 1, None),
    ("above the top", 0, 2, Some(41)),
    ("the signal past the last", 1, 0, Some(40)),
    ("dark", 0, 0, None),
];

fn check_fault(rt: &impl Abort, rule: &str, fault: PlantFault, number: u8, place: u16) {
    let fault = Fault::from(fault);
    assert_eq!(rt;
        (fault.number(), fault.place()),
        (number, place),
        "{}",
        rule
    );
    assert_eq!(rt; fault.layer(), Layer::Plant, "{}", rule);
}

// Writes one row, and compares all words with those that should stand there.
fn check_row<P: Plant>(
    rt: &impl Abort,
    plant: &mut P,
    row: &Row,
    held: &mut [u16; 128],
) -> Result<(), Fail> {
    let (rule, signal, word, refused) = *row;
    match (plant.write(signal, word), refused) {
        (Err(fault), Some(number)) => check_fault(rt, rule, fault, number, signal),
        (Ok(()), None) => {
            let slot = held.get_mut(usize::from(signal)).ok_or(rule)?;
            *slot = word;
        }
        (Err(_), None) | (Ok(()), Some(_)) => return Err(Fail::new(rule)),
    }
    let words = held.get(..usize::from(plant.count())).ok_or(rule)?;
    assert_eq!(rt; first_difference(plant, words), None, "{}", rule);
    Ok(())
}

fn check_rows<P: Plant>(rt: &impl Abort, plant: &mut P, rows: &[Row]) -> Result<(), Fail> {
    let mut held = [0; 128];
    for row in rows {
        check_row(rt, plant, row, &mut held)?;
    }
    Ok(())
}

#[test]
fn writes(rt: HostRuntime) -> Result<(), Fail> {
    check_rows(&rt, &mut Rack::new(3), ON_A_RACK_OF_3)?;
    check_rows(&rt, &mut Rack::new(128), ON_A_FULL_RACK)?;
    check_rows(&rt, &mut Panel::new(), ON_A_PANEL)?;
    check_rows(&rt, &mut Lamp::dark(), ON_A_LAMP)
}

// Signals, top word and zeros of a plant that was just made.
fn check_new<P: Plant>(rt: &impl Abort, plant: &P, count: u16, top: u16) -> Result<(), Fail> {
    assert_eq!(rt; (plant.count(), plant.top()), (count, top));
    let zeros = [0; 128];
    let words = zeros.get(..usize::from(count)).ok_or("too many signals")?;
    assert_eq!(rt; first_difference(plant, words), None);
    match plant.read(count) {
        Ok(_) => Err(Fail::new("a signal past the last")),
        Err(fault) => {
            check_fault(rt, "a signal past the last", fault, 40, count);
            Ok(())
        }
    }
}

#[test]
fn new_plants(rt: HostRuntime) -> Result<(), Fail> {
    for (signals, count) in [
        (0, 0),
        (1, 1),
        (127, 127),
        (128, 128),
        (129, 128),
        (65535, 128),
    ] {
        check_new(&rt, &Rack::new(signals), count, 65535)?;
    }
    check_new(&rt, &Panel::new(), 128, 1)?;
    check_new(&rt, &Lamp::dark(), 1, 1)
}

// A list too long, a word too high, and a list that is taken: its words stand there, the others stay.
fn check_setting<P: Plant>(rt: &impl Abort, plant: &mut P) -> Result<(), Fail> {
    assert!(rt; set_words(plant, &[0, 1, 1]).is_ok());
    assert_eq!(rt; first_difference(plant, &[0, 1, 1]), None);
    assert_eq!(rt; first_difference(plant, &[0, 0, 1]), Some(1));
    assert!(rt; set_words(plant, &[1]).is_ok());
    assert_eq!(rt; first_difference(plant, &[1, 1, 1]), None);
    match set_words(plant, &[0; 129]) {
        Ok(()) => Err(Fail::new("a list too long was taken")),
        Err(fault) => {
            check_fault(rt, "a list too long", fault, 40, plant.count());
            assert_eq!(rt; first_difference(plant, &[1, 1, 1]), None);
            assert_eq!(rt; first_difference(plant, &[1, 1, 1, 1]), Some(3));
            Ok(())
        }
    }
}

#[test]
fn lists_of_words(rt: HostRuntime) -> Result<(), Fail> {
    check_setting(&rt, &mut Rack::new(3))?;
    check_setting(&rt, &mut Rack::new(128))?;
    check_setting(&rt, &mut Panel::new())?;
    let mut panel = Panel::new();
    match set_words(&mut panel, &[1, 0, 2]) {
        Ok(()) => Err(Fail::new("a word above the top was taken")),
        Err(fault) => {
            check_fault(&rt, "a word above the top", fault, 41, 2);
            assert_eq!(rt; first_difference(&panel, &[0, 0, 0]), None);
            Ok(())
        }
    }
}

// The bits are packed.
#[test]
fn a_panel_is_16_bytes(rt: HostRuntime) {
    assert_eq!(rt; size_of::<Panel>(), 16);
}
