// The limits of a sheet from both sides.
use crate::parts::{Effect, Link, Need, Pair, Parts};
use crate::sheet::Sheet;
use gauge::Condition;
use sets::index_set::IndexSet;
use std::alloc::{AllocError, Global};
use std::test::Fail;

// One of each part, on a sheet of this many steps and signals; then whether that is a sheet.
#[derive(Clone, Copy)]
struct Row {
    what: &'static str,
    steps: u8,
    signals: u8,
    // step and signal
    effect: (u8, u8),
    need: (u8, u8),
    contributor: u8,
    pair: (u8, u8),
    made: bool,
}

const SOUND: Row = Row {
    what: "a small sheet",
    steps: 3,
    signals: 1,
    effect: (1, 0),
    need: (2, 0),
    contributor: 2,
    pair: (2, 2),
    made: true,
};

const LIMITS: [Row; 15] = [
    SOUND,
    Row {
        what: "64 of each",
        steps: 64,
        signals: 64,
        effect: (62, 63),
        need: (63, 63),
        contributor: 63,
        pair: (63, 0),
        ..SOUND
    },
    Row {
        what: "65 steps",
        steps: 65,
        made: false,
        ..SOUND
    },
    Row {
        what: "no signal",
        signals: 0,
        made: false,
        ..SOUND
    },
    Row {
        what: "65 signals",
        signals: 65,
        made: false,
        ..SOUND
    },
    Row {
        what: "an effect of the start",
        effect: (0, 0),
        made: false,
        ..SOUND
    },
    Row {
        what: "an effect of the finish",
        effect: (2, 0),
        made: false,
        ..SOUND
    },
    Row {
        what: "an effect on no signal",
        effect: (1, 1),
        made: false,
        ..SOUND
    },
    Row {
        what: "a need of the start",
        need: (0, 0),
        made: false,
        ..SOUND
    },
    Row {
        what: "a need of no step",
        need: (3, 0),
        made: false,
        ..SOUND
    },
    Row {
        what: "a need on no signal",
        need: (2, 1),
        made: false,
        ..SOUND
    },
    Row {
        what: "a contributor that is no step",
        contributor: 3,
        made: false,
        ..SOUND
    },
    Row {
        what: "no contributor",
        contributor: 64,
        ..SOUND
    },
    Row {
        what: "a pair from no step",
        pair: (3, 2),
        made: false,
        ..SOUND
    },
    Row {
        what: "a pair to no step",
        pair: (2, 3),
        made: false,
        ..SOUND
    },
];

// The sheet of a row, with the effect as often as said.
fn sheet_of(heap: Global, row: &Row, copies: u8) -> Result<Option<Sheet>, AllocError> {
    let mut starts = Vec::new(heap);
    starts.resize(usize::from(row.signals), 0)?;
    let mut effects = Vec::new(heap);
    for _ in 0..copies {
        effects.push(Effect {
            step: row.effect.0,
            signal: row.effect.1,
            word: 7,
        })?;
    }
    let link = Link::new(IndexSet::empty().with(row.contributor));
    let mut needs = Vec::new(heap);
    needs.push(Need {
        step: row.need.0,
        signal: row.need.1,
        condition: Condition { a: 1, b: 0 },
        link,
    })?;
    let mut pairs = Vec::new(heap);
    pairs.push(Pair {
        earlier: row.pair.0,
        later: row.pair.1,
    })?;
    Ok(Sheet::new(Parts {
        steps: row.steps,
        starts,
        effects,
        needs,
        pairs,
    }))
}

#[test]
fn limits(rt: HostRuntime) -> Result<(), Fail> {
    for row in LIMITS.iter() {
        assert_eq!(rt;
            sheet_of(rt.alloc(), row, 1)?.is_some(),
            row.made,
            "{}",
            row.what
        );
    }
    assert!(rt; sheet_of(rt.alloc(), &SOUND, 0)?.is_some());
    assert!(rt;
        sheet_of(rt.alloc(), &SOUND, 2)?.is_none(),
        "two effects of one step on one signal"
    );
    Ok(())
}

fn step_of(need: Need) -> u8 {
    need.step
}

fn is_linked(link: Option<Link>) -> bool {
    link.is_some()
}

fn bound_of(bounded: (u8, IndexSet)) -> u8 {
    bounded.0
}

// Each passes its argument on by value, and uses it again.
fn step_and(need: Need) -> (u8, Need) {
    (step_of(need), need)
}

fn linked_twice(link: Option<Link>) -> bool {
    is_linked(link) && is_linked(link)
}

fn bound_twice(bounded: (u8, IndexSet)) -> (u8, u8) {
    (bound_of(bounded), bound_of(bounded))
}

// A need, its link and a set are copied, alone or in what holds them.
#[test]
fn copied(rt: HostRuntime) {
    let set = IndexSet::empty().with(3);
    let need = Need {
        step: 2,
        signal: 0,
        condition: Condition { a: 1, b: 0 },
        link: Link::new(set),
    };
    let (step, same) = step_and(need);
    assert_eq!(rt; (step, same.step), (2, 2));
    assert!(rt; linked_twice(same.link));
    assert_eq!(rt; bound_twice((4, set)), (4, 4));
}
