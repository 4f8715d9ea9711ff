// The records of a sheet file, as parts of the file.
use gauge::Condition;
use sheet::parts::Effect;

// The two letters that a record begins with say its kind. No `==` and no `Debug` here: nothing compares or prints these, and each
// derive is proved anew.
#[derive(Clone, Copy)]
pub enum Mark {
    Header,
    Start,
    Effect,
    Need,
    Pair,
    Link,
    Name,
    End,
}

// Some bytes of the file, with the offset of the first.
#[derive(Clone, Copy)]
pub struct Part<'a> {
    pub place: usize,
    pub bytes: &'a [u8],
}

#[derive(Clone, Copy)]
pub enum Record<'a> {
    Header {
        steps: u8,
        signals: u8,
    },
    Start {
        word: u16,
    },
    Effect {
        effect: Effect,
    },
    Need {
        step: u8,
        signal: u8,
        condition: Condition,
    },
    Pair {
        earlier: u8,
        later: u8,
    },
    Link {
        need: u8,
        contributors: Part<'a>,
    },
    Name {
        step: u8,
        name: Part<'a>,
    },
    End,
}
