// The line of each part of a sheet.
ghost use Rattle.std.specs.Prelude.{OnOk};
ghost use Rattle.sets.specs.Sets.{members};
ghost use Rattle.listing.specs.Appending.{Appended};
ghost use Rattle.listing.specs.Listing.{signal_line, effect_line, need_line, pair_line, spaced, link_text};

use crate::lines::Line;
use gauge::Condition;
use sets::index_set::IndexSet;
use sheet::parts::{Effect, Link, Need, Pair};
use std::alloc::AllocError;

// A start word has the line of its signal.
impl Line for u16 {
    ghost line = { signal_line };

    fn push_line(&self, text: &mut String, number: usize) -> Result<(), AllocError> {
        writeln!(text, "SIGNAL {number} word {self}")
    }
}

impl Line for Effect {
    ghost line = { effect_line };

    fn push_line(&self, text: &mut String, number: usize) -> Result<(), AllocError> {
        let Effect { step, signal, word } = *self;
        writeln!(
            text,
            "EFFECT {number} step {step} signal {signal} word {word}"
        )
    }
}

fn push_members(text: &mut String, set: IndexSet) -> Result<(), AllocError>
    ensures { OnOk result (Appended text.old text.new (spaced (members set))) }
{
    for k in set.iter() {
        write!(text, " {k}")?;
    }
    Ok(())
}

fn push_link(text: &mut String, link: Option<Link>) -> Result<(), AllocError>
    ensures { OnOk result (Appended text.old text.new (link_text link)) }
{
    match link {
        Some(link) => push_members(text, link.contributors()),
        None => text.push_str(" none"),
    }
}

impl Line for Need {
    ghost line = { need_line };

    fn push_line(&self, text: &mut String, number: usize) -> Result<(), AllocError> {
        let Need {
            step,
            signal,
            condition: Condition { a, b },
            link,
        } = *self;
        write!(
            text,
            "NEED {number} step {step} signal {signal} a {a} b {b} link"
        )?;
        push_link(text, link)?;
        text.push_str("\n")
    }
}

impl Line for Pair {
    ghost line = { pair_line };

    fn push_line(&self, text: &mut String, number: usize) -> Result<(), AllocError> {
        let Pair { earlier, later } = *self;
        writeln!(text, "PAIR {number} step {earlier} ahead of step {later}")
    }
}
