// The words of each line.
ghost use Rattle.std.specs.Prelude.{◌≡◌};
ghost use Rattle.report.specs.Lines.{flaw_line, verdict_line, refused_line, fault_line};

use crate::line::{Line, push_numbered};
use faults::fault::{Fault, RunFault};
use faults::verdict::{Flaw, Verdict};

fn flaw_line(flaw: Flaw) -> Line
    ensures { result.bytes ≡ flaw_line flaw }
{
    let mut line = Line::new();
    match flaw {
        Flaw::Circle { step } => push_numbered(&mut line, "CIRCLE step ", step),
        Flaw::OpenNeed { need } => push_numbered(&mut line, "OPEN need ", need),
        Flaw::Unsupported { need, step } => {
            push_numbered(&mut line, "UNSUPPORTED need ", need);
            push_numbered(&mut line, " by step ", step);
        }
        Flaw::Threat { need, step } => {
            push_numbered(&mut line, "THREAT need ", need);
            push_numbered(&mut line, " by step ", step);
        }
    }
    line.push_str("\n");
    line
}

pub fn verdict_line(verdict: Verdict) -> Line
    ensures { result.bytes ≡ verdict_line verdict }
{
    match verdict {
        Ok(()) => {
            let mut line = Line::new();
            line.push_str("PASS\n");
            line
        }
        Err(flaw) => flaw_line(flaw),
    }
}

fn refused_line(fault: Fault) -> Line
    ensures { result.bytes ≡ refused_line fault }
{
    let mut line = Line::new();
    push_numbered(&mut line, "REFUSED ", fault.number());
    push_numbered(&mut line, " at ", fault.place());
    line.push_str("\n");
    line
}

pub fn fault_line(fault: Fault) -> Line
    ensures { result.bytes ≡ fault_line fault }
{
    match fault {
        Fault::Run(RunFault::DoesNotPass { flaw }) => flaw_line(flaw),
        _ => refused_line(fault),
    }
}
