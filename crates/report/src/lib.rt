//! A verdict or a fault as one line at the front of a buffer.
//! A line ends with byte 10, which its length counts. What stands after it stays, and so does all of a buffer that is too short.
#![tactic(auto)]

ghost use Rattle.std.specs.Prelude.{◌≡◌};
ghost use Rattle.report.specs.Lines.{verdict_line, fault_line, answer, filled};

use faults::fault::{Fault, ReportFault};
use faults::verdict::Verdict;
use line::put;
use wording::{fault_line, verdict_line};

mod line;
#[cfg(test)]
mod tests;
mod wording;

// Two functions and no trait over both, which would take more lines than these two. The buffer is the caller's: a report takes
// no heap.
pub fn report_verdict(verdict: Verdict, buffer: &mut [u8]) -> Result<usize, ReportFault>
    ensures value { result ≡ answer (verdict_line verdict) buffer.old }
    ensures after { buffer.new ≡ filled (verdict_line verdict) buffer.old }
{
    put(&verdict_line(verdict), buffer)
}

pub fn report_fault(fault: Fault, buffer: &mut [u8]) -> Result<usize, ReportFault>
    ensures value { result ≡ answer (fault_line fault) buffer.old }
    ensures after { buffer.new ≡ filled (fault_line fault) buffer.old }
{
    put(&fault_line(fault), buffer)
}
