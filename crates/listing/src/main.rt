//! Prints a sheet file as text.
#![tactic(auto)]

mod lines;
mod name;
mod parts;
#[cfg(test)]
mod tests;
mod text;
mod whole;

use faults::fault::Fault;
use reader::ReadError;
use report::report_fault;
use std::alloc::AllocError;
use std::io;
use std::io::{Read, Write};
use whole::list;

// No lawful file is longer than 25,094 bytes.
const MOST: u64 = 32768;

fn refuse(rt: &HostRuntime, fault: Fault) -> io::Result<()> {
    let mut line = [0u8; 40];
    match report_fault(fault, &mut line) {
        Ok(length) => rt.stdout().write_all(&line[..length]),
        Err(_) => Ok(()),
    }
}

fn main(rt: HostRuntime) -> io::Result<()> {
    let mut file = Vec::new(rt.alloc());
    rt.stdin().take(MOST).read_to_end(&mut file)?;
    match list(rt.alloc(), &file) {
        Ok(text) => print!(rt; "{text}"),
        Err(ReadError::Fault(fault)) => refuse(&rt, Fault::Reader(fault)),
        Err(ReadError::Memory) => Err(AllocError.into()),
    }
}
