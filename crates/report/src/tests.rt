// Each line byte for byte, in buffers that it fits and does not fit.
use super::*;
use faults::fault::{Cause, PlantFault, ReaderFault, RunFault};
use faults::verdict::Flaw;
use std::process::Abort;
use std::test::Fail;

const NO_SUCH: Fault = Fault::Reader(ReaderFault {
    cause: Cause::NoSuch,
    place: 40,
});

// A buffer of dots has the line at its front, and dots after it.
fn check_line(
    rt: &impl Abort,
    written: Result<usize, ReportFault>,
    buffer: &[u8],
    line: &[u8],
) -> Result<(), Fail> {
    assert_eq!(rt; written, Ok(line.len()));
    let rest = buffer.strip_prefix(line).ok_or("another line")?;
    for byte in rest {
        assert_eq!(rt; *byte, b'.');
    }
    Ok(())
}

// A flaw has one line, whether a verdict or a fault of a run tells it.
#[test]
fn flaws(rt: HostRuntime) -> Result<(), Fail> {
    let table: [(Flaw, &[u8]); 10] = [
        (Flaw::Circle { step: 1 }, b"CIRCLE step 1\n"),
        (Flaw::OpenNeed { need: 1 }, b"OPEN need 1\n"),
        (
            Flaw::Unsupported { need: 1, step: 0 },
            b"UNSUPPORTED need 1 by step 0\n",
        ),
        (
            Flaw::Threat { need: 0, step: 3 },
            b"THREAT need 0 by step 3\n",
        ),
        (Flaw::Circle { step: 9 }, b"CIRCLE step 9\n"),
        (Flaw::Circle { step: 10 }, b"CIRCLE step 10\n"),
        (Flaw::OpenNeed { need: 99 }, b"OPEN need 99\n"),
        (Flaw::OpenNeed { need: 100 }, b"OPEN need 100\n"),
        (Flaw::OpenNeed { need: 255 }, b"OPEN need 255\n"),
        (
            Flaw::Unsupported {
                need: 255,
                step: 255,
            },
            b"UNSUPPORTED need 255 by step 255\n",
        ),
    ];
    for (flaw, line) in table {
        let mut buffer = [b'.'; 36];
        let written = report_verdict(Err(flaw), &mut buffer);
        check_line(&rt, written, &buffer, line)?;
        let mut buffer = [b'.'; 36];
        let written = report_fault(Fault::Run(RunFault::DoesNotPass { flaw }), &mut buffer);
        check_line(&rt, written, &buffer, line)?;
    }
    Ok(())
}

#[test]
fn other_faults(rt: HostRuntime) -> Result<(), Fail> {
    let table: [(Fault, &[u8]); 5] = [
        (NO_SUCH, b"REFUSED 4 at 40\n"),
        (Fault::Run(RunFault::NeverOpened), b"REFUSED 30 at 0\n"),
        (
            Fault::Run(RunFault::OtherRun { run: 10000 }),
            b"REFUSED 35 at 10000\n",
        ),
        (
            Fault::Plant(PlantFault::AboveTop { signal: 65535 }),
            b"REFUSED 41 at 65535\n",
        ),
        (
            Fault::Report(ReportFault::BufferTooShort { length: 16 }),
            b"REFUSED 50 at 16\n",
        ),
    ];
    for (fault, line) in table {
        let mut buffer = [b'.'; 36];
        let written = report_fault(fault, &mut buffer);
        check_line(&rt, written, &buffer, line)?;
    }
    Ok(())
}

#[test]
fn exactly_long_enough(rt: HostRuntime) {
    let mut buffer = [b'.'; 5];
    assert_eq!(rt; report_verdict(Ok(()), &mut buffer), Ok(5));
    assert_eq!(rt; buffer, *b"PASS\n");
    let mut buffer = [b'.'; 16];
    assert_eq!(rt; report_fault(NO_SUCH, &mut buffer), Ok(16));
    assert_eq!(rt; buffer, *b"REFUSED 4 at 40\n");
}

#[test]
fn one_byte_too_short(rt: HostRuntime) {
    let mut buffer = [b'.'; 4];
    let short = Err(ReportFault::BufferTooShort { length: 5 });
    assert_eq!(rt; report_verdict(Ok(()), &mut buffer), short);
    assert_eq!(rt; buffer, [b'.'; 4]);
    let mut buffer = [b'.'; 15];
    let short = Err(ReportFault::BufferTooShort { length: 16 });
    assert_eq!(rt; report_fault(NO_SUCH, &mut buffer), short);
    assert_eq!(rt; buffer, [b'.'; 15]);
}

#[test]
fn no_room_at_all(rt: HostRuntime) {
    let short = Err(ReportFault::BufferTooShort { length: 5 });
    assert_eq!(rt; report_verdict(Ok(()), &mut []), short);
}
