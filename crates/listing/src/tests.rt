// The text of whole files, and of names.
use crate::name::push_name;
use crate::whole::list;
use faults::fault::Fault;
use reader::ReadError;
use records::record::Part;
use std::test::Fail;

// Names come in order of steps, and the contributors of a link in rising order, each once, however the file has them.
const LISTED: [(&[u8], &str); 3] = [
    (
        b"SH\x02\x01SG\xff\xffEN",
        "SHEET steps 2 signals 1\nSIGNAL 0 word 65535\n",
    ),
    (
        b"SH\x03\x01SG\x00\x00NM\x02\x01BNM\x00\x01AEN",
        "SHEET steps 3 signals 1\nSIGNAL 0 word 0\nNAME step 0 at 17 A\nNAME step 2 at 12 B\n",
    ),
    (
        b"SH\x40\x01SG\x00\x07ND\x3f\x00\xff\xff\x01\x00LK\x00\x05\x3e\x09\x0a\x00\x09EN",
        "SHEET steps 64 signals 1\nSIGNAL 0 word 7\nNEED 0 step 63 signal 0 a 65535 b 256 link 0 9 10 62\n",
    ),
];

#[test]
fn listed(rt: HostRuntime) -> Result<(), Fail> {
    for (file, lines) in LISTED {
        match list(rt.alloc(), file) {
            Ok(text) => assert_eq!(rt; text.as_str(), lines),
            Err(_) => return Err(Fail::new(lines)),
        }
    }
    Ok(())
}

#[test]
fn refused(rt: HostRuntime) -> Result<(), Fail> {
    match list(rt.alloc(), b"SH\x03\x01SG\x00\x00PR\x07\x01EN") {
        Err(ReadError::Fault(fault)) => {
            let fault = Fault::Reader(fault);
            assert_eq!(rt; (fault.number(), fault.place()), (4, 8));
            Ok(())
        }
        Err(ReadError::Memory) => Err(Fail::new("no memory")),
        Ok(_) => Err(Fail::new("listed")),
    }
}

const NAMES: [(&[u8], &str); 6] = [
    (b"", "NAME step 63 at 65535 \n"),
    (b" ~", "NAME step 63 at 65535  ~\n"),
    (
        b"\x00\x1f\x7f\xff",
        "NAME step 63 at 65535 \\x00\\x1f\\x7f\\xff\n",
    ),
    (b"a\\b", "NAME step 63 at 65535 a\\x5cb\n"),
    (b"\n\xa9", "NAME step 63 at 65535 \\x0a\\xa9\n"),
    (b"[]", "NAME step 63 at 65535 []\n"),
];

#[test]
fn names(rt: HostRuntime) -> Result<(), Fail> {
    for (bytes, line) in NAMES {
        let mut text = String::new(rt.alloc());
        let name = Part {
            place: 65535,
            bytes,
        };
        push_name(&mut text, 63, &name)?;
        assert_eq!(rt; text.as_str(), line);
    }
    Ok(())
}
