// The records of a file, at their places.
use faults::fault::{Cause, ReaderFault};
use records::cursor::Cursor;
use records::record::Record;
use std::test::Fail;

// Three steps, one signal at 258. Step 1 sets it to 1 and has need 0; the finish has need 1, with no link. A link record
// that names step 2 twice. A name for step 1.
const SHEET: &[u8] =
    b"SH\x03\x01SG\x01\x02EF\x01\x00\xff\x01ND\x01\x00\x00\x01\x00\x02ND\x02\x00\x80\x00\x00\x00LK\x00\x03\x02\x00\x02PR\x00\x01NM\x01\x05PressEN";

fn at(at: u16) -> Cursor<'static> {
    Cursor { file: SHEET, at }
}

fn kind(record: Record) -> &'static str {
    match record {
        Record::Header { .. } => "header",
        Record::Start { .. } => "start",
        Record::Effect { .. } => "effect",
        Record::Need { .. } => "need",
        Record::Pair { .. } => "pair",
        Record::Link { .. } => "link",
        Record::Name { .. } => "name",
        Record::End => "end",
    }
}

// Kind and end of the record at a place, or number and place of the fault.
const RECORDS: &[(u16, &str, usize)] = &[
    (0, "header", 4),
    (4, "start", 8),
    (8, "effect", 14),
    (14, "need", 22),
    (22, "need", 30),
    (30, "link", 37),
    (37, "pair", 41),
    (41, "name", 50),
    (50, "end", 52),
    (1, "fault 2", 1),
    (51, "fault 1", 51),
    (52, "fault 1", 52),
    (65535, "fault 1", 65535),
];

#[test]
fn records(rt: HostRuntime) {
    for &(place, kind_there, end) in RECORDS {
        let found = match at(place).read() {
            Ok((record, end)) => (kind(record), end),
            Err(
                ReaderFault {
                    cause: Cause::CutShort,
                    place,
                },
            ) => ("fault 1", usize::from(place)),
            Err(
                ReaderFault {
                    cause: Cause::Mark,
                    place,
                },
            ) => ("fault 2", usize::from(place)),
            Err(_) => ("another fault", 0),
        };
        assert_eq!(rt; found, (kind_there, end));
    }
}

#[test]
fn a_link_record(rt: HostRuntime) -> Result<(), Fail> {
    let Ok((Record::Link { need, contributors }, 37)) = at(30).read() else {
        return Err(Fail::new("a link"));
    };
    assert_eq!(rt; (need, contributors.place), (0, 34));
    assert_eq!(rt; contributors.bytes, [2, 0, 2].as_slice());
    Ok(())
}
