use crate::{CaseRecord, RawEntry};
use record::Record;
use std::test::Fail;

fn is_case(line: &[u8]) -> bool {
    Record::try_from(line).is_ok_and(|record| CaseRecord::try_from(record.bytes()).is_ok())
}

fn entry(kind: u8, id: u8, branch: u8) -> RawEntry {
    RawEntry { kind, id, branch }
}

#[test]
fn a_case_is_taken_apart(rt: HostRuntime) -> Result<(), Fail> {
    let line = b"030000000700040101FF0201FF0102FF0103FF";
    let record = Record::try_from(line.as_slice())?;
    let case = CaseRecord::try_from(record.bytes())?;
    assert_eq!(rt; case.number, 7);
    assert_eq!(rt; case.len(), 4);
    assert_eq!(rt; case.entry(1), Some(entry(2, 1, 255)));
    assert_eq!(rt; case.entry(3), Some(entry(1, 3, 255)));
    assert_eq!(rt; case.entry(4), None);
    assert_eq!(rt; case.entry(usize::MAX), None);
    Ok(())
}

#[test]
fn entries_come_in_their_order(rt: HostRuntime) -> Result<(), Fail> {
    let line = b"030000000700020101FF030201";
    let record = Record::try_from(line.as_slice())?;
    let case = CaseRecord::try_from(record.bytes())?;
    let mut entries = case.iter();
    assert_eq!(rt; entries.next(), Some(entry(1, 1, 255)));
    assert_eq!(rt; entries.next(), Some(entry(3, 2, 1)));
    assert_eq!(rt; entries.next(), None);
    Ok(())
}

#[test]
fn a_case_may_have_no_entry(rt: HostRuntime) -> Result<(), Fail> {
    let line = b"03010203040000";
    let record = Record::try_from(line.as_slice())?;
    let case = CaseRecord::try_from(record.bytes())?;
    assert_eq!(rt; case.number, 0x0102_0304);
    assert_eq!(rt; case.len(), 0);
    assert_eq!(rt; case.entry(0), None);
    Ok(())
}

#[test]
fn other_lines_are_refused(rt: HostRuntime) {
    assert!(rt; is_case(b"030000000700010101FF"));
    assert!(rt; !is_case(b"010000000700010101FF"), "another type");
    assert!(rt; !is_case(b"030000000700020101FF"), "count too large");
    assert!(rt; !is_case(b"030000000700000101FF"), "count too small");
    assert!(rt; !is_case(b"0300000007000101"), "part of an entry");
    assert!(rt; !is_case(b"030000000700"), "no count");
}
