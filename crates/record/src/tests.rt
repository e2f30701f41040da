use crate::{LineBuffer, Record, SchemaRecord, pair};
use std::test::Fail;

fn is_schema(line: &[u8]) -> bool {
    Record::try_from(line).is_ok_and(|record| SchemaRecord::try_from(record.bytes()).is_ok())
}

#[test]
fn a_schema_is_taken_apart(rt: HostRuntime) -> Result<(), Fail> {
    let line = b"01000107010102FF010203FF010304FF010400";
    let record = Record::try_from(line.as_slice())?;
    let schema = SchemaRecord::try_from(record.bytes())?;
    assert_eq!(rt; schema.version, 1);
    assert_eq!(rt; schema.elements.len(), 14);
    assert_eq!(rt; schema.edges.len(), 0);
    assert_eq!(rt; pair(schema.elements, 1), Some((2, 255)));
    assert_eq!(rt; pair(schema.elements, 6), Some((1, 4)));
    assert_eq!(rt; pair(schema.elements, 7), None);
    assert_eq!(rt; pair(schema.elements, usize::MAX), None);
    Ok(())
}

#[test]
fn other_lines_are_refused(rt: HostRuntime) {
    assert!(rt; is_schema(b"010001010107010708"));
    assert!(rt; !is_schema(b""), "empty");
    assert!(rt; !is_schema(b"01000101010701070"), "odd");
    assert!(rt; !is_schema(b"01000101010a00"), "lower case");
    assert!(rt; !is_schema(b"020001010107010708"), "another type");
    assert!(rt; !is_schema(b"0100010101070107"), "too short");
    assert!(rt; !is_schema(b"01000101010701070809"), "too long");
}

#[test]
fn a_long_line_is_refused(rt: HostRuntime) {
    let mut longest = [b'0'; 1022];
    longest[1] = b'1';
    longest[6] = b'F';
    longest[7] = b'D';
    assert!(rt; is_schema(&longest));
    let mut longer = [b'0'; 1026];
    longer[1] = b'1';
    longer[6] = b'F';
    longer[7] = b'E';
    assert!(rt; !is_schema(&longer));
}

fn held(buffer: &LineBuffer) -> Option<usize> {
    buffer.line().map(|line| line.len())
}

#[test]
fn a_buffer_holds_one_line(rt: HostRuntime) {
    let mut buffer = LineBuffer::new();
    for _ in 0..1024 {
        buffer.push(b'A');
    }
    assert_eq!(rt; held(&buffer), Some(1024));
    buffer.push(b'A');
    assert_eq!(rt; held(&buffer), None);
    buffer.clear();
    assert_eq!(rt; held(&buffer), Some(0));
}
