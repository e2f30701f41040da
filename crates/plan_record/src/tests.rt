use crate::{PlanRecord, RawChange};
use record::Record;
use std::test::Fail;

fn is_plan(line: &[u8]) -> bool {
    Record::try_from(line).is_ok_and(|record| PlanRecord::try_from(record.bytes()).is_ok())
}

fn change(kind: u8, a: u8, b: u8, c: u8) -> RawChange {
    RawChange { kind, a, b, c }
}

#[test]
fn a_plan_is_taken_apart(rt: HostRuntime) -> Result<(), Fail> {
    let line = b"0203010203FF02000010FF040506";
    let record = Record::try_from(line.as_slice())?;
    let plan = PlanRecord::try_from(record.bytes())?;
    assert_eq!(rt; plan.len(), 3);
    assert_eq!(rt; plan.change(0), Some(change(1, 2, 3, 255)));
    assert_eq!(rt; plan.change(1), Some(change(2, 0, 0, 16)));
    assert_eq!(rt; plan.change(2), Some(change(255, 4, 5, 6)));
    assert_eq!(rt; plan.change(3), None);
    assert_eq!(rt; plan.change(usize::MAX), None);
    Ok(())
}

#[test]
fn a_plan_may_have_no_change(rt: HostRuntime) -> Result<(), Fail> {
    let line = b"0200";
    let record = Record::try_from(line.as_slice())?;
    let plan = PlanRecord::try_from(record.bytes())?;
    assert_eq!(rt; plan.len(), 0);
    assert_eq!(rt; plan.change(0), None);
    Ok(())
}

#[test]
fn other_lines_are_refused(rt: HostRuntime) {
    assert!(rt; is_plan(b"020101020304"));
    assert!(rt; !is_plan(b"030101020304"), "another type");
    assert!(rt; !is_plan(b"020201020304"), "count too large");
    assert!(rt; !is_plan(b"020001020304"), "count too small");
    assert!(rt; !is_plan(b"0201010203"), "part of a change");
    assert!(rt; !is_plan(b"02"), "no count");
}
