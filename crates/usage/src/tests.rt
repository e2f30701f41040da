use crate::Task;
use std::test::Fail;

#[test]
fn help_is_asked_for_by_one_word(rt: HostRuntime) -> Result<(), Fail> {
    assert_eq!(rt; Task::Work.after("--help"), Some(Task::Help));
    assert_eq!(rt; Task::Help.after("--help"), None);
    Ok(())
}

#[test]
fn no_other_word_is_taken(rt: HostRuntime) -> Result<(), Fail> {
    assert_eq!(rt; Task::Work.after("-h"), None);
    assert_eq!(rt; Task::Work.after("--help "), None);
    assert_eq!(rt; Task::Work.after(""), None);
    Ok(())
}
