use crate::fill;
use crate::words::{NoCall, Words, byte_of, number_of, text_of};
use record::LineBuffer;
use std::test::Fail;

#[test]
fn a_newline_ends_the_line(rt: HostRuntime) -> Result<(), Fail> {
    let mut line = LineBuffer::new();
    assert_eq!(rt; fill(&mut line, b"01AB"), (4, false));
    assert_eq!(rt; fill(&mut line, b"CD\n02"), (3, true));
    let Some(held) = line.line() else {
        return Err(Fail::new("overlong"));
    };
    assert_eq!(rt; held.len(), 6);
    Ok(())
}

#[test]
fn words_end_where_the_line_does(rt: HostRuntime) -> Result<(), Fail> {
    let mut words = Words::of("choose 5  1");
    assert!(rt; words.name() == "choose");
    assert_eq!(rt; words.byte(), Ok(5));
    assert_eq!(rt; words.byte(), Ok(1));
    assert_eq!(rt; words.byte(), Err(NoCall::Missing));
    assert_eq!(rt; words.end(), Ok(()));
    assert_eq!(rt; Words::of("rest").end(), Err(NoCall::More));
    Ok(())
}

#[test]
fn numbers_have_a_limit(rt: HostRuntime) -> Result<(), Fail> {
    assert_eq!(rt; byte_of("255"), Ok(255));
    assert_eq!(rt; byte_of("256"), Err(NoCall::Number(255)));
    assert_eq!(rt; number_of("4294967295"), Ok(4294967295));
    assert_eq!(rt; number_of("4294967296"), Err(NoCall::Number(4294967295)));
    assert_eq!(rt; number_of("one"), Err(NoCall::Number(4294967295)));
    Ok(())
}

#[test]
fn a_line_that_is_no_text_says_no_call(rt: HostRuntime) -> Result<(), Fail> {
    let mut line = LineBuffer::new();
    fill(&mut line, b"open 7");
    assert_eq!(rt; text_of(&line), Ok("open 7"));
    line.push(255);
    assert_eq!(rt; text_of(&line), Err(NoCall::Line));
    Ok(())
}
