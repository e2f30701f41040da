// A round that is taken back.
use crate::nodes::round_of;
use case_record::CaseRecord;
use facts::Facts;
use marking::marking::Marking;
use model::State;
use runs::histories::run;
use schema::schema::Schema;
use schema::space::Space;
use std::test::Fail;

// entries
const START: u8 = 1;

const END: u8 = 2;

const N: u8 = 0xFF;

// activity 1, then a loop of 2 with the test 9, then 5
#[test]
fn a_round_again(rt: HostRuntime) -> Result<(), Fail> {
    let space = Space::new(rt.alloc())?;
    let Ok(schema) = Schema::read(space, b"01000105010107FF01020809010500") else {
        return Err(Fail::new("no schema"));
    };
    let round = round_of(&schema, 9);
    assert!(rt; round.has(2) && !round.has(1) && !round.has(9) && !round.has(5));

    let entries = [START, 1, N, END, 1, N, START, 2, N, END, 2, N];
    let mut facts = Facts::none();
    let ran = run(
        &schema,
        &mut facts,
        CaseRecord {
            number: 1,
            entries: &entries,
        },
    );
    assert!(rt; ran.is_ok());
    assert!(rt; Marking::of(&schema, &facts).state(9) == Some(State::Activated));

    facts.forget(round);
    let marking = Marking::of(&schema, &facts);
    assert!(rt; marking.state(1) == Some(State::Completed));
    assert!(rt; marking.state(2) == Some(State::Activated));
    assert!(rt; marking.state(9) == Some(State::NotActivated));
    Ok(())
}
