use crate::Verdict;
use model::refusal::Reason;

fn refused(case: u32, number: u8, layer: u8, place: Option<usize>, id: Option<u8>) -> Verdict {
    let reason = Reason {
        place,
        id,
        number,
        layer,
    };
    Verdict {
        refusal: Some(reason),
        case,
    }
}

#[test]
fn a_move_has_no_place_and_no_id(rt: HostRuntime) {
    let moved = Verdict {
        refusal: None,
        case: 8,
    };
    assert!(rt; moved.line() == *b"04000000080000FFFFFF");
}

#[test]
fn a_refusal_has_what_it_tells(rt: HostRuntime) {
    assert!(rt; refused(7, 35, 6, Some(0), Some(3)).line() == *b"04000000072306000003");
    assert!(rt; refused(0, 1, 5, None, None).line() == *b"04000000000105FFFFFF");
    assert!(rt;
        refused(0xFEDC_BA98, 40, 7, Some(127), Some(63)).line() == *b"04FEDCBA982807007F3F"
    );
}
