use crate::Change;
use model::Edge;
use plan_record::RawChange;

fn change(kind: u8, a: u8, b: u8, c: u8) -> Option<Change> {
    Change::try_from(RawChange { kind, a, b, c }).ok()
}

#[test]
fn each_kind_is_read(rt: HostRuntime) {
    let edge = Edge {
        source: 2,
        target: 3,
    };
    assert_eq!(rt; change(1, 2, 3, 0xFF), Some(Change::DropEdge(edge)));
    assert_eq!(rt; change(2, 4, 0xFF, 0xFF), Some(Change::Delete { id: 4 }));
    assert_eq!(rt;
        change(3, 9, 1, 0xFF),
        Some(Change::Insert { id: 9, gap: 1 })
    );
    assert_eq!(rt;
        change(4, 9, 1, 3),
        Some(Change::InsertBeside {
            id: 9,
            from: 1,
            to: 3
        })
    );
    assert_eq!(rt; change(5, 2, 3, 0xFF), Some(Change::AddEdge(edge)));
}

#[test]
fn unused_bytes_are_ff(rt: HostRuntime) {
    assert_eq!(rt; change(1, 2, 3, 0), None);
    assert_eq!(rt; change(2, 4, 0, 0xFF), None);
    assert_eq!(rt; change(2, 4, 0xFF, 0xFE), None);
    assert_eq!(rt; change(3, 9, 1, 1), None);
    assert_eq!(rt; change(5, 2, 3, 4), None);
}

#[test]
fn other_kinds_spell_nothing(rt: HostRuntime) {
    assert_eq!(rt; change(0, 2, 3, 0xFF), None);
    assert_eq!(rt; change(6, 2, 3, 0xFF), None);
    assert_eq!(rt; change(0xFF, 0xFF, 0xFF, 0xFF), None);
}

#[test]
fn any_byte_is_taken_for_an_id_or_a_gap(rt: HostRuntime) {
    assert_eq!(rt;
        change(3, 64, 0xFF, 0xFF),
        Some(Change::Insert { id: 64, gap: 0xFF })
    );
    assert_eq!(rt;
        change(4, 0xFF, 0xFF, 0xFF),
        Some(Change::InsertBeside {
            id: 0xFF,
            from: 0xFF,
            to: 0xFF
        })
    );
}
