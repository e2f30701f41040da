use model::refusal::SchemaRefusal;
use record::SchemaRecord;
use schema::schema::Schema;
use schema::space::Space;
use std::alloc::{AllocError, Global};
use std::test::Fail;

// kinds, with the id byte of those that have none
const N: u8 = 0xFF;

const ACT: u8 = 1;

const AND: u8 = 2;

const BAR: u8 = 3;

const JOIN: u8 = 4;

const XOR: u8 = 5;

const XJOIN: u8 = 6;

const LOOP: u8 = 7;

const END: u8 = 8;

// 1 before 2, beside 3 before 4
const BESIDE: [u8; 14] = [AND, N, ACT, 1, ACT, 2, BAR, N, ACT, 3, ACT, 4, JOIN, N];

// blocks of eight and of nine empty branches
const EIGHT: [u8; 18] = [
    AND, N, BAR, N, BAR, N, BAR, N, BAR, N, BAR, N, BAR, N, BAR, N, JOIN, N,
];

const NINE: [u8; 20] = [
    AND, N, BAR, N, BAR, N, BAR, N, BAR, N, BAR, N, BAR, N, BAR, N, BAR, N, JOIN, N,
];

// Why the elements and edges are refused, if they are.
fn refusal<'a>(
    heap: Global,
    elements: &'a [u8],
    edges: &'a [u8],
) -> Result<Option<SchemaRefusal>, AllocError> {
    let space = Space::new(heap)?;
    match Schema::check(
        space,
        SchemaRecord {
            version: 1,
            elements,
            edges,
        },
    ) {
        Ok(_) => Ok(None),
        Err(refusal) => Ok(Some(refusal)),
    }
}

// The limits come before what the elements and edges say; `inspect` is run on full schemas.
#[test]
fn sizes(rt: HostRuntime) -> Result<(), Fail> {
    let heap = rt.alloc();
    assert_eq!(rt; refusal(heap, &[1; 258], &[])?, Some(SchemaRefusal::Size));
    assert_eq!(rt;
        refusal(heap, &[1; 256], &[])?,
        Some(SchemaRefusal::Element { place: 1 })
    );
    assert_eq!(rt; refusal(heap, &[], &[0; 66])?, Some(SchemaRefusal::Size));
    assert_eq!(rt;
        refusal(heap, &[], &[0; 64])?,
        Some(SchemaRefusal::Edge {
            place: 0,
            source: 0,
        })
    );
    Ok(())
}

#[test]
fn ids(rt: HostRuntime) -> Result<(), Fail> {
    let heap = rt.alloc();
    assert_eq!(rt; refusal(heap, &[ACT, 63], &[])?, None);
    assert_eq!(rt;
        refusal(heap, &[ACT, 64], &[])?,
        Some(SchemaRefusal::Element { place: 0 })
    );
    assert_eq!(rt;
        refusal(heap, &[0, 1], &[])?,
        Some(SchemaRefusal::Element { place: 0 })
    );
    assert_eq!(rt;
        refusal(heap, &[9, N], &[])?,
        Some(SchemaRefusal::Element { place: 0 })
    );
    assert_eq!(rt;
        refusal(heap, &[AND, N, BAR, 0, JOIN, N], &[])?,
        Some(SchemaRefusal::Element { place: 1 })
    );
    assert_eq!(rt;
        refusal(heap, &[ACT, 7, LOOP, N, END, 7], &[])?,
        Some(SchemaRefusal::Element { place: 2 })
    );
    Ok(())
}

#[test]
fn blocks(rt: HostRuntime) -> Result<(), Fail> {
    let heap = rt.alloc();
    assert_eq!(rt; refusal(heap, &[], &[])?, None);
    assert_eq!(rt; refusal(heap, &[LOOP, N, END, 7], &[])?, None);
    assert_eq!(rt;
        refusal(heap, &[AND, N, JOIN, N], &[])?,
        Some(SchemaRefusal::Block { place: 1 })
    );
    assert_eq!(rt;
        refusal(heap, &[XOR, 5, BAR, N, JOIN, N], &[])?,
        Some(SchemaRefusal::Block { place: 2 })
    );
    assert_eq!(rt;
        refusal(heap, &[AND, N, BAR, N], &[])?,
        Some(SchemaRefusal::Block { place: 2 })
    );
    let loop_in_and = [AND, N, LOOP, N, BAR, N, END, 7, JOIN, N];
    assert_eq!(rt;
        refusal(heap, &loop_in_and, &[])?,
        Some(SchemaRefusal::Block { place: 2 })
    );
    assert_eq!(rt; refusal(heap, &EIGHT, &[])?, None);
    assert_eq!(rt;
        refusal(heap, &NINE, &[])?,
        Some(SchemaRefusal::Block { place: 8 })
    );
    Ok(())
}

#[test]
fn edges(rt: HostRuntime) -> Result<(), Fail> {
    let heap = rt.alloc();
    assert_eq!(rt; refusal(heap, &BESIDE, &[1, 4, 3, 2])?, None);
    // onto itself, in one branch, missing, listed twice
    assert_eq!(rt;
        refusal(heap, &BESIDE, &[1, 1])?,
        Some(SchemaRefusal::Edge {
            place: 0,
            source: 1,
        })
    );
    assert_eq!(rt;
        refusal(heap, &BESIDE, &[1, 2])?,
        Some(SchemaRefusal::Edge {
            place: 0,
            source: 1,
        })
    );
    assert_eq!(rt;
        refusal(heap, &BESIDE, &[99, 1])?,
        Some(SchemaRefusal::Edge {
            place: 0,
            source: 99,
        })
    );
    assert_eq!(rt;
        refusal(heap, &BESIDE, &[1, 3, 1, 3])?,
        Some(SchemaRefusal::Edge {
            place: 1,
            source: 1,
        })
    );
    // a cycle through precedence, and one through other edges
    assert_eq!(rt;
        refusal(heap, &BESIDE, &[2, 3, 4, 1])?,
        Some(SchemaRefusal::Edge {
            place: 1,
            source: 4,
        })
    );
    let three = [AND, N, ACT, 1, BAR, N, ACT, 2, BAR, N, ACT, 3, JOIN, N];
    assert_eq!(rt;
        refusal(heap, &three, &[1, 2, 2, 3, 3, 1])?,
        Some(SchemaRefusal::Edge {
            place: 2,
            source: 3,
        })
    );
    Ok(())
}

#[test]
fn edges_and_other_blocks(rt: HostRuntime) -> Result<(), Fail> {
    let heap = rt.alloc();
    let choice = [XOR, 9, ACT, 1, BAR, N, ACT, 2, XJOIN, N];
    assert_eq!(rt;
        refusal(heap, &choice, &[1, 2])?,
        Some(SchemaRefusal::Edge {
            place: 0,
            source: 1,
        })
    );
    let into_a_loop = [AND, N, LOOP, N, ACT, 1, END, 8, BAR, N, ACT, 2, JOIN, N];
    assert_eq!(rt;
        refusal(heap, &into_a_loop, &[2, 1])?,
        Some(SchemaRefusal::Edge {
            place: 0,
            source: 2,
        })
    );
    let in_a_loop = [LOOP, N, AND, N, ACT, 1, BAR, N, ACT, 2, JOIN, N, END, 8];
    assert_eq!(rt; refusal(heap, &in_a_loop, &[2, 1])?, None);
    Ok(())
}
