// The line of a schema: it is the one that the schema was read from, and is read again.
use crate::schema_line;
use model::{Edge, EdgeList, Element, Row};
use schema::schema::Schema;
use schema::space::Space;
use std::alloc::Global;
use std::test::Fail;

// Whether a line that is read is written again.
fn is_written(heap: Global, line: &[u8]) -> Result<bool, Fail> {
    let schema = Schema::read(Space::new(heap)?, line)?;
    Ok(schema_line(&schema).as_slice() == line)
}

#[test]
fn the_line_that_was_read_is_written(rt: HostRuntime) -> Result<(), Fail> {
    let heap = rt.alloc();
    assert!(rt; is_written(heap, b"0100000000")?, "nothing");
    assert!(rt; is_written(heap, b"01FFFF0000")?, "the last version");
    assert!(rt; is_written(heap, b"01000107010102FF010203FF010304FF010400")?);
    assert!(rt;
        is_written(heap, b"0100020502FF010103FF010204FF010102")?,
        "an edge"
    );
    assert!(rt;
        is_written(heap, b"010A9F0A07FF053F03FF010A06FF083E02FF03FF03FF04FF00")?,
        "each kind"
    );
    Ok(())
}

// 128 elements and 32 edges: 0 to 31 beside 32 to 63 beside nothing, and empty blocks.
fn full(heap: Global) -> Result<Schema, Fail> {
    let mut row = Row::new(heap)?;
    let mut edges = EdgeList::new(heap)?;
    row.push(Element::AndSplit)?;
    for id in 0..32u8 {
        row.push(Element::Activity(id))?;
        edges.push(Edge {
            source: id,
            target: 32 + id,
        })?;
    }
    row.push(Element::Bar)?;
    for id in 32..64u8 {
        row.push(Element::Activity(id))?;
    }
    row.push(Element::Bar)?;
    row.push(Element::AndJoin)?;
    for _ in 0..20 {
        row.push(Element::AndSplit)?;
        row.push(Element::Bar)?;
        row.push(Element::AndJoin)?;
    }
    Ok(Schema::from_parts(0xABCD, row, edges).ok_or("no schema")?)
}

#[test]
fn the_longest_line_is_read_again(rt: HostRuntime) -> Result<(), Fail> {
    let heap = rt.alloc();
    let schema = full(heap)?;
    let line = schema_line(&schema);
    assert_eq!(rt; line.as_slice().len(), 650);
    let again = Schema::read(Space::new(heap)?, line.as_slice())?;
    assert_eq!(rt; again.version(), 0xABCD);
    assert_eq!(rt; again.row(), schema.row());
    assert_eq!(rt; again.edges(), schema.edges());
    Ok(())
}
