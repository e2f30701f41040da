// The checks of a schema, in their order.
ghost use Rattle.std.specs.Prelude.{◌≡◌, ℕ, true, false, List, [], is_some};
ghost use Rattle.blocks.specs.Blocks.{fault};
ghost use Rattle.edges.specs.Verdicts.{edges_verdict};
ghost use Rattle.record.specs.Lines.{held_of};
ghost use Rattle.record.specs.Readings.{raw};
ghost use Rattle.std.specs.Option.{option_map};
ghost use Rattle.schema.specs.Checks.{distinct, by_blocks, by_edges, over, schema_of_parts, schema_checked, schema_read};
ghost use Rattle.schema.specs.Schemas.{parts, shown};
ghost use Rattle.schema.specs.Causes.{Rightly, ReadRightly, OnlyRight};

use crate::distinct::are_distinct;
use crate::rows::{read_edges, read_row};
use crate::schema::Schema;
use crate::space::Space;
use blocks::check_blocks;
use edges::order::Order;
use followers::FollowerTable;
use layout::Layout;
use model::refusal::SchemaRefusal;
use model::{EdgeList, Row};
use record::{LineBuffer, Record, SchemaRecord, pairs};

// A row of whole blocks: the sync edges are checked. Version, row and edges go on from check to check and end in the
// schema; a struct round them would only be taken apart there.
fn check_edges(version: u16, row: Row, edges: EdgeList) -> Result<Schema, SchemaRefusal>
    requires ids { distinct row ≡ true }
    requires nested { is_some (fault [] 0 row) ≡ false }
    ensures { shown result ≡ by_edges version row edges (edges_verdict row edges) }
{
    let order = Order::of(&row);
    let layout = Layout::of(&row);
    let followers = FollowerTable::of(&row);
    order.check(edges.as_slice())?;
    Ok(Schema {
        row,
        edges,
        order,
        layout,
        followers,
        version,
    })
}

// A row with its ids in order: its blocks are checked, then the edges.
fn check_parts(version: u16, row: Row, edges: EdgeList) -> Result<Schema, SchemaRefusal>
    requires { distinct row ≡ true }
    ensures { shown result ≡ by_blocks version row edges (fault [] 0 row) }
{
    check_blocks(row.as_slice())?;
    check_edges(version, row, edges)
}

// Whether a record has more elements or edges than a schema may have.
fn is_over(given: SchemaRecord<'_>) -> bool
    ensures { result ≡ over (raw given.entry) }
{
    pairs(given.elements).len() > 128 || pairs(given.edges).len() > 32
}

// The schema of a record, or the first reason against it. It is built up in the space.
fn check_record(space: Space, given: SchemaRecord<'_>) -> Result<Schema, SchemaRefusal>
    ensures { shown result ≡ schema_checked (raw given.entry) }
{
    if is_over(given) {
        return Err(SchemaRefusal::Size);
    }
    let (mut row, mut edges) = space.into_parts();
    read_row(&mut row, given.elements)?;
    read_edges(&mut edges, given.edges);
    check_parts(given.version, row, edges)
}

impl Schema {
    // The schema of these parts, if they pass the checks.
    pub fn from_parts(version: u16, row: Row, edges: EdgeList) -> Option<Schema>
        ensures { option_map parts result ≡ schema_of_parts version row edges }
    {
        if !are_distinct(row.as_slice()) {
            return None;
        }
        check_parts(version, row, edges).ok()
    }

    // The schema that a record says, or why it is refused.
    pub fn check(space: Space, given: SchemaRecord<'_>) -> Result<Schema, SchemaRefusal>
        ensures value { shown result ≡ schema_checked (raw given.entry) }
        ensures rightly { Rightly (raw given.entry) (shown result) }
    {
        check_record(space, given)
    }

    // The schema that a line says, or why it is refused.
    pub fn read(space: Space, line: &[u8]) -> Result<Schema, SchemaRefusal>
        ensures value { shown result ≡ schema_read line.now }
        ensures rightly { ReadRightly line.now (shown result) }
        ensures only { OnlyRight line.now (shown result) }
    {
        let record = Record::try_from(line)?;
        let given = SchemaRecord::try_from(record.bytes())?;
        Schema::check(space, given)
    }

    // The same for a line that came in through a buffer, which holds no more of it than a line may have: the
    // answer is that to the whole line.
    pub fn read_buffered(space: Space, line: &LineBuffer) -> Result<Schema, SchemaRefusal>
        ensures { (cs : List ℕ) → line.now ≡ held_of cs → shown result ≡ schema_read cs }
    {
        let characters = line.line().ok_or(SchemaRefusal::Line)?;
        Schema::read(space, characters)
    }
}
