// The line of a schema.
ghost use Rattle.std.specs.Prelude.{◌≡◌, ◌+◌, ◌*◌, ◌<◌, ◌≤◌, ◌++◌, map, length, Some, Ok};
ghost use Rattle.model.specs.Elements.{kind_byte, id_byte};
ghost use Rattle.record.specs.Hex.{hex, decoded};
ghost use Rattle.record.specs.Pairs.{unpaired};
ghost use Rattle.record.specs.SchemaRecords.{schema_bytes, schema_line};
ghost use Rattle.schema.specs.Checks.{schema_read};
ghost use Rattle.schema.specs.Schemas.{parts};
ghost use Rattle.outline.specs.Sayings.{element_bytes, edge_bytes, raw_of};

use arrayvec::ArrayVec;
use model::{Edge, Element};
use record::digits;
use schema::schema::Schema;

// How many bytes the longest record has: of 128 elements and 32 sync edges.
const RECORD_LIMIT: usize = 325;

fn kind_byte(element: Element) -> u8
    ensures { result ≡ kind_byte element }
{
    match element {
        Element::Activity(_) => 1,
        Element::AndSplit => 2,
        Element::Bar => 3,
        Element::AndJoin => 4,
        Element::XorSplit(_) => 5,
        Element::XorJoin => 6,
        Element::LoopStart => 7,
        Element::LoopEnd(_) => 8,
    }
}

// The id, or FF where there is none.
fn id_byte(element: Element) -> u8
    ensures { result ≡ id_byte element }
{
    match element.id() {
        Some(id) => id,
        None => 0xFF,
    }
}

// Puts the bytes of the elements at the end.
fn put_row(bytes: &mut ArrayVec<u8, RECORD_LIMIT>, row: &[Element])
    requires { length bytes.old.items + 2 * length row.now ≤ 325 }
    ensures { bytes.new.items ≡ bytes.old.items ++ unpaired (map element_bytes row.now) }
{
    for element in row {
        bytes.push(kind_byte(*element));
        bytes.push(id_byte(*element));
    }
}

// Puts the bytes of the edges at the end.
fn put_edges(bytes: &mut ArrayVec<u8, RECORD_LIMIT>, edges: &[Edge])
    requires { length bytes.old.items + 2 * length edges.now ≤ 325 }
    ensures { bytes.new.items ≡ bytes.old.items ++ unpaired (map edge_bytes edges.now) }
{
    for edge in edges {
        bytes.push(edge.source);
        bytes.push(edge.target);
    }
}

// The bytes of its record.
fn record_of(schema: &Schema) -> ArrayVec<u8, RECORD_LIMIT>
    ensures value { result.items ≡ schema_bytes (raw_of (parts schema.now)) }
    ensures few { length result.items ≤ 325 }
{
    let row = schema.row();
    let edges = schema.edges();
    let [high, low] = schema.version().to_be_bytes();
    let mut bytes = ArrayVec::new();
    bytes.push(1);
    bytes.push(high);
    bytes.push(low);
    bytes.push(row.len() as u8);
    put_row(&mut bytes, row);
    bytes.push(edges.len() as u8);
    put_edges(&mut bytes, edges);
    bytes
}

// The characters that spell bytes, two each.
fn spell(bytes: &[u8]) -> ArrayVec<u8, 650>
    requires some { 0 < length bytes.now }
    requires few { length bytes.now ≤ 325 }
    ensures line { result.items ≡ hex bytes.now }
    ensures decoded { decoded result.items ≡ Some bytes.now }
{
    let mut line = ArrayVec::new();
    for byte in bytes {
        let [high, low] = digits(*byte);
        line.push(high);
        line.push(low);
    }
    line
}

// Its line, without the newline.
pub fn schema_line(schema: &Schema) -> ArrayVec<u8, 650>
    ensures line { result.items ≡ schema_line (raw_of (parts schema.now)) }
    ensures read_again { schema_read result.items ≡ Ok (parts schema.now) }
{
    let bytes = record_of(schema);
    spell(bytes.as_slice())
}
