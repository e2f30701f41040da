// The elements and edges of a record, as a row and a list.
ghost use Rattle.std.specs.Prelude.{◌≡◌, ℕ, ◌<◌, ◌≤◌, List, [], ◌∷◌, map, length};
ghost use Rattle.model.specs.Elements.{bytes_read};
ghost use Rattle.record.specs.Pairs.{pairs};
ghost use Rattle.schema.specs.Reading.{row_read, edge_of};
ghost use Rattle.schema.specs.Seen.{unseen, RowTold};

use crate::bad_element::BadElement;
use ids::IdSet;
use model::{Edge, EdgeList, Element, Row};
use record::pairs;

// The element that two bytes spell, unless its id was seen before.
fn unseen(seen: IdSet, bytes: (u8, u8)) -> Option<Element>
    ensures { result ≡ unseen seen (bytes_read bytes.0 bytes.1) }
{
    let element = Element::try_from(bytes).ok()?;
    match element.id() {
        Some(id) if seen.has(id) => None,
        _ => Some(element),
    }
}

// Puts the elements of a record into a row; else the place of the first that is wrong.
pub(crate) fn read_row(row: &mut Row, elements: &[u8]) -> Result<(), BadElement>
    requires empty { row.old ≡ [] }
    requires few { length (pairs elements.now) ≤ 128 }
    ensures { RowTold (row_read [] 0 (pairs elements.now)) row.new result }
{
    let mut seen = IdSet::empty();
    for (place, &[kind, id]) in pairs(elements).iter().enumerate() {
        let element = unseen(seen, (kind, id)).ok_or(BadElement { place })?;
        seen = seen.with(element.id());
        row.push(element).unwrap();
    }
    Ok(())
}

// Puts the edges of a record into a list.
pub(crate) fn read_edges(list: &mut EdgeList, edges: &[u8])
    requires empty { list.old ≡ [] }
    requires few { length (pairs edges.now) ≤ 32 }
    ensures { list.new ≡ map edge_of (pairs edges.now) }
{
    for &[source, target] in pairs(edges) {
        list.push(Edge { source, target }).unwrap();
    }
}
