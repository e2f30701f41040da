// A change carried out: the changed row and edges are put into empty ones.
ghost use Rattle.std.specs.Prelude.{◌≡◌, ◌+◌, ◌≤◌, [], ◌++◌, length, take, drop, not};
ghost use Rattle.std.specs.List.{filter};
ghost use Rattle.changes.specs.Effects.{is_activity, row_after, edges_after};
ghost use Rattle.changes.specs.declared.Change.TheVariants.{Insert, InsertBeside};
ghost use Rattle.drafts.specs.Carrying.{stays};

use changes::Change;
use model::{Edge, EdgeList, Element, Row};

// The elements before a gap; all of them if it lies behind the row.
fn front(row: &[Element], gap: usize) -> &[Element]
    ensures { result.now ≡ take gap row.now }
{
    &row[..gap.min(row.len())]
}

// The elements behind a gap.
fn back(row: &[Element], gap: usize) -> &[Element]
    ensures { result.now ≡ drop gap row.now }
{
    &row[gap.min(row.len())..]
}

// Puts more elements at the end.
pub(crate) fn extend(row: &mut Row, more: &[Element])
    requires { length row.old + length more.now ≤ 128 }
    ensures { row.new ≡ row.old ++ more.now }
{
    for element in more {
        row.push(*element).unwrap();
    }
}

// All elements but one activity.
fn extend_without(row: &mut Row, old: &[Element], id: u8)
    requires empty { row.old ≡ [] }
    requires few { length old.now ≤ 128 }
    ensures { row.new ≡ filter (λ x. not (is_activity x id)) old.now }
{
    for element in old {
        if *element != Element::Activity(id) {
            row.push(*element).unwrap();
        }
    }
}

// The row after a change of an old one.
pub(crate) fn change_row(row: &mut Row, old: &[Element], change: Change)
    requires empty { row.old ≡ [] }
    requires few { length old.now ≤ 128 }
    requires fits { length (row_after change old.now) ≤ 128 }
    ensures { row.new ≡ row_after change old.now }
{
    match change {
        Change::DropEdge(_) | Change::AddEdge(_) => extend(row, old),
        Change::Delete { id } => extend_without(row, old, id),
        Change::Insert { id, gap } => insert(row, old, id, usize::from(gap)),
        Change::InsertBeside { id, from, to } => {
            insert_beside(row, old, id, usize::from(from), usize::from(to));
        }
    }
}

// The row with an activity put in at a gap.
fn insert(row: &mut Row, old: &[Element], id: u8, gap: usize)
    requires empty { row.old ≡ [] }
    requires fits { length (row_after (Insert id gap) old.now) ≤ 128 }
    ensures { row.new ≡ row_after (Insert id gap) old.now }
{
    extend(row, front(old, gap));
    extend(row, &[Element::Activity(id)]);
    extend(row, back(old, gap));
}

// The row with the elements between two gaps in branch 0 of a new AND block, and an activity in its branch 1.
fn insert_beside(row: &mut Row, old: &[Element], id: u8, from: usize, to: usize)
    requires empty { row.old ≡ [] }
    requires fits { length (row_after (InsertBeside id from to) old.now) ≤ 128 }
    ensures { row.new ≡ row_after (InsertBeside id from to) old.now }
{
    extend(row, front(old, from));
    extend(row, &[Element::AndSplit]);
    extend(row, front(back(old, from), to.saturating_sub(from)));
    extend(
        row,
        &[Element::Bar, Element::Activity(id), Element::AndJoin],
    );
    extend(row, back(old, to));
}

// Puts more edges at the end.
pub(crate) fn extend_edges(edges: &mut EdgeList, more: &[Edge])
    requires { length edges.old + length more.now ≤ 32 }
    ensures { edges.new ≡ edges.old ++ more.now }
{
    for edge in more {
        edges.push(*edge).unwrap();
    }
}

// Whether a listed edge stays.
fn stays(change: Change, edge: Edge) -> bool
    ensures { result ≡ stays change edge }
{
    match change {
        Change::DropEdge(dropped) => edge != dropped,
        Change::Delete { id } => edge.source != id && edge.target != id,
        Change::Insert { .. } | Change::InsertBeside { .. } | Change::AddEdge(_) => true,
    }
}

// Puts the edges that stay at the end.
fn extend_staying(edges: &mut EdgeList, old: &[Edge], change: Change)
    requires empty { edges.old ≡ [] }
    requires few { length old.now ≤ 32 }
    ensures { edges.new ≡ filter (stays change) old.now }
{
    for edge in old {
        if stays(change, *edge) {
            edges.push(*edge).unwrap();
        }
    }
}

// The edges after a change of old ones.
pub(crate) fn change_edges(edges: &mut EdgeList, old: &[Edge], change: Change)
    requires empty { edges.old ≡ [] }
    requires few { length old.now ≤ 32 }
    requires fits { length (edges_after change old.now) ≤ 32 }
    ensures { edges.new ≡ edges_after change old.now }
{
    match change {
        Change::AddEdge(edge) => {
            extend_edges(edges, old);
            edges.push(edge).unwrap();
        }
        _ => extend_staying(edges, old, change),
    }
}
