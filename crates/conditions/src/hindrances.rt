// Whether a change may be made under a running case.
ghost use Rattle.std.specs.Prelude.{◌≡◌};
ghost use Rattle.schema.specs.Schemas.{parts};
ghost use Rattle.conditions.specs.Conditions.{decided_before, in_order, hindrance};

use crate::deciders::decider;
use crate::gaps::hindered_at;
use crate::states::{has_begun, is_completed, is_skipped};
use changes::Change;
use facts::Facts;
use history::{EntryKind, Store, comes_before};
use marking::marking::node_state;
use model::Edge;
use schema::schema::Schema;

// Whether this decision was made before the node was started.
fn decided_before<S: Store>(store: &S, id: u8, decider: Option<u8>) -> bool
    ensures { result ≡ decided_before (S.view store.now).list id decider }
{
    let Some(decider) = decider else {
        return false;
    };
    comes_before(store, (EntryKind::Choose, decider), (EntryKind::Start, id))
}

// Whether what a new edge asks for happened in its order: its target is not begun; or its source was finished before the
// target was started; or the source is Skipped, and the decision that fell against it was made before that.
fn in_order<S: Store>(schema: &Schema, facts: &Facts, store: &S, edge: Edge) -> bool
    ensures { result ≡ in_order (parts schema.now) facts.now (S.view store.now).list edge }
{
    if !has_begun(schema, facts, edge.target) {
        return true;
    }
    let source = node_state(schema, facts, edge.source);
    if is_skipped(source) {
        return decided_before(store, edge.target, decider(schema, facts, edge.source));
    }
    is_completed(source)
        && comes_before(
            store,
            (EntryKind::End, edge.source),
            (EntryKind::Start, edge.target),
        )
}

// The node by which a change fails in a case with these facts and this history; none if the change is accepted.
pub fn hindrance<S: Store>(schema: &Schema, facts: &Facts, store: &S, change: Change) -> Option<u8>
    ensures { result ≡ hindrance (parts schema.now) facts.now (S.view store.now).list change }
{
    match change {
        Change::DropEdge(_) => None,
        Change::Delete { id } => {
            if has_begun(schema, facts, id) {
                Some(id)
            } else {
                None
            }
        }
        Change::Insert { gap, .. } => hindered_at(schema, facts, gap),
        Change::InsertBeside { to, .. } => hindered_at(schema, facts, to),
        Change::AddEdge(edge) => {
            if in_order(schema, facts, store, edge) {
                None
            } else {
                Some(edge.target)
            }
        }
    }
}
