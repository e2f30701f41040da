// Whether a change may come after others, and why not.
ghost use Rattle.std.specs.Prelude.{◌≡◌, ◌&&◌, true, length, not, [], is_some, nat_lt, nat_le};
ghost use Rattle.blocks.specs.Blocks.{fault};
ghost use Rattle.schema.specs.Reading.{among};
ghost use Rattle.schema.specs.Schemas.{parts};
ghost use Rattle.changes.specs.Effects.{is_activity, has_activity, stretch, row_after, edges_after};
ghost use Rattle.draft_rules.specs.Rules.{adds, any_adds, low_ids, formed, there, new_id, put_in, unused, fits, edge_kept, change_judged};

use blocks::check_blocks;
use changes::Change;
use draft_rules::ChangeRefusal;
use model::Element;
use plan_record::RawChange;
use schema::schema::Schema;

// Whether it puts something in, rather than taking something out.
fn adds(change: Change) -> bool
    ensures { result ≡ adds change }
{
    match change {
        Change::DropEdge(_) | Change::Delete { .. } => false,
        Change::Insert { .. } | Change::InsertBeside { .. } | Change::AddEdge(_) => true,
    }
}

fn any_adds(changes: &[Change]) -> bool
    ensures { result ≡ any_adds changes.now }
{
    changes.iter().any(|change| adds(*change))
}

fn has_low_ids(change: Change) -> bool
    ensures { result ≡ low_ids change }
{
    match change {
        Change::DropEdge(edge) | Change::AddEdge(edge) => edge.source < 64 && edge.target < 64,
        Change::Delete { id } | Change::Insert { id, .. } | Change::InsertBeside { id, .. } => {
            id < 64
        }
    }
}

// Whether its ids end at 63, and it takes nothing out after others have put in.
fn is_formed(done: &[Change], change: Change) -> bool
    ensures { result ≡ formed done.now change }
{
    has_low_ids(change) && (adds(change) || !any_adds(done))
}

fn is_activity(element: Element, id: u8) -> bool
    ensures { result ≡ is_activity element id }
{
    match element {
        Element::Activity(activity) => activity == id,
        _ => false,
    }
}

fn has_activity(row: &[Element], id: u8) -> bool
    ensures { result ≡ has_activity row.now id }
{
    row.iter().any(|element| is_activity(*element, id))
}

// Whether whole items stand between two gaps.
fn has_items(row: &[Element], from: usize, to: usize) -> bool
    ensures { result ≡ ((nat_lt from to && nat_le to (length row.now)) && not (is_some (fault [] 0 (stretch from to row.now)))) }
{
    from < to && to <= row.len() && check_blocks(&row[from..to]).is_ok()
}

// Whether its edge, activities, gap or whole items are there.
fn is_there(schema: &Schema, change: Change) -> bool
    ensures { result ≡ there (parts schema.now) change }
{
    let row = schema.row();
    match change {
        Change::DropEdge(edge) => schema.edges().contains(&edge),
        Change::Delete { id } => has_activity(row, id),
        Change::Insert { gap, .. } => usize::from(gap) <= row.len(),
        Change::InsertBeside { from, to, .. } => has_items(row, usize::from(from), usize::from(to)),
        Change::AddEdge(edge) => has_activity(row, edge.source) && has_activity(row, edge.target),
    }
}

// The id of the activity that it puts in.
fn new_id(change: Change) -> Option<u8>
    ensures { result ≡ new_id change }
{
    match change {
        Change::Insert { id, .. } | Change::InsertBeside { id, .. } => Some(id),
        Change::DropEdge(_) | Change::Delete { .. } | Change::AddEdge(_) => None,
    }
}

fn is_among(row: &[Element], id: u8) -> bool
    ensures { result ≡ among row.now id }
{
    row.iter().any(|element| element.id() == Some(id))
}

// Whether one of these changes put this id in.
fn was_put_in(changes: &[Change], id: u8) -> bool
    ensures { result ≡ put_in changes.now id }
{
    changes.iter().any(|change| new_id(*change) == Some(id))
}

// Whether the id is neither in the first row, even if it was deleted since, nor was put in since.
fn is_unused(base: &[Element], done: &[Change], id: Option<u8>) -> bool
    ensures { result ≡ unused base.now done.now id }
{
    match id {
        Some(id) => !(is_among(base, id) || was_put_in(done, id)),
        None => true,
    }
}

// Whether it leaves no more elements and edges than a schema may have. What it speaks of is there, so its gaps lie in the row.
fn has_room(schema: &Schema, change: Change) -> bool
    requires { there (parts schema.now) change ≡ true }
    ensures { result ≡ (nat_le (length (row_after change (parts schema.now).row)) 128 && nat_le (length (edges_after change (parts schema.now).edges)) 32) }
{
    match change {
        Change::DropEdge(_) | Change::Delete { .. } => true,
        Change::Insert { .. } => schema.row().len() < 128,
        Change::InsertBeside { .. } => schema.row().len() <= 124,
        Change::AddEdge(_) => schema.edges().len() < 32,
    }
}

// Whether besides it is no more than the sixteenth change.
fn fits(done: &[Change], schema: &Schema, change: Change) -> bool
    requires { there (parts schema.now) change ≡ true }
    ensures { result ≡ fits done.now (parts schema.now) change }
{
    done.len() < 16 && has_room(schema, change)
}

// Whether an added edge keeps the rules for edges, behind those that are listed.
fn keeps_edge_rules(schema: &Schema, change: Change) -> bool
    ensures { result ≡ edge_kept (parts schema.now) change }
{
    match change {
        Change::AddEdge(edge) => schema.admits(edge),
        _ => true,
    }
}

// The change that four bytes spell, or why it may not come after these, which made this schema of one with the row `base`.
pub(crate) fn judge(
    base: &[Element],
    done: &[Change],
    schema: &Schema,
    raw: RawChange,
) -> Result<Change, ChangeRefusal>
    ensures { result ≡ change_judged base.now done.now (parts schema.now) raw }
{
    let Ok(change) = Change::try_from(raw) else {
        return Err(ChangeRefusal::Form);
    };
    if !is_formed(done, change) {
        Err(ChangeRefusal::Form)
    } else if !is_there(schema, change) {
        Err(ChangeRefusal::Missing)
    } else if !is_unused(base, done, new_id(change)) {
        Err(ChangeRefusal::Used)
    } else if !fits(done, schema, change) {
        Err(ChangeRefusal::Full)
    } else if !keeps_edge_rules(schema, change) {
        Err(ChangeRefusal::Edge)
    } else {
        Ok(change)
    }
}
