// Schemas made of others.
ghost use Rattle.std.specs.Prelude.{◌≡◌, length, IfOk};
ghost use Rattle.schema.specs.Checks.{Admitted};
ghost use Rattle.schema.specs.Schemas.{parts};
ghost use Rattle.draft_rules.specs.Stages.{changed, renewed};

use crate::carrying::{change_edges, change_row, extend, extend_edges};
use changes::Change;
use schema::schema::Schema;
use schema::space::Space;
use std::alloc::{AllocError, Global};

// The same schema with the version that follows its own.
pub(crate) fn renewed(space: Space, base: &Schema) -> Schema
    ensures { parts result ≡ renewed (parts base.now).version (parts base.now) }
{
    let (mut row, mut edges) = space.into_parts();
    extend(&mut row, base.row());
    extend_edges(&mut edges, base.edges());
    Schema::from_parts(base.version().saturating_add(1), row, edges).unwrap()
}

// The schema after a change that it allows.
pub(crate) fn changed(space: Space, old: &Schema, change: Change) -> Schema
    requires { Admitted (changed change (parts old.now)) }
    ensures { parts result ≡ changed change (parts old.now) }
{
    let (mut row, mut edges) = space.into_parts();
    change_row(&mut row, old.row(), change);
    change_edges(&mut edges, old.edges(), change);
    Schema::from_parts(old.version(), row, edges).unwrap()
}

// Memory for sixteen schemas.
pub(crate) fn spaces(heap: Global) -> Result<Vec<Space>, AllocError>
    ensures { IfOk result (λ spaces. length spaces.items ≡ 16) }
{
    let mut spaces = Vec::with_capacity(heap, 16)?;
    while spaces.len() < 16 {
        spaces.push_reserved(Space::new(heap)?);
    }
    Ok(spaces)
}
