// Memory for a schema.
ghost use Rattle.std.specs.Prelude.{◌≡◌, [], length, IfOk};

use model::{EdgeList, Row};
use std::alloc::{AllocError, Global};

// Room for the longest row and list of edges. It is taken before a schema is read, so that reading itself
// never wants memory.
#[derive(Drop)]
pub struct Space {
    row: Row,
    edges: EdgeList,
    ghost no_elements: { length row ≡ 0 },
    ghost no_edges: { length edges ≡ 0 },
}

impl Space {
    // Takes the memory; this is all that can want it.
    pub fn new(heap: Global) -> Result<Space, AllocError>
        ensures { IfOk result (λ space. (space.row ≡ []) × (space.edges ≡ [])) }
    {
        let row = Row::new(heap)?;
        let edges = EdgeList::new(heap)?;
        Ok(Space { row, edges })
    }

    // The row and the list, both empty.
    pub fn into_parts(self) -> (Row, EdgeList)
        ensures row { result.0 ≡ [] }
        ensures edges { result.1 ≡ [] }
    {
        let Space { row, edges } = self;
        (row, edges)
    }
}
