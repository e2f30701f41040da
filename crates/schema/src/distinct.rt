// Whether the ids of a row end at 63 and each is used once.
ghost use Rattle.std.specs.Prelude.{◌≡◌};
ghost use Rattle.schema.specs.Checks.{distinct};
ghost use Rattle.schema.specs.Seen.{fresh};

use ids::IdSet;
use model::Element;

// Whether the element's id, if it has one, ends at 63 and was not seen before.
fn is_fresh(seen: IdSet, element: Element) -> bool
    ensures { result ≡ fresh seen element }
{
    match element.id() {
        Some(id) => id < 64 && !seen.has(id),
        None => true,
    }
}

pub(crate) fn are_distinct(row: &[Element]) -> bool
    ensures { result ≡ distinct row.now }
{
    let mut seen = IdSet::empty();
    for element in row {
        if !is_fresh(seen, *element) {
            return false;
        }
        seen = seen.with(element.id());
    }
    true
}
