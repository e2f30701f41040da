// Places in a table, by a key: an id, or a place.
ghost use Rattle.std.specs.Prelude.{◌≡◌, None, slice_index_or};
ghost use Rattle.layout.specs.Pass.{written};

use bounded::{get_or, put};

// What the table has under a key; nothing past its end.
pub(crate) fn lookup(table: &[Option<u8>], key: usize) -> Option<usize>
    ensures { result ≡ slice_index_or table.now key None }
{
    get_or(table, key, None).map(usize::from)
}

// Writes a place under a key, if there is one.
pub(crate) fn write(table: &mut [Option<u8>], key: Option<u8>, place: u8)
    ensures { table.new ≡ written key place table.old }
{
    if let Some(key) = key {
        put(table, usize::from(key), Some(place));
    }
}
