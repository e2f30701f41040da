// What is read and written within the places of a slice.
ghost use Rattle.std.specs.Prelude.{◌≡◌, slice_index_or, slice_set};

// What stands at a place; `other` stands past the end.
pub fn get_or<T: Copy>(items: &[T], place: usize, other: T) -> T
    ensures { result ≡ slice_index_or items.now place other }
{
    items.get(place).copied().unwrap_or(other)
}

// Writes an item at a place; a slice that ends before it stays as it is. Not by `get_mut`, whose contract does
// not say what the slice holds after the write.
pub fn put<T: Copy>(items: &mut [T], place: usize, item: T)
    ensures { items.new ≡ slice_set items.old place item }
{
    if place < items.len() {
        items[place] = item;
    }
}
