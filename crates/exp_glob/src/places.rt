//! Parts of a slice before and after an index.

ghost use Rattle.std.specs.Prelude.{◌≡◌, ◌≤◌, drop, take, length};

/// Returns the items from an index on.
pub(crate) fn after<T>(items: &[T], at: usize) -> &[T]
    requires { at ≤ length items.now }
    ensures { result.now ≡ drop at items.now }
{
    items.split_at(at).1
}

/// Returns the items before an index, or all items if it is past the end.
pub(crate) fn before(items: &[u8], at: usize) -> &[u8]
    ensures { result.now ≡ take at items.now }
{
    if items.len() <= at {
        return items;
    }
    items.split_at(at).0
}
