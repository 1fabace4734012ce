//! Values in their places.
ghost use Rattle.std.specs.Prelude.{◌≡◌};

/// Puts a value into its place; what stood there is dropped. An assignment would have each of its kinds dropped on its own
/// in the proof of each caller.
pub(crate) fn put<T: Drop>(place: &mut T, value: T)
    ensures { place.new ≡ value }
{
    *place = value;
}
