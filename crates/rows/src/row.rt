// A list in an array.
ghost use Rattle.std.specs.Prelude.{◌≡◌, ◌≤◌, ⊤};

use std::alloc::AllocError;

// The front of an array.
pub struct Row<T, const N: usize> {
    pub(crate) cells: [T; N],
    pub(crate) len: usize,
    ghost within: { len ≤ N },
}

impl<T: Copy, const N: usize> Copy for Row<T, N> {}

impl<T: Copy, const N: usize> Clone for Row<T, N> {
    ghost is_clone = { λ a b. b ≡ a };

    ghost is_infallible = { λ _. ⊤ };

    fn clone(&self) -> Result<Row<T, N>, AllocError> {
        Ok(*self)
    }
}
