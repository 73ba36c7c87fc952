// A list of at most N items, held in the value itself: the engine takes nothing from the heap.
ghost use Rattle.std.specs.Prelude.{◌≡◌, ◌≤◌, ⊤};

use std::alloc::AllocError;

pub mod items;

pub struct Few<T, const N: usize> {
    count: usize,
    room: [T; N],
    ghost within: { count ≤ N },
}

// Written out, since a derive cannot say what the field of the bound holds.
impl<T: Copy, const N: usize> Clone for Few<T, N> {
    ghost is_clone = { λ x y. y ≡ x };

    ghost is_infallible = { λ _. ⊤ };

    fn clone(&self) -> Result<Few<T, N>, AllocError> {
        Ok(*self)
    }
}

impl<T: Copy, const N: usize> Copy for Few<T, N> {}
