//! The parts of a box.
ghost use Rattle.std.specs.Prelude.{◌≡◌};
ghost use Rattle.std.specs.Box.Ownership.{box_owns};

use std::alloc::Allocator;
use std::marker::Model;

/// The pointer and the allocator of a box. They own the value that it held, and the right to free its place.
pub struct Parts<T, A: Allocator> {
    /// Where the value is.
    pub ptr: *mut T,
    /// What its place was taken from.
    pub alloc: A,
    pub ghost value: { T },
}

impl<T, A: Allocator> Model for Parts<T, A> {
    ghost also_owns = { λ p. box_owns (A.dealloc_token p.alloc) T.row p.ptr p.value };
}

impl<T, A: Allocator> Parts<T, A> {
    /// The parts of this box.
    pub fn from_box(held: Box<T, A>) -> Self
    where
        T: Drop,
        ensures { result.value ≡ held.value }
    {
        let (ptr, alloc) = Box::into_raw_with_allocator(held);
        Self { ptr, alloc }
    }

    /// The box of these parts.
    pub fn into_box(self) -> Box<T, A>
        ensures { result.value ≡ self.value }
    {
        let Self { ptr, alloc } = self;
        unsafe { Box::from_raw(alloc, ptr) }
    }
}
