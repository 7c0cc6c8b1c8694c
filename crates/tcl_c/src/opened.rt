//! A box as its pointer.
ghost use Rattle.std.specs.Prelude.{◌≡◌};
ghost use Rattle.std.specs.Box.Ownership.{box_owns};

use std::alloc::Allocator;
use std::marker::Model;

/// A box that was taken apart. It owns what the box owned.
pub struct Opened<T, A: Allocator> {
    pub(crate) at: *mut T,
    pub(crate) alloc: A,
    pub(crate) ghost value: { T },
}

impl<T, A: Allocator> Model for Opened<T, A> {
    ghost also_owns = { λ o. box_owns (A.dealloc_token o.alloc) T.row o.at o.value };
}

impl<T: Drop, A: Allocator> Opened<T, A> {
    /// The box taken apart.
    pub(crate) fn of(value: Box<T, A>) -> Opened<T, A>
        ensures { result.value ≡ value.value }
    {
        let (at, alloc) = Box::into_raw_with_allocator(value);
        Opened { at, alloc }
    }

    /// The box again.
    pub(crate) fn into_box(self) -> Box<T, A>
        ensures { result.value ≡ self.value }
    {
        let Opened { at, alloc } = self;
        unsafe { Box::from_raw(alloc, at) }
    }
}
