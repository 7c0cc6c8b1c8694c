//! A pointer that may go to C: it owns a boxed object, or nothing.
ghost use Rattle.std.specs.Prelude.{◌≡◌, Option, Some, None, IsSome};

use crate::object::Kept;
use crate::opened::Opened;
use std::alloc::Global;
use std::marker::Model;
use std::ptr::null_mut;

/// The pointer, whose type C can't look into.
#[repr(C)]
pub struct Sealed {
    at: *mut u8,
    alloc: Global,
    pub ghost value: { Option (Unit {0}) },
}

impl Model for Sealed {
    ghost use Rattle.tcl_c.specs.Held.{held};

    ghost also_owns = { λ s. held s.alloc s.at s.value };
}

impl Sealed {
    /// One that owns nothing.
    pub(crate) fn empty(alloc: Global) -> Sealed
        ensures { result.value ≡ None }
    {
        Sealed {
            at: null_mut(),
            alloc,
        }
    }

    /// Seals a box that was taken apart.
    pub(crate) fn seal(opened: Opened<Kept, Global>) -> Sealed
        ensures { result.value ≡ Some opened.value }
    {
        let Opened { at, alloc } = opened;
        Sealed {
            at: at as *mut u8,
            alloc,
        }
    }

    /// Opens it again.
    pub(crate) fn open(self) -> Opened<Kept, Global>
        requires { IsSome self.value }
        ensures { self.value ≡ Some result.value }
    {
        let Sealed { at, alloc } = self;
        Opened {
            at: at as *mut Kept,
            alloc,
        }
    }

    /// Lets one go that owns nothing.
    pub(crate) fn forget(self)
        requires { self.value ≡ None }
    {
        let Sealed { at: _, alloc: _ } = self;
    }
}
