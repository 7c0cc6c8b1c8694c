//! What C keeps of an object.
ghost use Rattle.std.specs.Prelude.{◌≡◌, Some, None, IfErr, IfNone, IfSome, OnOk, is_some};
ghost use Rattle.tcl_c.specs.Handles.{IsUnplaced};

use crate::object::{Kept, Object};
use crate::opened::Opened;
use crate::sealed::Sealed;
use std::alloc::Global;
use std::mem::replace;
use tcl_sessions::refusal::Refusal;

/// An object, or none: all bytes zero are none. C reads and writes neither word.
#[repr(C)]
pub struct Handle {
    sealed: Sealed,
    live: bool,
    ghost fits: { live ≡ is_some sealed.value },
}

impl Handle {
    /// None.
    fn none(alloc: Global) -> Handle
        ensures { result.sealed.value ≡ None }
    {
        Handle {
            sealed: Sealed::empty(alloc),
            live: false,
        }
    }

    /// Takes the object out.
    pub(crate) fn take(&mut self, alloc: Global) -> Option<Box<Kept>>
        ensures taken { IfSome result (λ object. self.old.sealed.value ≡ Some object.value) }
        ensures none { IfNone result (self.old.sealed.value ≡ None) }
        ensures left { self.new.sealed.value ≡ None }
    {
        let Handle { sealed, live } = replace(self, Handle::none(alloc));
        if live {
            Some(sealed.open().into_box())
        } else {
            sealed.forget();
            None
        }
    }

    /// Puts an object in, where none is.
    pub(crate) fn put(&mut self, object: Box<Kept>)
        requires { self.old.sealed.value ≡ None }
        ensures { self.new.sealed.value ≡ Some object.value }
    {
        let filled = Handle {
            sealed: Sealed::seal(Opened::of(object)),
            live: true,
        };
        let Handle { sealed, live: _ } = replace(self, filled);
        sealed.forget();
    }

    /// Room for an object that is to be put in, where none is.
    ///
    /// # Errors
    /// 422 where one is; 401.
    pub(crate) fn room(&mut self, alloc: Global) -> Result<Box<Kept>, Refusal>
        ensures empty { OnOk result (self.old.sealed.value ≡ None) }
        ensures refused { IfErr result (λ e. IsUnplaced self.old.sealed.value e) }
        ensures same { self.new.sealed.value ≡ self.old.sealed.value }
    {
        if let Some(object) = self.take(alloc) {
            self.put(object);
            return Err(Refusal::AlreadyHeld);
        }
        Ok(Box::new(
            alloc,
            Kept {
                object: Object::Nothing,
            },
        )?)
    }
}

/// Takes the object out of a handle, does something with it, and puts it back; or gives something
/// else where the handle holds none.
macro_rules! with_object {
    ($alloc:ident, $handle:ident, $absent:expr, mut $object:ident => $does:expr) => {
        match $handle.take($alloc) {
            Some(mut kept) => {
                let $object = &mut kept.object;
                let answer = $does;
                $handle.put(kept);
                answer
            }
            None => $absent,
        }
    };
    ($alloc:ident, $handle:ident, $absent:expr, $object:ident => $does:expr) => {
        match $handle.take($alloc) {
            Some(kept) => {
                let $object = &kept.object;
                let answer = $does;
                $handle.put(kept);
                answer
            }
            None => $absent,
        }
    };
}

pub(crate) use with_object;
