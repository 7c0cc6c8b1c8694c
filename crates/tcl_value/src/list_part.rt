//! Parts of lists that aren't made yet.
ghost use Rattle.std.specs.Prelude.{◌≡◌, ◌≤◌, ◌↔◌, length, take, drop, IfOk, IsTrue};
ghost use Rattle.tcl_value.specs.Limits.{IsWithin};
ghost use Rattle.tcl_value.specs.Writing.{write};

use crate::list::List;
use std::alloc::{AllocError, Global};
use std::marker::Model;

/// The elements of a list from one place up to another, which contracts see as the list of their
/// texts. They are made a list of their own when that is asked for: until then the whole list is
/// shared.
pub struct ListPart {
    list: List,
    from: usize,
    to: usize,
}

impl Drop for ListPart {
    fn drop(self) {
        let ListPart {
            list: _list,
            from: _from,
            to: _to,
        } = self;
    }
}

impl Model for ListPart {
    ghost use Rattle.std.specs.Prelude.{ℕ, ◌≤◌, length, take, drop, List as Items};
    ghost use Rattle.tcl_value.specs.Parts.{IsPart};

    ghost Value = { Items (Items ℕ) };

    ghost view = { λ a. drop a.from (take a.to a.list) };

    ghost invariant = { λ a. IsPart a.from a.to a.list };
}

impl ListPart {
    /// The elements of a list from one place up to another. This takes no memory.
    pub fn new(list: List, from: usize, to: usize) -> ListPart
        requires order { from ≤ to }
        requires within { to ≤ length list }
        ensures { result ≡ drop from (take to list) }
    {
        ListPart { list, from, to }
    }

    /// Whether its text is short enough for a value.
    pub fn is_within(&self) -> bool
        ensures { IsTrue result ↔ IsWithin (write self.now) }
    {
        self.list.is_part_within(self.from, self.to)
    }

    /// It as a list. Where nobody else shares the whole list and the part is half of it or more,
    /// the list loses its other elements in place, and nothing is copied.
    ///
    /// # Errors
    /// Want of memory.
    pub fn into_list(self, alloc: Global) -> Result<List, AllocError>
        ensures { IfOk result (λ list. list ≡ self) }
    {
        let ListPart { list, from, to } = self;
        list.into_part(alloc, from, to)
    }
}
