//! How values are refused.
ghost use Rattle.std.specs.Prelude.{◌≡◌, ℕ, List, Result, Err};
ghost use Rattle.tcl_words.specs.Outcomes.{Outcome, Refuses};
ghost use Rattle.tcl_words.specs.Faults.{too_long};
ghost use Rattle.tcl_text.specs.Writing.{fault_message};
ghost use Rattle.tcl_lists.specs.declared.fault.NestedFault.{NestedFault};
ghost use Rattle.tcl_lists.specs.Nested.{RefusesText};
ghost use Rattle.tcl_lists.specs.Errors.{nested_message};
ghost use Rattle.tcl_lists.specs.Changing.{nested_outcome};
ghost use Rattle.tcl_lists.specs.Refusing.{out_of_range, RefusesChange};

use crate::fault::{NestedError, NestedFault};
use std::alloc::{AllocError, Global};
use tcl_text::list::ListFault;
use tcl_text::messages::OUT_OF_RANGE;
use tcl_text::text::Text;
use tcl_value::value::{ChangeError, ValueError};
use tcl_words::refusal::{Refusal, too_long};

/// What is told of a value that isn't made.
pub fn not_made(alloc: Global, why: ValueError) -> Refusal
    ensures { (outcome : Outcome) → (why ≡ ValueError.TooLong → outcome ≡ Err too_long) →
        Refuses result outcome }
{
    match why {
        ValueError::Memory => Refusal::Memory,
        ValueError::TooLong => too_long(alloc),
    }
}

/// What is told of a text that spells no list.
pub fn no_list(alloc: Global, fault: &ListFault) -> Refusal
    ensures { Refuses {X = List ℕ} result (Err (fault_message fault.now)) }
{
    match fault.message(alloc) {
        Ok(text) => Refusal::Fault(text),
        Err(_) => Refusal::Memory,
    }
}

/// What is told of a place that a list hasn't (243).
pub fn out_of_range(alloc: Global) -> Refusal
    ensures { Refuses {X = List ℕ} result (Err out_of_range) }
{
    match Text::new(alloc, OUT_OF_RANGE) {
        Ok(text) => Refusal::Fault(text),
        Err(_) => Refusal::Memory,
    }
}

/// What is told of a list in a value that isn't changed.
pub fn not_changed(alloc: Global, why: ChangeError) -> Refusal
    ensures { RefusesChange result why }
{
    match why {
        ChangeError::Memory => Refusal::Memory,
        ChangeError::TooLong => too_long(alloc),
        ChangeError::List(fault) => no_list(alloc, &fault),
        ChangeError::NoElement => out_of_range(alloc),
    }
}

/// What is told of a fault inside nested lists or dicts.
fn nested_fault(alloc: Global, nested: &NestedFault) -> Refusal
    ensures { Refuses {X = List ℕ} result (Err (nested_message nested.now)) }
{
    match nested.message(alloc) {
        Ok(text) => Refusal::Fault(text),
        Err(_) => Refusal::Memory,
    }
}

/// What is told of nested lists or dicts in a value that isn't changed.
pub fn nested_refusal(alloc: Global, why: NestedError) -> Refusal
    ensures { (outcome : Result (List ℕ) NestedFault) → RefusesText why outcome →
        Refuses result (nested_outcome outcome) }
{
    match why {
        NestedError::Memory => Refusal::Memory,
        NestedError::TooLong => too_long(alloc),
        NestedError::Fault(fault) => nested_fault(alloc, &fault),
    }
}
