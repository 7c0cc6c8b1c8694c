//! Why nothing is changed inside nested lists and dicts.
ghost use Rattle.std.specs.Prelude.{◌≡◌, ◌++◌, IfOk, codes};

use std::alloc::{AllocError, AllocFailed, Global};
use tcl_text::index::bad_index_message;
use tcl_text::list::{ListError, ListFault};
use tcl_text::messages::{OUT_OF_MEMORY, OUT_OF_RANGE, TOO_LONG};
use tcl_text::text::Text;
use tcl_value::dict_fault::{DictError, DictFault, EntryError};
use tcl_value::value::{ChangeError, ValueError};
use thiserror::Error;

/// What is at fault in a text, or in the path of indexes or keys into it.
#[derive(Debug, Drop, Error)]
pub enum NestedFault {
    /// A text on the way spells no list (101 to 104).
    #[error(transparent)]
    List(ListFault),
    /// A text on the way spells no dict (101 to 104, 121).
    #[error(transparent)]
    Dict(DictFault),
    /// This is no index (114).
    #[error("114: bad index \"{0}\"")]
    BadIndex(Text),
    /// A list on the way has no such place (243).
    #[error("243: {}", OUT_OF_RANGE)]
    NoPlace,
    /// A dict on the way hasn't this key (242).
    #[error("242: key \"{0}\" not known in dictionary")]
    UnknownKey(Text),
}

/// Why nothing is changed.
#[derive(Debug, Drop, Error)]
pub enum NestedError {
    /// Want of memory.
    #[error("{}", OUT_OF_MEMORY)]
    Memory,
    /// The changed text would be longer than a value may be (122).
    #[error("122: {}", TOO_LONG)]
    TooLong,
    /// The text or the path has a fault.
    #[error(transparent)]
    Fault(NestedFault),
}

impl NestedFault {
    ghost use Rattle.tcl_lists.specs.Errors.{nested_message};

    /// What an error says of it.
    ///
    /// # Errors
    /// Want of memory.
    pub fn message(&self, alloc: Global) -> Result<Text, AllocError>
        ensures { IfOk result (λ made. made ≡ nested_message self.now) }
    {
        match self {
            NestedFault::List(fault) => fault.message(alloc),
            NestedFault::Dict(fault) => fault.message(alloc),
            NestedFault::BadIndex(index) => bad_index_message(alloc, index.as_str()),
            NestedFault::NoPlace => Text::new(alloc, OUT_OF_RANGE),
            NestedFault::UnknownKey(key) => unknown_key_message(alloc, key.as_str()),
        }
    }
}

/// What is told of a key that a dict hasn't (242).
///
/// # Errors
/// Want of memory.
pub fn unknown_key_message(alloc: Global, key: &str) -> Result<Text, AllocError>
    ensures { IfOk result (λ made. made
        ≡ codes "key \"" ++ key.now ++ codes "\" not known in dictionary") }
{
    let mut text = String::from_str(alloc, "key \"")?;
    text.push_str(key)?;
    text.push_str("\" not known in dictionary")?;
    Text::from_string(alloc, text)
}

impl From<AllocError> for NestedError {
    ghost use Rattle.std.specs.Prelude.{◌≡◌};
    ghost use Rattle.tcl_lists.specs.declared.fault.NestedError.TheVariants.{Memory};

    ghost from_gives = { λ _ e. e ≡ Memory };

    fn from(_e: AllocError) -> NestedError {
        NestedError::Memory
    }
}

impl<T: Drop> From<AllocFailed<T>> for NestedError {
    ghost use Rattle.std.specs.Prelude.{◌≡◌};
    ghost use Rattle.tcl_lists.specs.declared.fault.NestedError.TheVariants.{Memory};

    ghost from_gives = { λ _ e. e ≡ Memory };

    fn from(_e: AllocFailed<T>) -> NestedError {
        NestedError::Memory
    }
}

impl From<ValueError> for NestedError {
    ghost use Rattle.std.specs.Prelude.{◌≡◌};
    ghost use Rattle.tcl_lists.specs.Errors.{of_value};

    ghost from_gives = { λ x e. e ≡ of_value x };

    fn from(e: ValueError) -> NestedError {
        match e {
            ValueError::Memory => NestedError::Memory,
            ValueError::TooLong => NestedError::TooLong,
        }
    }
}

impl From<ListError> for NestedError {
    ghost use Rattle.std.specs.Prelude.{◌≡◌};
    ghost use Rattle.tcl_lists.specs.Errors.{of_list};

    ghost from_gives = { λ x e. e ≡ of_list x };

    fn from(e: ListError) -> NestedError {
        match e {
            ListError::Memory => NestedError::Memory,
            ListError::Fault(fault) => NestedError::Fault(NestedFault::List(fault)),
        }
    }
}

impl From<DictError> for NestedError {
    ghost use Rattle.std.specs.Prelude.{◌≡◌};
    ghost use Rattle.tcl_lists.specs.Errors.{of_dict};

    ghost from_gives = { λ x e. e ≡ of_dict x };

    fn from(e: DictError) -> NestedError {
        match e {
            DictError::Memory => NestedError::Memory,
            DictError::Fault(fault) => NestedError::Fault(NestedFault::Dict(fault)),
        }
    }
}

impl From<ChangeError> for NestedError {
    ghost use Rattle.std.specs.Prelude.{◌≡◌};
    ghost use Rattle.tcl_lists.specs.Errors.{of_change};

    ghost from_gives = { λ x e. e ≡ of_change x };

    fn from(e: ChangeError) -> NestedError {
        match e {
            ChangeError::Memory => NestedError::Memory,
            ChangeError::TooLong => NestedError::TooLong,
            ChangeError::List(fault) => NestedError::Fault(NestedFault::List(fault)),
            ChangeError::NoElement => NestedError::Fault(NestedFault::NoPlace),
        }
    }
}

impl From<EntryError> for NestedError {
    ghost use Rattle.std.specs.Prelude.{◌≡◌};
    ghost use Rattle.tcl_lists.specs.Errors.{of_entry};

    ghost from_gives = { λ x e. e ≡ of_entry x };

    fn from(e: EntryError) -> NestedError {
        match e {
            EntryError::Memory => NestedError::Memory,
            EntryError::TooLong => NestedError::TooLong,
            EntryError::Fault(fault) => NestedError::Fault(NestedFault::Dict(fault)),
        }
    }
}
