//! One error for a program that embeds.
use std::alloc::AllocError;
use std::io;
use tcl_eval::running::Refused;
use tcl_host::reply::HostError;
use tcl_replay::open_watching::OpenUnwatched;
use tcl_replay::replaying::Unplayed;
use tcl_replay::watching::Unwatched;
use tcl_text::boolean::BooleanFault;
use tcl_text::integer::IntegerFault;
use tcl_text::list::ListError;
use tcl_tree::refusal::TreeError;
use tcl_value::dict_fault::{DictError, EntryError};
use tcl_value::value::{ChangeError, ValueError};
use thiserror::Error;

/// Any error of the calls of this crate: `?` makes it of each of them, and `{}` prints it with its
/// number. An error of printing becomes one, too, so that a `main` can return it.
#[derive(Debug, Drop, Error)]
pub enum EmbedError {
    /// Memory is wanted.
    #[error(transparent)]
    Memory(#[from(alloc)] AllocError),
    /// There was no run, or none that came to its end (122, 401 to 404).
    #[error(transparent)]
    Refused(#[from] Refused),
    /// There is no record (122, 401 to 404, 411).
    #[error(transparent)]
    Unwatched(#[from] Unwatched),
    /// There is no record of an open evaluation (122, 401 to 404, 411).
    #[error(transparent)]
    OpenUnwatched(#[from] OpenUnwatched),
    /// Nothing was replayed (401, 404, 412).
    #[error(transparent)]
    Unplayed(#[from] Unplayed),
    /// A call on a tree did nothing (238, 245, 301 to 309).
    #[error(transparent)]
    Tree(#[from] TreeError),
    /// A host refused, or wants memory (261, 262, 267).
    #[error(transparent)]
    Host(#[from] HostError),
    /// A text spells no list (101 to 104).
    #[error(transparent)]
    List(#[from] ListError),
    /// A list is no dict (101 to 104, 121).
    #[error(transparent)]
    Dict(#[from] DictError),
    /// A text is no integer (111, 112).
    #[error(transparent)]
    Integer(#[from] IntegerFault),
    /// A text is no truth value (113).
    #[error(transparent)]
    Boolean(#[from] BooleanFault),
    /// A value isn't made (122).
    #[error(transparent)]
    Value(#[from] ValueError),
    /// A value isn't changed as a list (101 to 104, 122, 243).
    #[error(transparent)]
    Change(#[from] ChangeError),
    /// A value isn't changed as a dict (101 to 104, 121, 122).
    #[error(transparent)]
    Entry(#[from] EntryError),
    /// Something isn't printed or read.
    #[error(transparent)]
    Io(#[from] io::Error),
}
