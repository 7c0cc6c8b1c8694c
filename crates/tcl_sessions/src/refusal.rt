//! Why calls do nothing.
ghost use Rattle.std.specs.Ordering.{int_eq};
ghost use Rattle.std.specs.Prelude.{◌≡◌, find};
ghost use Rattle.tcl_sessions.specs.Refusals.{number_of, text_of, tree_number, tree_text};

use std::alloc::{AllocError, AllocFailed};
use tcl_eval::running::Refused;
use tcl_replay::replaying::Unplayed;
use tcl_text::list::{ListError, ListFault};
use tcl_text::messages::{
    BAD_DEPTH_LIMIT, CALL_OPEN, COUNT_TOO_LARGE, DENIED, NO_INTERPRETER, OUT_OF_MEMORY, TOO_LONG,
    TOO_MANY, TREE_BROKEN, WAITS, WATCHED_DELETED,
};
use tcl_tree::refusal::TreeError;
use tcl_value::value::ValueError;

/// Why a call did nothing.
#[derive(Clone, Copy)]
pub enum Refusal {
    /// 101: an open brace of a list has no close brace.
    UnmatchedBrace,
    /// 102: an open quote of a list has no close quote.
    UnmatchedQuote,
    /// 103: text follows an element in braces.
    AfterBrace,
    /// 104: text follows an element in quotes.
    AfterQuote,
    /// 122: a text is longer than 16777216 bytes.
    TooLong,
    /// 265: bytes aren't UTF-8.
    NotUtf8,
    /// 267: there is no such file.
    NoFile,
    /// 238, 245, 301 to 309: the tree refuses it so, but not for want of memory.
    Tree(TreeError),
    /// 401: memory was wanted.
    Memory,
    /// 402: memory was wanted in an evaluation before.
    Broken,
    /// 403: nobody is there to evaluate, to be watched or saved.
    Nobody,
    /// 404: more steps would be counted than can be.
    CountTooLarge,
    /// 411: the watched interpreter was deleted.
    Deleted,
    /// 412: what is saved waits for an answer.
    Waits,
    /// 421: a handle holds nothing.
    NothingHeld,
    /// 422: a handle that is to be filled holds something.
    AlreadyHeld,
    /// 423: a handle holds something of another kind.
    OtherKind,
    /// 424: a call is open.
    CallOpen,
    /// 425: no call is open.
    NoCallOpen,
    /// 426: there is no such style of integers.
    NoStyle,
    /// 427: there is no record.
    NoRecord,
}

/// All of them, by their numbers.
pub const ALL: [Refusal; 30] = [
    Refusal::UnmatchedBrace,
    Refusal::UnmatchedQuote,
    Refusal::AfterBrace,
    Refusal::AfterQuote,
    Refusal::TooLong,
    Refusal::Tree(TreeError::BadName),
    Refusal::Tree(TreeError::BadCount),
    Refusal::NotUtf8,
    Refusal::NoFile,
    Refusal::Tree(TreeError::NoInterpreter),
    Refusal::Tree(TreeError::Exists),
    Refusal::Tree(TreeError::Denied),
    Refusal::Tree(TreeError::NoCommand),
    Refusal::Tree(TreeError::NoHidden),
    Refusal::Tree(TreeError::TooMany),
    Refusal::Tree(TreeError::CountLimit(0)),
    Refusal::Tree(TreeError::BadDepthLimit),
    Refusal::Memory,
    Refusal::Broken,
    Refusal::Nobody,
    Refusal::CountTooLarge,
    Refusal::Deleted,
    Refusal::Waits,
    Refusal::NothingHeld,
    Refusal::AlreadyHeld,
    Refusal::OtherKind,
    Refusal::CallOpen,
    Refusal::NoCallOpen,
    Refusal::NoStyle,
    Refusal::NoRecord,
];

impl Refusal {
    /// Its number.
    #[tactic(auto, unfolding(crate::specs::Refusals::number_of))]
    pub fn number(self) -> i32
        ensures { result ≡ number_of self }
    {
        match self {
            Refusal::UnmatchedBrace => 101,
            Refusal::UnmatchedQuote => 102,
            Refusal::AfterBrace => 103,
            Refusal::AfterQuote => 104,
            Refusal::TooLong => 122,
            Refusal::NotUtf8 => 265,
            Refusal::NoFile => 267,
            Refusal::Tree(error) => tree_number(error),
            Refusal::Memory => 401,
            Refusal::Broken => 402,
            Refusal::Nobody => 403,
            Refusal::CountTooLarge => 404,
            Refusal::Deleted => 411,
            Refusal::Waits => 412,
            Refusal::NothingHeld => 421,
            Refusal::AlreadyHeld => 422,
            Refusal::OtherKind => 423,
            Refusal::CallOpen => 424,
            Refusal::NoCallOpen => 425,
            Refusal::NoStyle => 426,
            Refusal::NoRecord => 427,
        }
    }

    /// What is said of it.
    pub fn text(self) -> &'static str
        ensures { result.now ≡ text_of self }
    {
        match self {
            Refusal::UnmatchedBrace => "unmatched open brace",
            Refusal::UnmatchedQuote => "unmatched open quote",
            Refusal::AfterBrace => "list element in braces followed by other text",
            Refusal::AfterQuote => "list element in quotes followed by other text",
            Refusal::TooLong => TOO_LONG,
            Refusal::NotUtf8 => "not UTF-8",
            Refusal::NoFile => "no such file",
            Refusal::Tree(error) => tree_text(error),
            Refusal::Memory => OUT_OF_MEMORY,
            Refusal::Broken => TREE_BROKEN,
            Refusal::Nobody => NO_INTERPRETER,
            Refusal::CountTooLarge => COUNT_TOO_LARGE,
            Refusal::Deleted => WATCHED_DELETED,
            Refusal::Waits => WAITS,
            Refusal::NothingHeld => "the handle holds nothing",
            Refusal::AlreadyHeld => "the handle holds something already",
            Refusal::OtherKind => "the handle holds something of another kind",
            Refusal::CallOpen => CALL_OPEN,
            Refusal::NoCallOpen => "no call is open",
            Refusal::NoStyle => "no such style of integers",
            Refusal::NoRecord => "there is no record",
        }
    }
}

/// The number of what a tree refuses.
#[tactic(auto, unfolding(crate::specs::Refusals::tree_number))]
fn tree_number(error: TreeError) -> i32
    ensures { result ≡ tree_number error }
{
    match error {
        TreeError::BadName => 238,
        TreeError::BadCount => 245,
        TreeError::NoInterpreter => 301,
        TreeError::Exists => 302,
        TreeError::Denied => 304,
        TreeError::NoCommand => 305,
        TreeError::NoHidden => 306,
        TreeError::TooMany => 307,
        TreeError::CountLimit(_) | TreeError::DepthLimit(_) => 308,
        TreeError::BadDepthLimit => 309,
        TreeError::Memory => 401,
    }
}

/// What is said of what a tree refuses.
fn tree_text(error: TreeError) -> &'static str
    ensures { result.now ≡ tree_text error }
{
    match error {
        TreeError::BadName => "bad name",
        TreeError::BadCount => "bad count",
        TreeError::NoInterpreter => "could not find interpreter",
        TreeError::Exists => "already exists",
        TreeError::Denied => DENIED,
        TreeError::NoCommand => "invalid command name",
        TreeError::NoHidden => "invalid hidden command name",
        TreeError::TooMany => TOO_MANY,
        TreeError::CountLimit(_) | TreeError::DepthLimit(_) => "a limit is exceeded",
        TreeError::BadDepthLimit => BAD_DEPTH_LIMIT,
        TreeError::Memory => OUT_OF_MEMORY,
    }
}

/// The first of these refusals that has that number.
pub fn of_number(all: &[Refusal], number: i32) -> Option<Refusal>
    ensures { result ≡ find (λ r. int_eq (number_of r) number) all.now }
{
    all.iter()
        .copied()
        .find(|refusal| refusal.number() == number)
}

impl From<AllocError> for Refusal {
    ghost use Rattle.tcl_sessions.specs.declared.refusal.Refusal.TheVariants.{Memory};

    ghost from_gives = { λ _ e. e ≡ Memory };

    fn from(_e: AllocError) -> Refusal {
        Refusal::Memory
    }
}

impl<T: Drop> From<AllocFailed<T>> for Refusal {
    ghost use Rattle.tcl_sessions.specs.declared.refusal.Refusal.TheVariants.{Memory};

    ghost from_gives = { λ _ e. e ≡ Memory };

    fn from(_e: AllocFailed<T>) -> Refusal {
        Refusal::Memory
    }
}

impl From<ListError> for Refusal {
    ghost use Rattle.tcl_sessions.specs.Refusals.{of_list};

    ghost from_gives = { λ x e. e ≡ of_list x };

    fn from(error: ListError) -> Refusal {
        match error {
            ListError::Memory => Refusal::Memory,
            ListError::Fault(ListFault::UnmatchedBrace) => Refusal::UnmatchedBrace,
            ListError::Fault(ListFault::UnmatchedQuote) => Refusal::UnmatchedQuote,
            ListError::Fault(ListFault::AfterBrace(_shown)) => Refusal::AfterBrace,
            ListError::Fault(ListFault::AfterQuote(_shown)) => Refusal::AfterQuote,
        }
    }
}

impl From<ValueError> for Refusal {
    ghost use Rattle.tcl_sessions.specs.Refusals.{of_value};

    ghost from_gives = { λ x e. e ≡ of_value x };

    fn from(error: ValueError) -> Refusal {
        match error {
            ValueError::Memory => Refusal::Memory,
            ValueError::TooLong => Refusal::TooLong,
        }
    }
}

impl From<TreeError> for Refusal {
    ghost use Rattle.tcl_sessions.specs.Refusals.{of_tree};

    ghost from_gives = { λ x e. e ≡ of_tree x };

    fn from(error: TreeError) -> Refusal {
        match error {
            TreeError::Memory => Refusal::Memory,
            error => Refusal::Tree(error),
        }
    }
}

impl From<Refused> for Refusal {
    ghost use Rattle.tcl_sessions.specs.Refusals.{of_refused};

    ghost from_gives = { λ x e. e ≡ of_refused x };

    fn from(refused: Refused) -> Refusal {
        match refused {
            Refused::Memory => Refusal::Memory,
            Refused::Broken => Refusal::Broken,
            Refused::NoInterpreter => Refusal::Nobody,
            Refused::CountTooLarge => Refusal::CountTooLarge,
            Refused::TooLong => Refusal::TooLong,
        }
    }
}

impl From<Unplayed> for Refusal {
    ghost use Rattle.tcl_sessions.specs.Refusals.{of_unplayed};

    ghost from_gives = { λ x e. e ≡ of_unplayed x };

    fn from(unplayed: Unplayed) -> Refusal {
        match unplayed {
            Unplayed::Memory => Refusal::Memory,
            Unplayed::CountTooLarge => Refusal::CountTooLarge,
            Unplayed::Waits => Refusal::Waits,
        }
    }
}
