//! Functions of one's own that scripts call, and outsides that do more.
//!
//! A script reaches a function by an alias that leads past the root of its tree, which
//! `set_function` makes; no script can make such an alias. The run is an open one, over functions
//! and a host together: `evaluation::open_run` with a `WithFunctions`.

/// What an embedder implements: one method, which is asked for each call of a script what comes
/// next.
pub use tcl_functions::functions::Functions;
/// A call that is open: who calls, by which name, with which words, and what the entries gave that
/// the function handed in.
pub use tcl_functions::call::Call;
/// What a function does next: it answers or fails (`answer`, `fail`), evaluates something in an
/// interpreter first (`eval`), or ends the whole run.
pub use tcl_functions::action::Action;
/// Makes a name of an interpreter a function of the embedder (238, 301, 302).
pub use tcl_functions::aliases::set_function;
/// Functions and a host, together the outside of a tree.
pub use tcl_functions::serving::WithFunctions;
/// The error of a function that handed in more than 18446744073709551615 entries.
pub use tcl_functions::serving::TOO_MANY_ENTRIES;

/// All that isn't in a tree, for who writes one of its own: it is told of each crossing and each
/// step, answers the calls that leave the tree, and may hand in entries meanwhile.
pub use tcl_run::outside::Outside;
/// What comes next to a call that left the tree: an entry, or the answer.
pub use tcl_run::outside::Turn;
/// What an interpreter is asked for: to evaluate, to call, to change or tell something of itself.
pub use tcl_run::entry::Entry;
/// The entries that evaluate nothing.
pub use tcl_run::entry::OwnEntry;
/// The entries that only ask.
pub use tcl_run::entry::Question;
/// Why an evaluation has no ordinary result, want of memory among the reasons.
pub use tcl_run::interruption::Interruption;
/// Why one was ended from outside.
pub use tcl_run::interruption::Cause;
