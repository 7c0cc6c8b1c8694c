//! Evaluations of which is recorded what crosses the boundary of one interpreter.

/// Evaluates with a host, as `evaluation::eval` does, and records. The host is given back; a host
/// that is lent, `&mut host`, serves as well.
pub use tcl_replay::watching::eval_watched;
/// Why there is no record (122, 401 to 404, 411).
pub use tcl_replay::watching::Unwatched;
/// What there is of an evaluation in which the watched interpreter was deleted: its end, and the
/// record until then.
pub use tcl_replay::watching::Deletion;
/// The same over any outside, as `evaluation::open_run`; the outside is given back.
pub use tcl_replay::open_watching::open_watched;
/// Why there is no record of an open evaluation (122, 401 to 404, 411).
pub use tcl_replay::open_watching::OpenUnwatched;
/// What there is of an open evaluation in which the watched interpreter was deleted.
pub use tcl_replay::open_watching::OpenDeletion;
/// What crossed the boundary of the watched interpreter, in order.
pub use tcl_recorder::record::Record;
/// One crossing: an entry that comes in, its end, a call that goes out, or the answer to it.
pub use tcl_recorder::crossing::Crossing;
/// How an entry or a call ended.
pub use tcl_recorder::crossing::Reply;
/// What came back to a call: a reply, or what the host said.
pub use tcl_recorder::crossing::Answer;
/// A record as lines of text, one for each crossing.
pub use tcl_player::lines::record_lines;
/// Crossings as lines of text, as those that `Replayed::outwards` gives.
pub use tcl_player::lines::crossing_lines;
/// One crossing as a line of text.
pub use tcl_player::lines::crossing_line;
