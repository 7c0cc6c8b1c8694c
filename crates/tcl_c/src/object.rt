//! What handles hold.
use std::marker::Model;
use tcl_recorder::record::Record;
use tcl_replay::replaying::Replayed;
use tcl_replay::saving::Saved;
use tcl_sessions::refusal::Refusal;
use tcl_sessions::session::Session;

/// What a handle holds. Where another kind is wanted, that is refused (423).
#[derive(Drop)]
pub enum Object {
    /// What is about to be filled. No handle holds it.
    Nothing,
    /// A tree of interpreters with its host.
    Tree(Session),
    /// What crossed the boundary of an interpreter.
    Record(Record),
    /// An interpreter by itself.
    Saved(Saved),
    /// An interpreter by itself, to which a record was replayed.
    Replayed(Replayed),
}

/// An object in a box of a handle. Contracts see only that it is there.
#[derive(Drop)]
pub struct Kept {
    pub(crate) object: Object,
}

impl Model for Kept {
    ghost Value = { Unit {0} };

    ghost view = { λ _. tt };
}

impl Object {
    /// The tree.
    ///
    /// # Errors
    /// 423.
    pub(crate) fn session(&self) -> Result<&Session, Refusal> {
        match self {
            Object::Tree(session) => Ok(session),
            Object::Nothing | Object::Record(_) | Object::Saved(_) | Object::Replayed(_) => {
                Err(Refusal::OtherKind)
            }
        }
    }

    /// The record.
    ///
    /// # Errors
    /// 423.
    pub(crate) fn record(&self) -> Result<&Record, Refusal> {
        match self {
            Object::Record(record) => Ok(record),
            Object::Nothing | Object::Tree(_) | Object::Saved(_) | Object::Replayed(_) => {
                Err(Refusal::OtherKind)
            }
        }
    }

    /// The interpreter that is saved, or was left by a replay.
    ///
    /// # Errors
    /// 423.
    pub(crate) fn saved(&self) -> Result<&Saved, Refusal> {
        match self {
            Object::Saved(saved) => Ok(saved),
            Object::Replayed(replayed) => Ok(replayed.saved()),
            Object::Nothing | Object::Tree(_) | Object::Record(_) => Err(Refusal::OtherKind),
        }
    }

    /// What came of a replay.
    ///
    /// # Errors
    /// 423.
    pub(crate) fn replayed(&self) -> Result<&Replayed, Refusal> {
        match self {
            Object::Replayed(replayed) => Ok(replayed),
            Object::Nothing | Object::Tree(_) | Object::Record(_) | Object::Saved(_) => {
                Err(Refusal::OtherKind)
            }
        }
    }
}

/// Does something with the tree that an object is; 423 where it is none.
macro_rules! on_tree {
    ($object:ident, $session:ident => $does:expr) => {
        match $object {
            Object::Tree($session) => $does,
            Object::Nothing | Object::Record(_) | Object::Saved(_) | Object::Replayed(_) => {
                Err(Refusal::OtherKind)
            }
        }
    };
}

pub(crate) use on_tree;
