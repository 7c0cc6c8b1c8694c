//! The player: an outside that plays a list of moves to a tree by itself; and the printed form of
//! records and of replays, a line for each crossing.
#![tactic(auto)]

mod answers;
mod entries;
pub mod lines;
pub mod moves;
pub mod player;
mod replies;
mod telling;
mod words;
