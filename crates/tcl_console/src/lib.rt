//! The host of a real process: its standard streams, and its files.
#![tactic(auto)]

mod console;
mod input;
mod stream;

pub use console::Console;
