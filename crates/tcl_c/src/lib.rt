//! The library for C: trees of interpreters, records and saved interpreters behind handles that C
//! keeps, and the calls on them. `clients/c/tclsafe.h` is its header, and docs/C.md its page.
#![tactic(auto)]

mod calls;
mod codes;
mod evaluation;
mod files;
mod handle;
mod limits;
mod object;
mod opened;
mod records;
mod sealed;
mod texts;
mod trees;
