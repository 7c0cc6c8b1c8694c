//! Rows that call the functions of the layers below the evaluator: texts, numbers, strings and
//! expressions; values, lists and dictionaries; variables, completions, hosts and trees.
#![tactic(auto)]

mod text_rows;
mod tree_rows;
mod value_rows;

use std::io;

/// Puts the rows of all layers, and says of each file how many of its rows were answered otherwise.
///
/// # Errors
/// Out of memory, and what reading a file or writing to standard output may answer.
pub fn run(rt: &HostRuntime) -> io::Result<()> {
    text_rows::run_layers(rt)?;
    value_rows::run_files(rt)?;
    tree_rows::run_variables(rt)?;
    tree_rows::run_interpreters(rt)
}
