//! What a script finds: a tree of interpreters, and the variables of its command line.
ghost use Rattle.std.specs.Fmt.{decimal};
ghost use Rattle.std.specs.Prelude.{◌≡◌, ◌++◌, ℕ, List, [], ◌∷◌, true, false, IfOk, OnOk, map};
ghost use Rattle.std.specs.Prelude.{codes, take, length};
ghost use Rattle.tcl_tree.specs.Changes.{Makes};
ghost use Rattle.tcl_tree.specs.TreeOf.{tree_of, marks_of, alone, new_root};
ghost use Rattle.std.specs.String.{string_bytes};
ghost use Rattle.tcl_shell.specs.Beginning.{Begins, path_of, setting_of, set_command};
ghost use Rattle.tcl_text.specs.Writing.{written_list};

use crate::options::Options;
use std::alloc::{AllocError, Global};
use tcl_text::integer::Integers;
use tcl_text::list_writing::write_list;
use tcl_text::text::Text;
use tcl_tree::tree::Tree;

/// A fresh tree, and the path of the interpreter in which the script runs.
#[derive(Drop)]
pub struct Begun {
    /// The tree.
    pub tree: Tree,
    /// The path.
    pub path: Vec<Text>,
}

impl Begun {
    /// A root alone, or a root with a safe child `main`, in which the script runs then.
    ///
    /// # Errors
    /// Want of memory.
    pub fn new(alloc: Global, options: &Options<'_>) -> Result<Begun, AllocError>
        ensures tree { IfOk result (λ begun. Begins options.now begun.tree) }
        ensures path { IfOk result (λ begun. begun.path.items ≡ path_of options.now.is_safe) }
    {
        if options.is_safe {
            Begun::in_a_safe_child(alloc, options.integers)
        } else {
            Begun::in_the_root(alloc, options.integers)
        }
    }

    /// A root alone, in which the script runs.
    fn in_the_root(alloc: Global, integers: Integers) -> Result<Begun, AllocError>
        ensures tree { IfOk result (λ begun. tree_of begun.tree ≡ alone new_root) }
        ensures marks { IfOk result
            (λ begun. marks_of begun.tree ≡ record { integers = integers; broken = false }) }
        ensures path { IfOk result (λ begun. begun.path.items ≡ []) }
    {
        Ok(Begun {
            tree: Tree::with_integers(alloc, integers)?,
            path: Vec::new(alloc),
        })
    }

    /// A root with a safe child `main`, in which the script runs.
    fn in_a_safe_child(alloc: Global, integers: Integers) -> Result<Begun, AllocError>
        ensures tree { IfOk result
            (λ begun. Makes (alone new_root) (tree_of begun.tree) [] (codes "main") true) }
        ensures marks { IfOk result
            (λ begun. marks_of begun.tree ≡ record { integers = integers; broken = false }) }
        ensures path { IfOk result (λ begun. begun.path.items ≡ codes "main" ∷ []) }
    {
        let mut tree = Tree::with_integers(alloc, integers)?;
        let main = Text::new(alloc, "main")?;
        if tree.create(alloc, &[], &main, true).is_err() {
            return Err(AllocError);
        }
        let mut path = Vec::new(alloc);
        path.push(main)?;
        Ok(Begun { tree, path })
    }
}

/// The script that sets `argv0`, `argv` and `argc`.
///
/// # Errors
/// Want of memory.
pub fn setting_of(alloc: Global, options: &Options<'_>) -> Result<String, AllocError>
    ensures { IfOk result (λ script. string_bytes script
        ≡ setting_of options.now.file.now (map (λ word. word.now) options.now.arguments.items)) }
{
    let words = options.arguments.as_slice();
    let mut script = set_command(alloc, "argv0", options.file)?;
    push_line(&mut script, set_arguments(alloc, words)?)?;
    push_line(&mut script, set_count(alloc, words.len())?)?;
    Ok(script)
}

/// Adds a line behind a script.
fn push_line(script: &mut String, line: String) -> Result<(), AllocError>
    ensures { OnOk result
        (string_bytes script.new ≡ string_bytes script.old ++ codes "\n" ++ string_bytes line) }
{
    script.push_str("\n")?;
    script.push_str(line.as_str())
}

/// The command that sets `argv`.
fn set_arguments(alloc: Global, words: &[&str]) -> Result<String, AllocError>
    ensures { IfOk result (λ command. string_bytes command
        ≡ set_command (codes "argv") (written_list (map (λ word. word.now) words.now))) }
{
    let arguments = texts_of(alloc, words)?;
    let list = write_list(alloc, arguments.as_slice())?;
    set_command(alloc, "argv", list.as_str())
}

/// The command that sets `argc`.
fn set_count(alloc: Global, count: usize) -> Result<String, AllocError>
    ensures { IfOk result
        (λ command. string_bytes command ≡ set_command (codes "argc") (decimal count)) }
{
    let count = format!(in alloc; "{count}")?;
    set_command(alloc, "argc", count.as_str())
}

/// The texts of words.
fn texts_of(alloc: Global, words: &[&str]) -> Result<Vec<Text>, AllocError>
    ensures { IfOk result (λ texts. texts.items ≡ map (λ word. word.now) words.now) }
{
    let mut texts = Vec::new(alloc);
    'words: for word in words {
        texts.push(Text::new(alloc, word)?)?;
    }
    Ok(texts)
}

/// A command that sets a variable.
fn set_command(alloc: Global, name: &str, value: &str) -> Result<String, AllocError>
    ensures { IfOk result (λ command. string_bytes command ≡ set_command name.now value.now) }
{
    let mut words = Vec::new(alloc);
    words.push(Text::new(alloc, "set")?)?;
    words.push(Text::new(alloc, name)?)?;
    words.push(Text::new(alloc, value)?)?;
    write_list(alloc, words.as_slice())
}
