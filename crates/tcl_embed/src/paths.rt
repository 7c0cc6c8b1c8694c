//! Paths of interpreters.
ghost use Rattle.std.specs.Prelude.{◌≡◌, ℕ, List, [], Err, IfErr, IfOk, Ok};
ghost use Rattle.tcl_text.specs.Lists.{HasFault, Spells};
ghost use Rattle.tcl_text.specs.Reading.{Gives, IfFault};
ghost use Rattle.tcl_text.specs.declared.list.ListFault.{ListFault};

use std::alloc::{AllocError, Global};
use std::fmt;
use std::marker::Model;
use tcl_text::list::{ListError, read_list, write_list};
use tcl_text::text::Text;

/// The path of an interpreter: the names that lead to it from the root of its tree downward; the
/// root's has none. Whether an interpreter stands there isn't said.
///
/// It is written as the list of its names, as scripts write paths, and `parse` reads it so.
/// Contracts see it as these names.
#[derive(Debug)]
pub struct Path {
    names: Vec<Text>,
    written: String,
}

impl Drop for Path {
    fn drop(self) {
        let Path {
            names: _names,
            written: _written,
        } = self;
    }
}

impl Model for Path {
    ghost use Rattle.std.specs.Prelude.{List, ℕ, ◌≡◌};
    ghost use Rattle.std.specs.String.{string_bytes};
    ghost use Rattle.tcl_text.specs.Writing.{written_list};

    ghost Value = { List (List ℕ) };

    ghost view = { λ path. path.names.items };

    ghost invariant = { λ path. string_bytes path.written ≡ written_list path.names.items };
}

impl Path {
    /// The path of the root. This takes no memory.
    pub fn root(alloc: Global) -> Path
        ensures { result ≡ [] }
    {
        Path {
            names: Vec::new(alloc),
            written: String::new(alloc),
        }
    }

    /// The path that a text spells, which is a list of names.
    ///
    /// # Errors
    /// 101 to 104 where the text spells no list; want of memory.
    pub fn parse(alloc: Global, text: &str) -> Result<Path, ListError>
        ensures found { IfOk result (λ path. Spells path text.now) }
        ensures only { (path : List (List ℕ)) → Spells path text.now → Gives
            (λ found. found) result (Ok path) }
        ensures fault { IfErr result (λ error. IfFault error (HasFault text.now)) }
        ensures only_fault { (fault : ListFault) → HasFault text.now fault → Gives
            (λ found. found) result (Err fault) }
    {
        let names = read_list(alloc, text)?;
        Ok(Path::new(alloc, names)?)
    }

    /// The path with these names.
    ///
    /// # Errors
    /// Want of memory.
    pub fn new(alloc: Global, names: Vec<Text>) -> Result<Path, AllocError>
        ensures { IfOk result (λ path. path ≡ names.items) }
    {
        let written = write_list(alloc, names.as_slice())?;
        Ok(Path { names, written })
    }

    /// Its names, from the root downward, as the calls of this crate take a path.
    pub fn names(&self) -> &[Text]
        ensures { result.now ≡ self.now }
    {
        self.names.as_slice()
    }
}

/// The list of its names.
impl fmt::Display for Path {
    ghost use Rattle.std.specs.Prelude.{Some};
    ghost use Rattle.tcl_text.specs.Writing.{written_list};

    ghost output = { λ path. Some (written_list path) };

    fn fmt<W: fmt::Write>(&self, f: &mut fmt::Formatter<W>) -> fmt::Result {
        let written = self.written.as_str();
        write!(f, "{written}")
    }
}
