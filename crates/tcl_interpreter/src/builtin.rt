//! The commands that every interpreter begins with.
ghost use Rattle.std.specs.Prelude.{◌≡◌, ◌++◌, codes, map, OnOk};
ghost use Rattle.std.specs.Str.{bytes_eq};
ghost use Rattle.indexmap.specs.IndexMap.{insert_all};
ghost use Rattle.tcl_interpreter.specs.Builtins.{named};
ghost use Rattle.tcl_interpreter.specs.Own.{entry_of};

use crate::command::{Command, Commands};
use std::alloc::{AllocError, Global};
use tcl_text::text::Text;

/// A built-in command: one of the language, or, from `Open` on, one that reaches the host.
#[derive(Clone, Copy, PartialEq, Eq, Drop)]
pub enum Builtin {
    Set,
    Unset,
    Incr,
    Append,
    Lappend,
    Array,
    Global,
    Upvar,
    Uplevel,
    Proc,
    Rename,
    Eval,
    Expr,
    If,
    While,
    For,
    Foreach,
    Lmap,
    Switch,
    Break,
    Continue,
    Catch,
    Error,
    Throw,
    Return,
    Try,
    Info,
    List,
    Llength,
    Lindex,
    Lrange,
    Linsert,
    Lreplace,
    Lset,
    Lassign,
    Lrepeat,
    Lreverse,
    Concat,
    Join,
    Split,
    Lsearch,
    Lsort,
    Dict,
    String,
    Format,
    Interp,
    Open,
    Close,
    Gets,
    Puts,
    Read,
    Eof,
    Flush,
    Source,
    Exit,
}

/// The built-in commands of the language, in the order in which a new interpreter has them.
pub const LANGUAGE: [Builtin; 46] = [
    Builtin::Set,
    Builtin::Unset,
    Builtin::Incr,
    Builtin::Append,
    Builtin::Lappend,
    Builtin::Array,
    Builtin::Global,
    Builtin::Upvar,
    Builtin::Uplevel,
    Builtin::Proc,
    Builtin::Rename,
    Builtin::Eval,
    Builtin::Expr,
    Builtin::If,
    Builtin::While,
    Builtin::For,
    Builtin::Foreach,
    Builtin::Lmap,
    Builtin::Switch,
    Builtin::Break,
    Builtin::Continue,
    Builtin::Catch,
    Builtin::Error,
    Builtin::Throw,
    Builtin::Return,
    Builtin::Try,
    Builtin::Info,
    Builtin::List,
    Builtin::Llength,
    Builtin::Lindex,
    Builtin::Lrange,
    Builtin::Linsert,
    Builtin::Lreplace,
    Builtin::Lset,
    Builtin::Lassign,
    Builtin::Lrepeat,
    Builtin::Lreverse,
    Builtin::Concat,
    Builtin::Join,
    Builtin::Split,
    Builtin::Lsearch,
    Builtin::Lsort,
    Builtin::Dict,
    Builtin::String,
    Builtin::Format,
    Builtin::Interp,
];

/// The built-in commands that reach the host, in the order in which a new interpreter has them.
pub const HOST: [Builtin; 9] = [
    Builtin::Open,
    Builtin::Close,
    Builtin::Gets,
    Builtin::Puts,
    Builtin::Read,
    Builtin::Eof,
    Builtin::Flush,
    Builtin::Source,
    Builtin::Exit,
];

impl Builtin {
    /// Its name in a new interpreter.
    pub fn name(self) -> &'static str
        ensures { result.now ≡ named self }
    {
        match self {
            Builtin::Set => "set",
            Builtin::Unset => "unset",
            Builtin::Incr => "incr",
            Builtin::Append => "append",
            Builtin::Lappend => "lappend",
            Builtin::Array => "array",
            Builtin::Global => "global",
            Builtin::Upvar => "upvar",
            Builtin::Uplevel => "uplevel",
            Builtin::Proc => "proc",
            Builtin::Rename => "rename",
            Builtin::Eval => "eval",
            Builtin::Expr => "expr",
            Builtin::If => "if",
            Builtin::While => "while",
            Builtin::For => "for",
            Builtin::Foreach => "foreach",
            Builtin::Lmap => "lmap",
            Builtin::Switch => "switch",
            Builtin::Break => "break",
            Builtin::Continue => "continue",
            Builtin::Catch => "catch",
            Builtin::Error => "error",
            Builtin::Throw => "throw",
            Builtin::Return => "return",
            Builtin::Try => "try",
            Builtin::Info => "info",
            Builtin::List => "list",
            Builtin::Llength => "llength",
            Builtin::Lindex => "lindex",
            Builtin::Lrange => "lrange",
            Builtin::Linsert => "linsert",
            Builtin::Lreplace => "lreplace",
            Builtin::Lset => "lset",
            Builtin::Lassign => "lassign",
            Builtin::Lrepeat => "lrepeat",
            Builtin::Lreverse => "lreverse",
            Builtin::Concat => "concat",
            Builtin::Join => "join",
            Builtin::Split => "split",
            Builtin::Lsearch => "lsearch",
            Builtin::Lsort => "lsort",
            Builtin::Dict => "dict",
            Builtin::String => "string",
            Builtin::Format => "format",
            Builtin::Interp => "interp",
            Builtin::Open => "open",
            Builtin::Close => "close",
            Builtin::Gets => "gets",
            Builtin::Puts => "puts",
            Builtin::Read => "read",
            Builtin::Eof => "eof",
            Builtin::Flush => "flush",
            Builtin::Source => "source",
            Builtin::Exit => "exit",
        }
    }
}

/// Adds these built-in commands under their names.
pub(crate) fn add_builtins(
    commands: &mut Commands,
    alloc: Global,
    builtins: &[Builtin],
) -> Result<(), AllocError>
    ensures { OnOk result
        (commands.new.entries ≡ insert_all bytes_eq commands.old.entries
        (map entry_of builtins.now)) }
{
    commands.reserve(builtins.len())?;
    'builtins: for builtin in builtins {
        let name = Text::new(alloc, builtin.name())?;
        commands.insert(name, Command::Builtin(*builtin))?;
    }
    Ok(())
}
