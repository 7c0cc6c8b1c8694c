//! The names of the subcommands of `interp` and of a child's own command.
ghost use Rattle.std.specs.Prelude.{◌≡◌, List};
ghost use Rattle.tcl_core.specs.Paths as core;
ghost use Rattle.tcl_language.specs.Interpreters as interpreters;
ghost use Rattle.tcl_text.specs.declared.integer.Integers.{Integers};
ghost use Rattle.tcl_interp.specs.Subcommands.{making_of, asking_of, changing_of};
ghost use Rattle.tcl_interp.specs.Subcommands.{interp_subcommand_of, interp_program_named};
ghost use Rattle.tcl_interp.specs.Subcommands.{talk_of, rule_of, subcommand_of};
ghost use Rattle.tcl_interp.specs.Subcommands.{child_program_named};

/// A subcommand that both commands have: it is about one interpreter.
#[derive(Clone, Copy, Drop)]
pub enum Subcommand {
    Eval,
    Alias,
    Aliases,
    Hidden,
    IsSafe,
    Limit,
    RecursionLimit,
    Hide,
    Expose,
    InvokeHidden,
}

/// A subcommand that `interp` alone has.
#[derive(Clone, Copy, Drop)]
pub enum TreeSubcommand {
    Create,
    Delete,
    Exists,
    Slaves,
    Children,
}

/// A subcommand of `interp`.
#[derive(Clone, Copy, Drop)]
pub enum InterpSubcommand {
    Tree(TreeSubcommand),
    Shared(Subcommand),
}

fn making_of(word: &str) -> Option<InterpSubcommand>
    ensures { result ≡ making_of word.now }
{
    match word {
        "create" => Some(InterpSubcommand::Tree(TreeSubcommand::Create)),
        "delete" => Some(InterpSubcommand::Tree(TreeSubcommand::Delete)),
        "eval" => Some(InterpSubcommand::Shared(Subcommand::Eval)),
        "alias" => Some(InterpSubcommand::Shared(Subcommand::Alias)),
        "aliases" => Some(InterpSubcommand::Shared(Subcommand::Aliases)),
        _ => None,
    }
}

fn asking_of(word: &str) -> Option<InterpSubcommand>
    ensures { result ≡ asking_of word.now }
{
    match word {
        "exists" => Some(InterpSubcommand::Tree(TreeSubcommand::Exists)),
        "hidden" => Some(InterpSubcommand::Shared(Subcommand::Hidden)),
        "issafe" => Some(InterpSubcommand::Shared(Subcommand::IsSafe)),
        "slaves" => Some(InterpSubcommand::Tree(TreeSubcommand::Slaves)),
        "children" => Some(InterpSubcommand::Tree(TreeSubcommand::Children)),
        _ => None,
    }
}

fn changing_of(word: &str) -> Option<InterpSubcommand>
    ensures { result ≡ changing_of word.now }
{
    match word {
        "limit" => Some(InterpSubcommand::Shared(Subcommand::Limit)),
        "recursionlimit" => Some(InterpSubcommand::Shared(Subcommand::RecursionLimit)),
        "hide" => Some(InterpSubcommand::Shared(Subcommand::Hide)),
        "expose" => Some(InterpSubcommand::Shared(Subcommand::Expose)),
        "invokehidden" => Some(InterpSubcommand::Shared(Subcommand::InvokeHidden)),
        _ => None,
    }
}

impl InterpSubcommand {
    /// The subcommand of `interp` that a word names.
    fn named(word: &str) -> Option<InterpSubcommand>
        ensures { result ≡ interp_subcommand_of word.now }
    {
        if let Some(found) = making_of(word) {
            return Some(found);
        }
        if let Some(found) = asking_of(word) {
            return Some(found);
        }
        changing_of(word)
    }
}

fn talk_of(word: &str) -> Option<Subcommand>
    ensures { result ≡ talk_of word.now }
{
    match word {
        "eval" => Some(Subcommand::Eval),
        "alias" => Some(Subcommand::Alias),
        "aliases" => Some(Subcommand::Aliases),
        "hidden" => Some(Subcommand::Hidden),
        "issafe" => Some(Subcommand::IsSafe),
        _ => None,
    }
}

fn rule_of(word: &str) -> Option<Subcommand>
    ensures { result ≡ rule_of word.now }
{
    match word {
        "limit" => Some(Subcommand::Limit),
        "recursionlimit" => Some(Subcommand::RecursionLimit),
        "hide" => Some(Subcommand::Hide),
        "expose" => Some(Subcommand::Expose),
        "invokehidden" => Some(Subcommand::InvokeHidden),
        _ => None,
    }
}

impl Subcommand {
    /// The subcommand of a child's own command that a word names.
    fn named(word: &str) -> Option<Subcommand>
        ensures { result ≡ subcommand_of word.now }
    {
        if let Some(found) = talk_of(word) {
            return Some(found);
        }
        rule_of(word)
    }
}

/// The subcommand of `interp` that a word names. What `interp` does with any words behind that one
/// is the subcommand's program; and where it names none, an error.
pub fn interp_subcommand(word: &str) -> Option<InterpSubcommand>
    ensures { (style : Integers) (args : List core.Text) →
        interpreters.subcommand style word.now args
        ≡ interp_program_named style result word.now args }
{
    InterpSubcommand::named(word)
}

/// The subcommand of a child's own command that a word names. What that command does with any words
/// behind it is the subcommand's program; and where it names none, an error.
pub fn child_subcommand(word: &str) -> Option<Subcommand>
    ensures { (style : Integers) (name : core.Text) (args : List core.Text) →
        interpreters.child_subcommand style name word.now args
        ≡ child_program_named style name result word.now args }
{
    Subcommand::named(word)
}
