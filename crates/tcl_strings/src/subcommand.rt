//! The names of the subcommands.
ghost use Rattle.std.specs.Prelude.{◌≡◌};
ghost use Rattle.tcl_strings.specs.Subcommands.{part_of, test_of, making_of, change_of};
ghost use Rattle.tcl_strings.specs.Subcommands.{subcommand_of};

/// A subcommand of `string`.
#[derive(Clone, Copy)]
pub enum Subcommand {
    Length,
    Index,
    Range,
    Equal,
    Compare,
    Match,
    Map,
    First,
    Last,
    Repeat,
    Reverse,
    Replace,
    ToLower,
    ToUpper,
    Trim,
    TrimLeft,
    TrimRight,
    Cat,
    Is,
}

fn part_of(name: &str) -> Option<Subcommand>
    ensures { result ≡ part_of name.now }
{
    match name {
        "length" => Some(Subcommand::Length),
        "index" => Some(Subcommand::Index),
        "range" => Some(Subcommand::Range),
        "first" => Some(Subcommand::First),
        "last" => Some(Subcommand::Last),
        _ => None,
    }
}

fn test_of(name: &str) -> Option<Subcommand>
    ensures { result ≡ test_of name.now }
{
    match name {
        "equal" => Some(Subcommand::Equal),
        "compare" => Some(Subcommand::Compare),
        "match" => Some(Subcommand::Match),
        "is" => Some(Subcommand::Is),
        _ => None,
    }
}

fn making_of(name: &str) -> Option<Subcommand>
    ensures { result ≡ making_of name.now }
{
    match name {
        "map" => Some(Subcommand::Map),
        "repeat" => Some(Subcommand::Repeat),
        "reverse" => Some(Subcommand::Reverse),
        "replace" => Some(Subcommand::Replace),
        "cat" => Some(Subcommand::Cat),
        _ => None,
    }
}

fn change_of(name: &str) -> Option<Subcommand>
    ensures { result ≡ change_of name.now }
{
    match name {
        "tolower" => Some(Subcommand::ToLower),
        "toupper" => Some(Subcommand::ToUpper),
        "trim" => Some(Subcommand::Trim),
        "trimleft" => Some(Subcommand::TrimLeft),
        "trimright" => Some(Subcommand::TrimRight),
        _ => None,
    }
}

impl Subcommand {
    /// The subcommand of a name.
    pub fn from_name(name: &str) -> Option<Subcommand>
        ensures { result ≡ subcommand_of name.now }
    {
        if let Some(found) = part_of(name) {
            return Some(found);
        }
        if let Some(found) = test_of(name) {
            return Some(found);
        }
        if let Some(found) = making_of(name) {
            return Some(found);
        }
        change_of(name)
    }
}
