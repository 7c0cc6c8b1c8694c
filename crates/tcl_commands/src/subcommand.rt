//! The names of the subcommands of `dict`.
ghost use Rattle.std.specs.Prelude.{◌≡◌, List};
ghost use Rattle.tcl_core.specs.Paths.{Text as TextBytes};
ghost use Rattle.tcl_language.specs.Data.{dict_subcommands, subcommand_in};
ghost use Rattle.tcl_commands.specs.Subcommands.{outcome_or, subcommand_of};

/// A subcommand of `dict` that is a function of its words.
#[derive(Clone, Copy, Drop)]
pub enum Subcommand {
    Create,
    Get,
    Exists,
    Keys,
    Values,
    Size,
    Merge,
    Replace,
    Remove,
}

impl Subcommand {
    /// The subcommand that a word names. What it answers is what the list of subcommands has under
    /// that name.
    pub fn named(word: &str) -> Option<Subcommand>
        ensures named { result ≡ subcommand_of word.now }
        ensures listed { (words : List TextBytes) → subcommand_in
            dict_subcommands word.now words ≡ outcome_or word.now result words }
    {
        match word {
            "create" => Some(Subcommand::Create),
            "get" => Some(Subcommand::Get),
            "exists" => Some(Subcommand::Exists),
            "keys" => Some(Subcommand::Keys),
            "values" => Some(Subcommand::Values),
            "size" => Some(Subcommand::Size),
            "merge" => Some(Subcommand::Merge),
            "replace" => Some(Subcommand::Replace),
            "remove" => Some(Subcommand::Remove),
            _ => None,
        }
    }
}
