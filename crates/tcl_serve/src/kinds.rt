//! The kinds of messages.
ghost use Rattle.std.specs.Prelude.{◌≡◌};
ghost use Rattle.tcl_serve.specs.Messages.{kind_named};
ghost use Rattle.tcl_serve.specs.Names.{fields_of, kind_name};

use crate::fields::Field;

/// What messages do.
#[derive(Clone, Copy)]
pub enum Kind {
    MakeTree,
    DropTree,
    Create,
    Delete,
    Evaluate,
    Alias,
    AliasToClient,
    ClearAlias,
    LimitCount,
    LimitDepth,
    Look,
    PutFile,
    GetFile,
    PutInput,
    TakeOutput,
    Watch,
    Save,
    Compare,
    Replay,
    DropSaved,
    DropRecord,
    Return,
    EndRun,
}

/// All of them.
const KINDS: [Kind; 23] = [
    Kind::MakeTree,
    Kind::DropTree,
    Kind::Create,
    Kind::Delete,
    Kind::Evaluate,
    Kind::Alias,
    Kind::AliasToClient,
    Kind::ClearAlias,
    Kind::LimitCount,
    Kind::LimitDepth,
    Kind::Look,
    Kind::PutFile,
    Kind::GetFile,
    Kind::PutInput,
    Kind::TakeOutput,
    Kind::Watch,
    Kind::Save,
    Kind::Compare,
    Kind::Replay,
    Kind::DropSaved,
    Kind::DropRecord,
    Kind::Return,
    Kind::EndRun,
];

impl Kind {
    /// The kind of this name.
    pub fn named(name: &str) -> Option<Kind>
        ensures { result ≡ kind_named name.now }
    {
        KINDS.iter().copied().find(|kind| kind.name() == name)
    }

    /// Its name, which stands in the field `do`.
    pub fn name(self) -> &'static str
        ensures { result.now ≡ kind_name self }
    {
        match self {
            Kind::MakeTree => "make_tree",
            Kind::DropTree => "drop_tree",
            Kind::Create => "create",
            Kind::Delete => "delete",
            Kind::Evaluate => "evaluate",
            Kind::Alias => "alias",
            Kind::AliasToClient => "alias_to_client",
            Kind::ClearAlias => "clear_alias",
            Kind::LimitCount => "limit_count",
            Kind::LimitDepth => "limit_depth",
            Kind::Look => "look",
            Kind::PutFile => "put_file",
            Kind::GetFile => "get_file",
            Kind::PutInput => "put_input",
            Kind::TakeOutput => "take_output",
            Kind::Watch => "watch",
            Kind::Save => "save",
            Kind::Compare => "compare",
            Kind::Replay => "replay",
            Kind::DropSaved => "drop_saved",
            Kind::DropRecord => "drop_record",
            Kind::Return => "return",
            Kind::EndRun => "end_run",
        }
    }

    /// Its fields, beside the id and what is done.
    pub fn fields(self) -> &'static [Field]
        ensures { result.now ≡ fields_of self }
    {
        match self {
            Kind::MakeTree => &[Field::Integers],
            Kind::DropTree => &[Field::Tree],
            Kind::Create => &[Field::Tree, Field::Path, Field::Safe],
            Kind::Delete | Kind::Look | Kind::Save => &[Field::Tree, Field::Path],
            Kind::Evaluate => &[Field::Tree, Field::Path, Field::Script, Field::Limit],
            Kind::Alias => &[
                Field::Tree,
                Field::Path,
                Field::Name,
                Field::To,
                Field::Words,
            ],
            Kind::AliasToClient => &[Field::Tree, Field::Path, Field::Name, Field::Words],
            Kind::ClearAlias => &[Field::Tree, Field::Path, Field::Name],
            Kind::LimitCount => &[Field::Tree, Field::Path, Field::Count],
            Kind::LimitDepth => &[Field::Tree, Field::Path, Field::Depth],
            Kind::PutFile => &[Field::Tree, Field::Name, Field::Text],
            Kind::GetFile => &[Field::Tree, Field::Name],
            Kind::PutInput => &[Field::Tree, Field::Text],
            Kind::TakeOutput => &[Field::Tree, Field::Channel],
            Kind::Watch => &[
                Field::Tree,
                Field::Path,
                Field::Script,
                Field::Limit,
                Field::Watched,
            ],
            Kind::Compare => &[Field::Saved, Field::With],
            Kind::Replay => &[Field::Saved, Field::Record, Field::Limit],
            Kind::DropSaved => &[Field::Saved],
            Kind::DropRecord => &[Field::Record],
            Kind::Return => &[Field::Call, Field::Code, Field::Text],
            Kind::EndRun => &[Field::Call],
        }
    }
}
