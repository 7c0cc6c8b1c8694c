//! Equal commands and interpreters, told without memory.
ghost use Rattle.std.specs.Prelude.{◌≡◌, ◌↔◌, IsTrue, []};
ghost use Rattle.indexmap.specs.IndexMap.{keys};

use crate::alias::Alias;
use crate::builtin::Builtin;
use crate::command::{Command, Commands};
use crate::node::State;
use crate::parameter::Parameter;
use crate::procedure::Procedure;
use indexmap::IndexMap;
use tcl_frames::comparing::{Same, same_items};
use tcl_text::text::Text;

impl Same for Parameter {
    fn same(&self, other: &Parameter) -> bool {
        self.name.same(&other.name) && self.default.same(&other.default)
    }
}

impl Same for Procedure {
    fn same(&self, other: &Procedure) -> bool {
        same_items(self.parameters(), other.parameters()) && self.body().same(other.body())
    }
}

impl Same for Alias {
    fn same(&self, other: &Alias) -> bool {
        self.up() == other.up()
            && same_items(self.down(), other.down())
            && same_items(self.words(), other.words())
    }
}

impl Same for Builtin {
    fn same(&self, other: &Builtin) -> bool {
        *self == *other
    }
}

impl Same for Command {
    fn same(&self, other: &Command) -> bool {
        match self {
            Command::Builtin(this) => match other {
                Command::Builtin(that) => this.same(that),
                Command::Procedure(_) => false,
                Command::Alias(_) => false,
                Command::Child => false,
            },
            Command::Procedure(this) => match other {
                Command::Builtin(_) => false,
                Command::Procedure(that) => this.same(that),
                Command::Alias(_) => false,
                Command::Child => false,
            },
            Command::Alias(this) => match other {
                Command::Builtin(_) => false,
                Command::Procedure(_) => false,
                Command::Alias(that) => this.same(that),
                Command::Child => false,
            },
            Command::Child => match other {
                Command::Builtin(_) => false,
                Command::Procedure(_) => false,
                Command::Alias(_) => false,
                Command::Child => true,
            },
        }
    }
}

/// Whether two maps have the same commands under the same names in the same order.
fn same_commands(these: &Commands, those: &Commands) -> bool
    ensures { IsTrue result ↔ (these.now.entries ≡ those.now.entries) }
{
    if these.len() != those.len() {
        return false;
    }
    'commands: for index in 0..these.len() {
        let Some((name, command)) = these.get_index(index) else {
            return false;
        };
        let Some((other_name, other)) = those.get_index(index) else {
            return false;
        };
        if !name.same(other_name) {
            return false;
        }
        if !command.same(other) {
            return false;
        }
    }
    true
}

/// Whether two maps have the same names in the same order.
pub fn same_names(these: &IndexMap<Text, usize>, those: &IndexMap<Text, usize>) -> bool
    ensures { IsTrue result ↔ (keys these.now ≡ keys those.now) }
{
    if these.len() != those.len() {
        return false;
    }
    'names: for index in 0..these.len() {
        let Some((name, _)) = these.get_index(index) else {
            return false;
        };
        let Some((other, _)) = those.get_index(index) else {
            return false;
        };
        if !name.same(other) {
            return false;
        }
    }
    true
}

impl State {
    ghost use Rattle.tcl_interpreter.specs.Nodes.{state_view};

    /// Whether all of it is equal.
    pub fn same(&self, other: &State) -> bool
        ensures { IsTrue result ↔ (state_view self.now [] ≡ state_view other.now []) }
    {
        if self.safe != other.safe || self.root != other.root {
            return false;
        }
        if self.count != other.count || self.depth != other.depth {
            return false;
        }
        if self.limit != other.limit || self.depth_limit != other.depth_limit {
            return false;
        }
        if !self.frames.same(&other.frames) {
            return false;
        }
        if !same_commands(&self.commands, &other.commands) {
            return false;
        }
        same_commands(&self.hidden, &other.hidden)
    }
}
