//! Copies of interpreters, which share what can be shared.
ghost use Rattle.std.specs.Prelude.{◌≡◌, IfOk, List, ℕ};

use crate::command::Commands;
use crate::node::{Node, State};
use indexmap::IndexMap;
use std::alloc::{AllocError, Global};
use tcl_text::text::Text;

fn copy_commands(commands: &Commands) -> Result<Commands, AllocError>
    ensures { IfOk result (λ made. made.entries ≡ commands.now.entries) }
{
    commands.clone()
}

impl State {
    ghost use Rattle.tcl_interpreter.specs.Nodes.{state_view};

    /// One that has the same.
    fn copy(&self) -> Result<State, AllocError>
        ensures { IfOk result (λ made. (names : List (List ℕ)) →
            state_view made names ≡ state_view self.now names) }
    {
        let frames = self.frames.copy()?;
        let commands = copy_commands(&self.commands)?;
        let hidden = copy_commands(&self.hidden)?;
        Ok(State {
            safe: self.safe,
            root: self.root,
            knows_plain_names: self.knows_plain_names,
            count: self.count,
            limit: self.limit,
            depth: self.depth,
            depth_limit: self.depth_limit,
            frames,
            commands,
            hidden,
        })
    }
}

impl Node {
    ghost use Rattle.tcl_interpreter.specs.Copying.{IsBare};

    /// One that has the same, but no children, and this parent and this name.
    pub fn bare(&self, alloc: Global, parent: Option<usize>, name: Text) -> Result<Node, AllocError>
        ensures { IfOk result (λ made. IsBare self.now made parent name) }
    {
        let state = self.state.copy()?;
        Ok(Node {
            parent,
            name,
            level: self.level,
            children: IndexMap::new(alloc),
            gone: false,
            state,
        })
    }
}
