//! An interpreter in the table.
ghost use Rattle.std.specs.Prelude.{◌≡◌, ◌≤◌, IfOk, IsTrue};
ghost use Rattle.tcl_interpreter.specs.Names.{have_plain_names};

use crate::builtin::{HOST, LANGUAGE, add_builtins};
use crate::command::Commands;
use indexmap::IndexMap;
use std::alloc::{AllocError, Global};
use tcl_frames::frames::Frames;
use tcl_text::text::Text;

/// The most steps that any interpreter may make.
pub const MOST_STEPS: u64 = 9_223_372_036_854_775_807;

/// What is moved in an interpreter and in all above it.
#[derive(Clone, Copy)]
pub enum Meter {
    /// A step is counted.
    Steps,
    /// An evaluation begins.
    Levels,
    /// An evaluation ends.
    Back,
}

/// What an interpreter has besides its place.
#[derive(Drop)]
pub struct State {
    /// Whether it is safe.
    pub safe: bool,
    /// Whether it is the root of the tree in which it was made.
    pub root: bool,
    /// Whether it is known that no name of its commands has two colons side by side. Then a name
    /// that is found among them needs no look for colons.
    pub knows_plain_names: bool,
    /// The steps that were made in it and below it.
    pub count: u64,
    /// The most steps that may be made in it and below it, where that is limited.
    pub limit: Option<u64>,
    /// The evaluations in progress in it and below it.
    pub depth: u64,
    /// The most evaluations that may be in progress in it and below it.
    pub depth_limit: u64,
    /// Its variables.
    pub frames: Frames,
    /// Its commands, by their names.
    pub commands: Commands,
    /// Its hidden commands, by the names under which they are hidden.
    pub hidden: Commands,
    pub ghost least: { 1 ≤ depth_limit },
    pub ghost most: { depth_limit ≤ 1000 },
    pub ghost plain: { IsTrue knows_plain_names → IsTrue (have_plain_names commands.entries) },
}

impl State {
    ghost use Rattle.std.specs.Prelude.{List, ℕ, false};
    ghost use Rattle.tcl_core.specs.Programs.{limit_or};
    ghost use Rattle.tcl_interpreter.specs.Nodes.{full_of, state_view, moved, new_view};

    /// What a new interpreter has, the root of its tree or not, with this limit of depth.
    pub fn new(alloc: Global, safe: bool, root: bool, depth_limit: u64) -> Result<State, AllocError>
        requires least { 1 ≤ depth_limit }
        requires most { depth_limit ≤ 1000 }
        ensures view { IfOk result
            (λ state. (names : List (List ℕ)) →
            state_view state names ≡ new_view safe root depth_limit names) }
        ensures safe { IfOk result (λ state. state.safe ≡ safe) }
    {
        let mut commands = IndexMap::new(alloc);
        let mut hidden = IndexMap::new(alloc);
        add_builtins(&mut commands, alloc, &LANGUAGE)?;
        if safe {
            add_builtins(&mut hidden, alloc, &HOST)?;
        } else {
            add_builtins(&mut commands, alloc, &HOST)?;
        }
        Ok(State {
            safe,
            root,
            knows_plain_names: true,
            count: 0,
            limit: None,
            depth: 0,
            depth_limit,
            frames: Frames::new(alloc)?,
            commands,
            hidden,
        })
    }

    /// The most steps that may be made in it and below it.
    fn most_steps(&self) -> u64
        ensures { result ≡ limit_or self.now.limit }
    {
        self.limit.unwrap_or(MOST_STEPS)
    }

    /// Whether the meter may not be moved.
    pub fn is_full(&self, meter: Meter) -> bool
        ensures { (names : List (List ℕ)) → result ≡ full_of meter (state_view self.now names) }
    {
        match meter {
            Meter::Steps => self.count >= self.most_steps(),
            Meter::Levels => self.depth >= self.depth_limit,
            Meter::Back => false,
        }
    }

    /// Moves the meter.
    pub fn advance(&mut self, meter: Meter)
        requires { (names : List (List ℕ)) → full_of meter (state_view self.old names) ≡ false }
        ensures moved { (names : List (List ℕ)) →
            state_view self.new names ≡ moved meter (state_view self.old names) }
        ensures safe { self.new.safe ≡ self.old.safe }
    {
        match meter {
            Meter::Steps => {
                let most = self.most_steps();
                prove!(self.count < most);
                self.count += 1;
            }
            Meter::Levels => self.depth += 1,
            Meter::Back => self.depth = self.depth.saturating_sub(1),
        }
    }
}

/// An interpreter, with its place in the tree.
#[derive(Drop)]
pub struct Node {
    /// The key of its parent; the root has none.
    pub parent: Option<usize>,
    /// Its name among its parent's children.
    pub name: Text,
    /// How many levels it is below the root of the tree in which it was made.
    pub level: u64,
    /// The keys of its children, by their names.
    pub children: IndexMap<Text, usize>,
    /// Whether it was deleted while an evaluation was in progress in it or below it. Then it is no
    /// child of its parent any more, and has none.
    pub gone: bool,
    /// All the rest.
    pub state: State,
}
