//! Aliases.
ghost use Rattle.std.specs.Prelude.{◌≡◌, ◌≤◌, ◌-◌, ◌++◌, List, ℕ, Some, IfOk, length, drop};
ghost use Rattle.tcl_core.specs.Paths.{falls, rise, together};
ghost use Rattle.tcl_interpreter.specs.Commands.{straight, way_past};

use std::alloc::{AllocError, Global};
use std::marker::Model;
use std::rc::Rc;
use tcl_text::text::Text;
use tcl_value::value::Value;

#[derive(Drop)]
struct Target {
    up: usize,
    down: Vec<Text>,
    words: Vec<Value>,
}

/// An alias: where its target is, and the words with which a call of it begins there. The target is
/// told from the interpreter that has the alias, so many levels up and these names down, and is
/// looked up at each call. A clone shares all.
#[derive(Drop)]
pub struct Alias {
    shared: Rc<Target>,
}

impl Model for Alias {
    ghost use Rattle.tcl_interpreter.specs.Commands.{AliasView};

    ghost Value = { AliasView };

    ghost view = { λ a. record {
      up = a.shared.value.up;
      down = a.shared.value.down.items;
      words =
          a.shared.value.words.items;
    } };
}

/// How many leading names two paths have in common. This takes no memory.
pub fn in_common(these: &[Text], those: &[Text]) -> usize
    ensures names { result ≡ together these.now those.now }
    ensures these { result ≤ length these.now }
    ensures those { result ≤ length those.now }
{
    let mut count = 0;
    'names: while count < these.len() && count < those.len() {
        if these[count] != those[count] {
            return count;
        }
        count += 1;
    }
    count
}

/// The last so many names of a path.
fn last_names(path: &[Text], count: usize) -> &[Text]
    requires { count ≤ length path.now }
    ensures { result.now ≡ falls count path.now }
{
    &path[path.len() - count..]
}

impl Alias {
    /// An alias of the interpreter that some names lead to, whose target is the one that others
    /// lead to from the same start. The leading names that the two have in common are left out of
    /// its way.
    ///
    /// # Errors
    /// Want of memory.
    pub fn between(
        alloc: Global,
        from: &[Text],
        to: &[Text],
        words: Vec<Value>,
    ) -> Result<Alias, AllocError>
        ensures made { IfOk result
            (λ made. made ≡ record {
              up = length from.now - together from.now to.now;
              down = drop (together from.now to.now)
                  to.now;
              words = words.items;
            }) }
        ensures leads { IfOk result
            (λ made. (a : List (List ℕ)) → (b : List (List ℕ)) ×
            (rise made.up (a ++ from.now) ≡ Some b) × (b ++ made.down ≡ a ++ to.now)) }
    {
        let common = in_common(from, to);
        let down = Vec::from_clones(alloc, &to[common..])?;
        Alias::new(alloc, from.len() - common, down, words)
    }

    /// An alias of the interpreter at the path whose calls leave the tree: its target is above the
    /// root.
    ///
    /// # Errors
    /// Want of memory.
    pub fn past(alloc: Global, path: &[Text], words: Vec<Value>) -> Result<Alias, AllocError>
        ensures { IfOk result (λ made. made ≡ way_past path.now words.items) }
    {
        Alias::new(alloc, path.len() + 1, Vec::new(alloc), words)
    }

    /// An alias to the interpreter so many levels up and these names down, whose calls begin with
    /// these words.
    ///
    /// # Errors
    /// Want of memory.
    pub fn new(
        alloc: Global,
        up: usize,
        down: Vec<Text>,
        words: Vec<Value>,
    ) -> Result<Alias, AllocError>
        ensures { IfOk result (λ made. made
            ≡ record { up = up; down = down.items; words = words.items }) }
    {
        let shared = Rc::new(alloc, Target { up, down, words })?;
        Ok(Alias { shared })
    }

    /// The same alias as the interpreter at a path has it: with the shortest way to its target,
    /// which doesn't go up and come down again by the same names.
    ///
    /// # Errors
    /// Want of memory.
    pub fn straightened(&self, alloc: Global, at: &[Text]) -> Result<Alias, AllocError>
        ensures made { IfOk result (λ made. made ≡ straight at.now self.now) }
        ensures leads { IfOk result (λ made. (b : List (List ℕ)) → rise self.now.up at.now
            ≡ Some b → (c : List (List ℕ)) × (rise made.up at.now ≡ Some c) × (c ++ made.down
            ≡ b ++ self.now.down)) }
    {
        let up = self.up();
        if up > at.len() {
            return self.clone();
        }
        let down = self.down();
        let common = in_common(last_names(at, up), down);
        let rest = Vec::from_clones(alloc, &down[common..])?;
        let words = Vec::from_clones(alloc, self.words())?;
        Alias::new(alloc, up - common, rest, words)
    }

    /// How many levels up its way to the target goes first.
    pub fn up(&self) -> usize
        ensures { result ≡ self.now.up }
    {
        self.shared.up
    }

    /// The names that its way then goes down.
    pub fn down(&self) -> &[Text]
        ensures { result.now ≡ self.now.down }
    {
        self.shared.down.as_slice()
    }

    /// The words with which a call begins, that of the target command first.
    pub fn words(&self) -> &[Value]
        ensures { result.now ≡ self.now.words }
    {
        self.shared.words.as_slice()
    }
}

impl Clone for Alias {
    ghost is_clone = { λ x y. y ≡ x };

    fn clone(&self) -> Result<Alias, AllocError> {
        let shared = self.shared.clone()?;
        Ok(Alias { shared })
    }
}
