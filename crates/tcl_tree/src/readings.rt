//! What texts were last read as.
ghost use Rattle.std.specs.Prelude.{◌≡◌, ◌≤◌, ◌+◌, IfOk, IfErr, IfSome};
ghost use Rattle.indexmap.specs.IndexMap.{IsEmpty};
ghost use Rattle.tcl_expr.specs.Expressions.{expression_of};
ghost use Rattle.tcl_parser.specs.Reading.{read_script};
ghost use Rattle.tcl_value.specs.Limits.{IsWithin};
ghost use Rattle.tcl_tree.specs.Kept.{IsTree, IsRefused, Gives};

use indexmap::IndexMap;
use std::alloc::{AllocError, Global};
use std::rc::Rc;
use tcl_expr::fault::ExprError;
use tcl_expr::parser::parse_expr;
use tcl_expr::token::Leaf;
use tcl_expr::tree::{ExprTree, Node};
use tcl_prepared::prepared::Prepared;
use tcl_prepared::preparing::{LONGEST, prepare};
use tcl_text::integer::Integers;
use tcl_text::text::Text;
use tcl_value::value::Value;

/// The most bytes of memory that the scripts which are kept may take together, and as many the
/// expressions.
const MOST_MEMORY: usize = 1 << 24;

/// The most bytes of memory that one of them takes for each byte of its text: twice for the text
/// itself, once for each of the 17 levels at which what stands there is a text again, once more for
/// a literal, and once for the elements of the list that one keeps.
const FOR_A_BYTE: usize = 21;

/// The most that it takes besides for each of its pieces.
const FOR_A_PIECE: usize = 120;

/// The most that its entry takes.
const FOR_AN_ENTRY: usize = 256;

/// A text, and the script that it is.
#[derive(Drop)]
struct ReadScript {
    of: Text,
    script: Rc<Prepared>,
    ghost is_read: { script.value ≡ read_script of },
}

/// A text, and the expression that it is in a style of integers.
#[derive(Drop)]
struct ReadExpression {
    of: Text,
    style: Integers,
    tree: Rc<ExprTree>,
    ghost is_read: { IsTree style of tree.value },
}

/// The script that a text is, and the place at which it is kept, if it is.
#[derive(Drop)]
struct Found {
    script: Rc<Prepared>,
    at: Option<usize>,
}

/// The expression that a text is, and the place at which it is kept, if it is.
#[derive(Drop)]
struct FoundExpression {
    tree: Rc<ExprTree>,
    at: Option<usize>,
}

/// The scripts and expressions that texts were last read as.
///
/// No reading depends on what is kept: it is that of its text, whether it is made anew or not.
/// Where the scripts would take more than 16,777,216 bytes of memory, all of them are dropped, and
/// where the expressions would, all of those. What texts of more than 65,536 bytes were read as
/// isn't kept.
pub struct Readings {
    scripts: IndexMap<Text, ReadScript>,
    memory: usize,
    expressions: IndexMap<Text, ReadExpression>,
    expression_memory: usize,
    alloc: Global,
    ghost most: { memory ≤ 16777216 },
    ghost most_of_expressions: { expression_memory ≤ 16777216 },
}

impl Drop for Readings {
    fn drop(self) {
        let Readings {
            scripts: _scripts,
            memory: _,
            expressions: _expressions,
            expression_memory: _,
            alloc: _,
        } = self;
    }
}

/// The most bytes of memory that what a text was read as takes, with the text and its entry, where
/// it has so many pieces.
fn memory_of(text: &Text, pieces: usize) -> usize {
    let bytes = text.len().saturating_mul(FOR_A_BYTE);
    let most = pieces.saturating_mul(FOR_A_PIECE);
    bytes.saturating_add(most).saturating_add(FOR_AN_ENTRY)
}

/// How many pieces an expression has: its steps, and those of its operands.
fn tree_pieces(tree: &ExprTree) -> usize {
    let mut pieces = tree.nodes.len();
    'nodes: for node in &tree.nodes {
        if let Node::Operand(Leaf::Substituted(operand)) = node {
            pieces = pieces.saturating_add(operand.pieces());
        }
    }
    pieces
}

impl Readings {
    /// No reading is kept.
    pub fn new(alloc: Global) -> Readings
        ensures scripts { IsEmpty result.scripts }
        ensures memory { result.memory ≡ 0 }
        ensures expressions { IsEmpty result.expressions }
        ensures expression_memory { result.expression_memory ≡ 0 }
    {
        Readings {
            scripts: IndexMap::new(alloc),
            memory: 0,
            expressions: IndexMap::new(alloc),
            expression_memory: 0,
            alloc,
        }
    }

    /// The script that a value is. Faults of its text are part of it. The value keeps where it is
    /// found.
    ///
    /// # Errors
    /// Want of memory.
    pub fn script_of(&mut self, alloc: Global, value: &Value) -> Result<Rc<Prepared>, AllocError>
        ensures { IfOk result (λ script. script.value ≡ read_script value.now) }
    {
        let text = value.text(alloc)?;
        let Found { script, at } = self.find(alloc, &text)?;
        if let Some(at) = at {
            value.keep_place(at);
        }
        Ok(script)
    }

    /// The script that a text is. Faults of the text are part of it.
    ///
    /// # Errors
    /// Want of memory.
    pub fn script(&mut self, alloc: Global, text: &Text) -> Result<Rc<Prepared>, AllocError>
        ensures { IfOk result (λ script. script.value ≡ read_script text.now) }
    {
        let Found { script, at: _ } = self.find(alloc, text)?;
        Ok(script)
    }

    /// The expression that a value is, in a style of integers. The value keeps where it is found,
    /// if it can keep a place.
    ///
    /// # Errors
    /// Why its text is none; want of memory.
    pub fn expression_of(
        &mut self,
        alloc: Global,
        value: &Value,
        style: Integers,
    ) -> Result<Rc<ExprTree>, ExprError>
        ensures { Gives result (expression_of style value.now) }
    {
        let _within = value.text_len();
        let text = value.text(alloc)?;
        let FoundExpression { tree, at } = self.find_expression(alloc, &text, style)?;
        if let Some(at) = at {
            value.keep_place(at);
        }
        Ok(tree)
    }

    /// The expression that a value is, if it is found at the place that the value keeps. What
    /// stands there may be that of another text, or in another style. This takes no memory.
    #[inline]
    pub fn expression_kept(&self, value: &Value, style: Integers) -> Option<Rc<ExprTree>>
        ensures { IfSome result (λ tree. IsTree style value.now tree.value) }
    {
        let (_, read) = self.expressions.get_index(value.place()?)?;
        if read.style != style || !value.is_shared_text(&read.of) {
            return None;
        }
        read.tree.clone().ok()
    }

    /// The expression that a text is, found by the text or read.
    fn find_expression(
        &mut self,
        alloc: Global,
        text: &Text,
        style: Integers,
    ) -> Result<FoundExpression, ExprError>
        requires { IsWithin text.now }
        ensures ok { IfOk result (λ found. IsTree style text.now found.tree.value) }
        ensures err { IfErr result (λ e. IsRefused e (expression_of style text.now)) }
    {
        if let Some((at, _, read)) = self.expressions.get_full(text) {
            if read.of == *text && read.style == style {
                let tree = read.tree.clone()?;
                return Ok(FoundExpression { tree, at: Some(at) });
            }
        }
        let tree = Rc::new(alloc, parse_expr(alloc, text.as_str(), style)?)?;
        let at = self.keep_expression(text, style, tree.clone()?)?;
        Ok(FoundExpression { tree, at })
    }

    /// The script that a value is, if it is found at the place that the value keeps. What stands
    /// there may be that of another text. This takes no memory.
    #[inline]
    pub fn script_kept(&self, value: &Value) -> Option<Rc<Prepared>>
        ensures { IfSome result (λ script. script.value ≡ read_script value.now) }
    {
        let (_, read) = self.scripts.get_index(value.place()?)?;
        if !value.is_shared_text(&read.of) {
            return None;
        }
        read.script.clone().ok()
    }

    /// The script that a text is, found by the text or read.
    fn find(&mut self, alloc: Global, text: &Text) -> Result<Found, AllocError>
        ensures { IfOk result (λ found. found.script.value ≡ read_script text.now) }
    {
        if let Some((at, _, read)) = self.scripts.get_full(text) {
            if read.of == *text {
                let script = read.script.clone()?;
                return Ok(Found {
                    script,
                    at: Some(at),
                });
            }
        }
        let script = Rc::new(alloc, prepare(alloc, text.as_str())?)?;
        let at = self.keep_script(text, script.clone()?)?;
        Ok(Found { script, at })
    }

    /// Keeps what a text was read as, unless it is too long or takes too much. Returns where.
    fn keep_script(
        &mut self,
        text: &Text,
        script: Rc<Prepared>,
    ) -> Result<Option<usize>, AllocError>
        requires { script.value ≡ read_script text.now }
    {
        let memory = memory_of(text, script.pieces());
        if text.len() > LONGEST || memory > MOST_MEMORY {
            return Ok(None);
        }
        self.make_room(memory);
        let of = text.clone()?;
        let (at, _) = self
            .scripts
            .insert_full(text.clone()?, ReadScript { of, script })?;
        self.memory = self.memory + memory;
        Ok(Some(at))
    }

    /// Makes room for a script that takes so much: drops all others where they leave too little.
    fn make_room(&mut self, memory: usize)
        requires { memory ≤ 16777216 }
        ensures { self.new.memory + memory ≤ 16777216 }
    {
        if memory > MOST_MEMORY - self.memory {
            self.scripts = IndexMap::new(self.alloc);
            self.memory = 0;
        }
    }

    /// Keeps the expression that a text is, unless it is too long or takes too much. Returns where.
    fn keep_expression(
        &mut self,
        text: &Text,
        style: Integers,
        tree: Rc<ExprTree>,
    ) -> Result<Option<usize>, AllocError>
        requires { IsTree style text.now tree.value }
    {
        let memory = memory_of(text, tree_pieces(&tree));
        if text.len() > LONGEST || memory > MOST_MEMORY {
            return Ok(None);
        }
        self.make_room_for_expression(memory);
        let of = text.clone()?;
        let (at, _) = self
            .expressions
            .insert_full(text.clone()?, ReadExpression { of, style, tree })?;
        self.expression_memory = self.expression_memory + memory;
        Ok(Some(at))
    }

    /// Makes room for an expression that takes so much: drops all others where they leave too
    /// little.
    fn make_room_for_expression(&mut self, memory: usize)
        requires { memory ≤ 16777216 }
        ensures { self.new.expression_memory + memory ≤ 16777216 }
    {
        if memory > MOST_MEMORY - self.expression_memory {
            self.expressions = IndexMap::new(self.alloc);
            self.expression_memory = 0;
        }
    }
}
