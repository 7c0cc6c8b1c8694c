//! The grammar of expressions: one tree at most for the tokens, and which token is the first that
//! doesn't fit.
ghost use Rattle.std.specs.Prelude.{◌≡◌, ◌↔◌, ℕ, List, Ok, Err};
ghost use Rattle.tcl_expr.specs.declared.token.Token.{Token};
ghost use Rattle.tcl_expr.specs.Trees.{Tree};
ghost use Rattle.tcl_expr.specs.Grammar.{IsExpression};
ghost use Rattle.tcl_expr.specs.Reading.{read_tokens};
ghost use Rattle.tcl_expr.specs.Misfits.{Fails};
ghost use Rattle.tcl_expr.specs.declared.grammar.Misfit.{Misfit};

/// Why a token doesn't fit behind those before it.
#[derive(Clone, Copy)]
pub enum Misfit {
    /// No expression begins so (211).
    Syntax,
    /// Only one that nests too deep begins so (217).
    TooDeep,
    /// 9223372036854775808 stands where no minus makes it fit (112).
    TooLarge,
}

/// Tokens are those of one tree at most, and reading finds it.
pub fn reading_finds_the_tree()
    ensures tree { (room : ℕ) (a : Tree) (s : List Token) →
        (read_tokens room s ≡ Ok a) ↔ IsExpression room a s }
    ensures one { (room : ℕ) (a b : Tree) (s : List Token) → IsExpression room a s →
        IsExpression room b s → a ≡ b }
{}

/// Tokens that are no expression's fail in one way: by the first of them that doesn't fit, or by
/// ending too early.
pub fn reading_finds_the_fault()
    ensures { (room : ℕ) (s : List Token) (e : Misfit) →
        (read_tokens room s ≡ Err e) ↔ Fails room s e }
{}
