//! The rows that are put in order: elements of a list with what they are compared by.
ghost use Rattle.std.specs.Prelude.{◌≡◌};

use std::cmp::{Eq, Ord, Ordering, PartialEq, PartialOrd};
use std::marker::Model;
use tcl_text::text::Text;
use tcl_value::value::Value;

/// An element with its text, which contracts see as that text.
#[derive(Drop)]
pub struct TextRow {
    text: Text,
    value: Value,
}

impl Model for TextRow {
    ghost use Rattle.std.specs.Prelude.{ℕ, List, ◌≡◌};

    ghost Value = { List ℕ };

    ghost view = { λ a. a.text };

    ghost invariant = { λ a. a.value ≡ a.text };
}

impl TextRow {
    /// An element with its text.
    pub fn new(text: Text, value: Value) -> TextRow
        requires { value ≡ text }
        ensures { result ≡ text }
    {
        TextRow { text, value }
    }

    /// The element.
    pub fn value(&self) -> &Value
        ensures { result.now ≡ self.now }
    {
        &self.value
    }
}

impl PartialEq for TextRow {
    ghost use Rattle.std.specs.Str.{bytes_eq};
    ghost use Rattle.std.specs.Cmp.Lexicographic.{nat_list_eq_equiv};
    ghost use Rattle.std.specs.Cmp as Cmp;

    ghost eq = { bytes_eq };

    ghost laws = { Cmp.partial_equiv_from_equiv nat_list_eq_equiv };

    fn eq(&self, other: &TextRow) -> bool {
        self.text.as_str() == other.text.as_str()
    }
}

impl Eq for TextRow {
    ghost use Rattle.std.specs.Cmp.Lexicographic.{nat_list_eq_equiv};

    ghost laws = { nat_list_eq_equiv };
}

impl PartialOrd for TextRow {
    ghost use Rattle.std.specs.Prelude.{Some};
    ghost use Rattle.std.specs.Ordering.{nat_cmp};
    ghost use Rattle.std.specs.Cmp.Lexicographic.{slice_cmp, texts_po};

    ghost partial_cmp = { λ x y. Some (slice_cmp nat_cmp x y) };

    ghost laws = { texts_po };

    fn partial_cmp(&self, other: &TextRow) -> Option<Ordering> {
        Some(self.cmp(other))
    }
}

impl Ord for TextRow {
    ghost use Rattle.std.proofs.Common.{rules};
    ghost use Rattle.std.specs.Ordering.{nat_cmp};
    ghost use Rattle.std.specs.Cmp.Lexicographic.{slice_cmp, nat_list_cmp_total, texts_ties};

    ghost cmp = { slice_cmp nat_cmp };

    ghost total = { nat_list_cmp_total };

    ghost matches_partial_cmp = { Prim.search rules };

    ghost matches_eq = { texts_ties };

    fn cmp(&self, other: &TextRow) -> Ordering {
        self.text.as_str().cmp(other.text.as_str())
    }
}

/// An element with its integer, which contracts see as its text and the integer. Rows compare by
/// their integers.
#[derive(Drop)]
pub struct NumberRow {
    number: i64,
    value: Value,
}

impl Model for NumberRow {
    ghost use Rattle.tcl_lists.specs.Sorting.{Numbered};

    ghost Value = { Numbered };

    ghost view = { λ a. (a.value, a.number) };
}

impl NumberRow {
    /// An element with its integer.
    pub fn new(number: i64, value: Value) -> NumberRow
        ensures { result ≡ (value, number) }
    {
        NumberRow { number, value }
    }

    /// The element.
    pub fn value(&self) -> &Value
        ensures { result.now ≡ self.now.0 }
    {
        &self.value
    }
}

impl PartialEq for NumberRow {
    ghost use Rattle.std.specs.Cmp.{partial_equiv_from_equiv, on_equiv, int_eq_equiv};
    ghost use Rattle.tcl_lists.specs.Sorting.{Numbered, same_number};

    ghost eq = { same_number };

    ghost laws = { partial_equiv_from_equiv (on_equiv (λ (r : Numbered). r.1) int_eq_equiv) };

    fn eq(&self, other: &NumberRow) -> bool {
        self.number == other.number
    }
}

impl Eq for NumberRow {
    ghost use Rattle.std.specs.Cmp.{on_equiv, int_eq_equiv};
    ghost use Rattle.tcl_lists.specs.Sorting.{Numbered};

    ghost laws = { on_equiv (λ (r : Numbered). r.1) int_eq_equiv };
}

impl PartialOrd for NumberRow {
    ghost use Rattle.std.specs.Prelude.{Some};
    ghost use Rattle.std.specs.Cmp.{on_po, signed_po};
    ghost use Rattle.tcl_lists.specs.Sorting.{Numbered, number_order};

    ghost partial_cmp = { λ x y. Some (number_order x y) };

    ghost laws = { on_po (λ (r : Numbered). r.1) signed_po };

    fn partial_cmp(&self, other: &NumberRow) -> Option<Ordering> {
        Some(self.cmp(other))
    }
}

impl Ord for NumberRow {
    ghost use Rattle.std.proofs.Common.{rules, refl};
    ghost use Rattle.std.specs.Cmp.{on_total, int_cmp_total};
    ghost use Rattle.tcl_lists.specs.Sorting.{Numbered, number_order};

    ghost cmp = { number_order };

    ghost total = { on_total (λ (r : Numbered). r.1) int_cmp_total };

    ghost matches_partial_cmp = { Prim.search rules };

    ghost matches_eq = { λ x y. refl };

    fn cmp(&self, other: &NumberRow) -> Ordering {
        self.number.cmp(&other.number)
    }
}
