//! The order of texts.
ghost use Rattle.std.specs.Prelude.{◌≡◌, ◌↔◌, IsTrue, if◌then◌else◌};
ghost use Rattle.tcl_glob.specs.Patterns.{letters};
ghost use Rattle.tcl_characters.specs.Order.{order};

use std::cmp::Ordering;
use tcl_glob::characters::first_letter;

/// Whether two texts have the same characters; with `nocase` the ASCII letters of both are taken in
/// lower case.
pub fn equal(a: &str, b: &str, nocase: bool) -> bool
    ensures { IsTrue result ↔ (letters nocase a.now ≡ letters nocase b.now) }
{
    if nocase {
        compare(a, b, true).is_eq()
    } else {
        a == b
    }
}

/// How one text stands to another by the numbers of their characters; with `nocase` the ASCII
/// letters of both are taken in lower case.
pub fn compare(a: &str, b: &str, nocase: bool) -> Ordering
    ensures { result ≡ order (letters nocase a.now) (letters nocase b.now) }
{
    let mut left = a;
    let mut right = b;
    'letters: while let Some((x, behind_left)) = first_letter(left, nocase) {
        let Some((y, behind_right)) = first_letter(right, nocase) else {
            return Ordering::Greater;
        };
        if x != y {
            return less_or_greater(x < y);
        }
        left = behind_left;
        right = behind_right;
    }
    if right.is_empty() {
        Ordering::Equal
    } else {
        Ordering::Less
    }
}

fn less_or_greater(less: bool) -> Ordering
    ensures { result ≡ (if less then Ordering.Less else Ordering.Greater) }
{
    if less {
        Ordering::Less
    } else {
        Ordering::Greater
    }
}
