//! Places in lists.
ghost use Rattle.std.specs.Prelude.{◌≡◌, ◌≤◌, ℕ, length, take, drop};
ghost use Rattle.tcl_words.specs.Spans.{before, up_to, from, behind};
ghost use Rattle.tcl_lists.specs.Lists.{Texts};

use tcl_text::index::Index;

/// How many of so many elements stand before a place. A place outside is brought to the nearer end.
pub fn before_place(place: Index, count: usize) -> usize
    ensures within { result ≤ count }
    ensures front { (l : Texts) → length l ≡ count → take result l ≡ before place l }
    ensures rest { (l : Texts) → length l ≤ count → drop result l ≡ from place l }
{
    match place {
        Index::Before => 0,
        Index::At(n) => count.min(n as usize),
        Index::Beyond => count,
    }
}

/// How many of so many elements stand before the place behind this one.
pub fn up_to_place(place: Index, count: usize) -> usize
    ensures within { result ≤ count }
    ensures front { (l : Texts) → length l ≡ count → take result l ≡ up_to place l }
{
    match place {
        Index::Before => 0,
        Index::At(n) => count.min(n as usize + 1),
        Index::Beyond => count,
    }
}
