//! Where a text stands in another.
ghost use Rattle.std.specs.Prelude.{◌≡◌, ◌≢◌, ◌<◌, ℕ, [], length, IfSome};
ghost use Rattle.std.specs.Str.{chars};
ghost use Rattle.tcl_characters.specs.Places.{first_from, last_from, first_place, last_place};
ghost use Rattle.tcl_characters.specs.Places.{counted_from};

use crate::parts::character_count;
use crate::starts::{first_characters, skip_characters};
use memchr::memmem;

/// The first place of a needle in a text.
fn first_within(needle: &str, text: &str) -> Option<usize>
    requires { needle.now ≢ [] }
    ensures place { (s : ℕ) →
        counted_from s result ≡ first_from (chars needle.now) (chars text.now) s }
    ensures within { IfSome result (λ place. place < length (chars text.now)) }
{
    let at = memmem::find(text.as_bytes(), needle.as_bytes())?;
    let (front, _) = text.split_at(at);
    Some(character_count(front))
}

/// The last place of a needle in a text.
fn last_within(needle: &str, text: &str) -> Option<usize>
    requires { needle.now ≢ [] }
    ensures { result ≡ last_from (chars needle.now) (chars text.now) 0 }
{
    let at = memmem::rfind(text.as_bytes(), needle.as_bytes())?;
    let (front, _) = text.split_at(at);
    Some(character_count(front))
}

/// The first place, at or behind `start`, at which the characters of a needle stand in a text. An
/// empty needle stands nowhere.
pub fn first_place(needle: &str, text: &str, start: usize) -> Option<usize>
    ensures { result ≡ first_place (chars needle.now) (chars text.now) start }
{
    if needle.is_empty() {
        return None;
    }
    let place = first_within(needle, skip_characters(text, start))?;
    Some(start + place)
}

/// The last place at which the characters of a needle stand in a text, all of them before the place
/// `end`. An empty needle stands nowhere.
pub fn last_place(needle: &str, text: &str, end: usize) -> Option<usize>
    ensures { result ≡ last_place (chars needle.now) (chars text.now) end }
{
    if needle.is_empty() {
        return None;
    }
    last_within(needle, first_characters(text, end))
}
