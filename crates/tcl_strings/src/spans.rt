//! Parts of texts between two places.
ghost use Rattle.std.specs.Prelude.{◌≡◌, length, take, drop};
ghost use Rattle.std.specs.Str.{chars};
ghost use Rattle.tcl_words.specs.Spans.{start, before, up_to, from, behind, span};
ghost use Rattle.tcl_characters.specs.Texts.{text_of};

use tcl_characters::starts::{first_characters, skip_characters};
use tcl_text::index::Index;

/// The characters before a place.
pub(crate) fn before(text: &str, place: Index) -> &str
    ensures { result.now ≡ text_of (before place (chars text.now)) }
{
    before_place(text, place)
}

fn before_place(text: &str, place: Index) -> &str
    ensures { chars result.now ≡ before place (chars text.now) }
{
    match place {
        Index::Before => "",
        Index::At(n) => first_characters(text, n as usize),
        Index::Beyond => text,
    }
}

/// The characters from a place on.
fn from(text: &str, place: Index) -> &str
    ensures { chars result.now ≡ from place (chars text.now) }
{
    match place {
        Index::Before => text,
        Index::At(n) => skip_characters(text, n as usize),
        Index::Beyond => "",
    }
}

/// The characters behind a place.
pub(crate) fn behind(text: &str, place: Index) -> &str
    ensures { result.now ≡ text_of (behind place (chars text.now)) }
{
    behind_place(text, place)
}

fn behind_place(text: &str, place: Index) -> &str
    ensures { chars result.now ≡ behind place (chars text.now) }
{
    match place {
        Index::Before => text,
        Index::At(n) => skip_characters(text, n as usize + 1),
        Index::Beyond => "",
    }
}

/// How many characters stand before a place that isn't beyond all.
fn passed(place: Index) -> usize
    ensures { result ≡ start 0 place }
{
    match place {
        Index::At(n) => n as usize,
        Index::Before | Index::Beyond => 0,
    }
}

/// The same as [`span`]. The text is walked over to the first place, and from there to the last.
fn part(text: &str, first: Index, last: Index) -> &str
    ensures { chars result.now ≡ span first last (chars text.now) }
{
    let rest = from(text, first);
    match last {
        Index::Before => "",
        Index::At(n) => first_characters(rest, (n as usize + 1).saturating_sub(passed(first))),
        Index::Beyond => rest,
    }
}

/// The characters from one place to another. A place outside is brought to the nearer end.
pub fn span(text: &str, first: Index, last: Index) -> &str
    ensures characters { chars result.now ≡ span first last (chars text.now) }
    ensures bytes { result.now ≡ text_of (span first last (chars text.now)) }
{
    part(text, first, last)
}

/// The first bytes, as many as are asked for or all, of a text in which each character takes one.
fn first_bytes(text: &str, end: usize) -> &str
    requires { length (chars text.now) ≡ length text.now }
    ensures front { chars result.now ≡ take end (chars text.now) }
    ensures single { length (chars result.now) ≡ length result.now }
{
    if end >= text.len() {
        return text;
    }
    &text[..end]
}

/// What follows the first bytes of a text in which each character takes one.
fn skip_bytes(text: &str, start: usize) -> &str
    requires { length (chars text.now) ≡ length text.now }
    ensures { chars result.now ≡ drop start (chars text.now) }
{
    if start >= text.len() {
        return "";
    }
    &text[start..]
}

/// The characters up to and with a place, of a text in which each character takes one byte.
fn bytes_up_to(text: &str, place: Index) -> &str
    requires { length (chars text.now) ≡ length text.now }
    ensures front { chars result.now ≡ up_to place (chars text.now) }
    ensures single { length (chars result.now) ≡ length result.now }
{
    match place {
        Index::Before => "",
        Index::At(n) => first_bytes(text, n as usize + 1),
        Index::Beyond => text,
    }
}

/// The same as [`from`], of a text in which each character takes one byte.
fn bytes_from(text: &str, place: Index) -> &str
    requires { length (chars text.now) ≡ length text.now }
    ensures { chars result.now ≡ from place (chars text.now) }
{
    match place {
        Index::Before => text,
        Index::At(n) => skip_bytes(text, n as usize),
        Index::Beyond => "",
    }
}

/// The same as [`span`], of a text in which each character takes one byte.
fn bytes_between(text: &str, first: Index, last: Index) -> &str
    requires { length (chars text.now) ≡ length text.now }
    ensures { result.now ≡ text_of (span first last (chars text.now)) }
{
    bytes_from(bytes_up_to(text, last), first)
}

/// The characters from one place to another, of a text of so many. Where each takes one byte, they
/// are cut out by bytes, and the text isn't walked over.
pub fn counted_span(text: &str, count: usize, first: Index, last: Index) -> &str
    requires { count ≡ length (chars text.now) }
    ensures { result.now ≡ text_of (span first last (chars text.now)) }
{
    if count == text.len() {
        return bytes_between(text, first, last);
    }
    span(text, first, last)
}
