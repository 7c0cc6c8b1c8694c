//! Texts that need no tree.
ghost use Rattle.std.specs.Prelude.{◌≡◌, length};
ghost use Rattle.tcl_c.specs.Written.{Quotes, WritesQuoted, said};
ghost use Rattle.tcl_sessions.specs.Texts.{front};

use crate::files::write_length;
use std::alloc::Global;
use tcl_sessions::refusal::{ALL, Refusal, of_number};
use tcl_sessions::texts::{quoted, write_front};

/// Writes what is said of the refusal of that number; an empty text where none has it. As much is
/// written as there is room for, and always a NUL behind it, where there is room for that. The text
/// is UTF-8; where it is cut off, this may be within a character.
///
/// Writes the room. Answers the length of the whole text, without the NUL.
#[unsafe(no_mangle)]
pub extern "C" fn tclsafe_error_text(number: i32, room: &mut [u8]) -> usize
    ensures whole { result ≡ length (said ALL number) }
    ensures written { room.new ≡ front (said ALL number) room.old }
{
    match of_number(&ALL, number) {
        Some(refusal) => write_front(refusal.text().as_bytes(), room),
        None => write_front(b"", room),
    }
}

/// Writes a text as one element of a list, with which a script or a path can be put together of
/// texts that nobody trusts, and the length of all of it. It is written as `tclsafe_error_text`
/// writes.
///
/// Reads the text; writes the room, and the length where it answers 0. Answers 0, or 122, 265; 401.
#[unsafe(no_mangle)]
pub extern "C" fn tclsafe_quote(
    alloc: Global,
    text: &[u8],
    room: &mut [u8],
    length: &mut usize,
) -> i32
    ensures { Quotes text.now room.old length.old result room.new length.new }
{
    write_length(write_quoted(alloc, text, room), length)
}

/// Writes a text as one element of a list, and gives how long that is.
fn write_quoted(alloc: Global, text: &[u8], room: &mut [u8]) -> Result<usize, Refusal>
    ensures { WritesQuoted text.now room.old result room.new }
{
    let quoted = quoted(alloc, text)?;
    Ok(write_front(quoted.as_str().as_bytes(), room))
}
