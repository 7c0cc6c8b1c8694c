//! The names that commands and interpreters can have.
ghost use Rattle.std.specs.Prelude.{◌≡◌};
ghost use Rattle.tcl_interpreter.specs.Names.{has_colons, is_command_name, is_name};

use tcl_text::text::Text;

// Whether two colons stand side by side in these bytes.
fn has_colons(bytes: &[u8]) -> bool
    ensures { result ≡ has_colons bytes.now }
{
    let mut after_colon = false;
    'scan: for byte in bytes {
        let is_colon = *byte == b':';
        if after_colon && is_colon {
            return true;
        }
        after_colon = is_colon;
    }
    false
}

/// Whether a command can have the name: it has no two colons side by side.
pub(crate) fn is_command_name(name: &Text) -> bool
    ensures { result ≡ is_command_name name.now }
{
    !has_colons(name.as_str().as_bytes())
}

/// Whether an interpreter can have the name: it isn't empty, and has no two colons side by side.
pub fn is_name(name: &Text) -> bool
    ensures { result ≡ is_name name.now }
{
    let bytes = name.as_str().as_bytes();
    !bytes.is_empty() && !has_colons(bytes)
}
