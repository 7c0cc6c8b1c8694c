//! Entries as they are handed in.
ghost use Rattle.std.specs.Prelude.{◌≡◌, IfOk};
ghost use Rattle.tcl_functions.specs.Handing.{handed};
ghost use Rattle.tcl_run.specs.Entering.{entry_of, whole_entry};

use std::alloc::{AllocError, Global};
use tcl_run::entry::{Entry, OwnEntry};
use tcl_text::text::Text;

/// An entry as it is handed in for the interpreter at a path: an alias that it sets has the
/// shortest way to its target, which doesn't go up and come down again by the same names.
///
/// # Errors
/// Want of memory.
pub(crate) fn handed(alloc: Global, entry: Entry, target: &[Text]) -> Result<Entry, AllocError>
    ensures { IfOk result (λ made. whole_entry made ≡ handed target.now (whole_entry entry)) }
{
    match entry {
        Entry::Own(own) => Ok(Entry::Own(handed_own(alloc, own, target)?)),
        other => Ok(other),
    }
}

/// The same of what evaluates nothing.
fn handed_own(alloc: Global, own: OwnEntry, target: &[Text]) -> Result<OwnEntry, AllocError>
    ensures { IfOk result (λ made. entry_of made ≡ handed target.now (entry_of own)) }
{
    match own {
        OwnEntry::SetAlias { name, alias } => {
            let alias = alias.straightened(alloc, target)?;
            Ok(OwnEntry::SetAlias { name, alias })
        }
        other => Ok(other),
    }
}
