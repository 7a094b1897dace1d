// Copies of entries.

ghost use Rattle.std.specs.Prelude.{◌≡◌, ◌∷◌, IfOk, map};
ghost use Rattle.gn_values.specs.View.{entry_of};
ghost use Rattle.gn_environment.specs.Chains.{is_one_of};
ghost use Rattle.gn_environment.specs.Forwarding.{target_name};
ghost use Rattle.gn_environment.specs.Giving.{entries_but};

use gn_layers::NameSet;
use gn_paths::Text;
use gn_values::Entry;
use std::alloc::{AllocError, Global};

/// Copies of entries.
pub fn copy_entries(alloc: Global, entries: &[Entry]) -> Result<Vec<Entry>, AllocError>
    ensures { IfOk result (λ copies. map entry_of copies.items ≡ map entry_of entries.now) }
{
    let mut copies = Vec::with_capacity(alloc, entries.len())?;
    for entry in entries {
        copies.push(entry.copy(alloc)?)?;
    }
    Ok(copies)
}

/// Copies of entries, but for `target_name` and the excepted ones.
pub fn copied_but(
    alloc: Global,
    entries: &[Entry],
    except: &NameSet<'_>,
) -> Result<Vec<Entry>, AllocError>
    ensures { IfOk result (λ copies. map entry_of copies.items
        ≡ entries_but (target_name ∷ except.now) (map entry_of entries.now)) }
{
    let mut copies = Vec::new(alloc);
    for entry in entries {
        if !is_kept_back(&entry.name, except) {
            copies.push(entry.copy(alloc)?)?;
        }
    }
    Ok(copies)
}

/// Takes away `target_name` and the excepted entries. It takes no memory.
pub(crate) fn keep_forwarded(entries: &mut Vec<Entry>, except: &NameSet<'_>)
    ensures { map entry_of entries.new.items
        ≡ entries_but (target_name ∷ except.now) (map entry_of entries.old.items) }
{
    entries.retain(|entry| !is_kept_back(&entry.name, except));
}

// Whether `"*"` doesn't forward a name: `target_name`, and the excepted ones.
fn is_kept_back(name: &Text, except: &NameSet<'_>) -> bool
    ensures { result ≡ is_one_of name.now (target_name ∷ except.now) }
{
    name.as_bytes() == b"target_name".as_slice() || except.has(name.as_bytes())
}
