// Names of a list that are there from where variables are forwarded.

ghost use Rattle.std.specs.Prelude.{◌≡◌, ◌++◌, ◌&&◌, not, is_some, IfOk, OnOk, map};
ghost use Rattle.gn_values.specs.View.{val_of, entry_of};
ghost use Rattle.gn_environment.specs.Chains.{is_one_of};
ghost use Rattle.gn_environment.specs.Giving.{entries_at};
ghost use Rattle.gn_callers.specs.Origins.{origin_of, value_from, names_there};

use crate::callers::Callers;
use crate::origin::Origin;
use gn_layers::NameSet;
use gn_paths::{Text, Texts};
use gn_values::{Entry, Value};
use std::alloc::{AllocError, Global};

impl Callers {
    /// The names that are there, but for the excepted ones. The work is n log n in the names.
    pub fn names_from<'a>(
        &self,
        alloc: Global,
        from: Origin<'_>,
        names: &'a Texts,
        except: &Texts,
    ) -> Result<Vec<&'a Text>, AllocError>
        ensures { IfOk result (λ chosen. map (λ n. n.now) chosen.items
            ≡ names_there (value_from (origin_of from.entry) self.now) names.now except.now) }
    {
        let except = NameSet::new(alloc, except)?;
        let mut chosen = Vec::new(alloc);
        let end = self.choose(from, names, &except, &mut chosen);
        drop(except);
        if let Err(error) = end {
            drop(chosen);
            return Err(error);
        }
        Ok(chosen)
    }

    // Puts the names that are there, but for the excepted ones, behind others.
    fn choose<'a>(
        &self,
        from: Origin<'_>,
        names: &'a Texts,
        except: &NameSet<'_>,
        chosen: &mut Vec<&'a Text>,
    ) -> Result<(), AllocError>
        ensures { OnOk result (map (λ n. n.now) chosen.new.items
            ≡ map (λ n. n.now) chosen.old.items
            ++ names_there (value_from (origin_of from.entry) self.now) names.now except.now) }
    {
        for name in names.as_slice() {
            if self.is_chosen(from, name, except) {
                chosen.push(name)?;
            }
        }
        Ok(())
    }

    // Whether a name is there, and isn't one of the excepted ones.
    fn is_chosen(&self, from: Origin<'_>, name: &Text, except: &NameSet<'_>) -> bool
        ensures { result
            ≡ (not (is_one_of name.now except.now)
            && is_some (value_from (origin_of from.entry) self.now name.now)) }
    {
        !except.has(name.as_bytes()) && self.value_from(from, name).is_some()
    }

    /// The names that are there, with copies of their values.
    pub fn copies_from(
        &self,
        alloc: Global,
        from: Origin<'_>,
        names: &[&Text],
    ) -> Result<Vec<Entry>, AllocError>
        ensures { IfOk result (λ entries. map entry_of entries.items
            ≡ entries_at (value_from (origin_of from.entry) self.now) (map (λ n. n.now) names.now)) }
    {
        let mut entries = Vec::new(alloc);
        for name in names {
            if let Some(value) = self.value_from(from, name) {
                entries.push(copied_entry(alloc, name, value)?)?;
            }
        }
        Ok(entries)
    }
}

// An entry of copies of a name and a value.
fn copied_entry(alloc: Global, name: &Text, value: &Value) -> Result<Entry, AllocError>
    ensures { IfOk result (λ entry. entry_of entry ≡ (name.now, val_of value.now)) }
{
    let name = name.copy(alloc)?;
    let value = value.copy(alloc)?;
    Ok(Entry { name, value })
}
