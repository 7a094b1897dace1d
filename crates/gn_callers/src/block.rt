// The block of the innermost caller's call: what stands directly in it, and reads there.

ghost use Rattle.std.specs.Prelude.{◌≡◌, ◌≢◌, ◌↔◌, [], ◌∷◌, IsTrue, IfOk, OnOk, IfErr, true, false, map, option_map};
ghost use Rattle.gn_values.specs.Limits.{scope_fits};
ghost use Rattle.gn_values.specs.View.{val_of, entry_of};
ghost use Rattle.gn_environment.specs.Chains.{read_in, all_read, all_read_but, names_read};
ghost use Rattle.gn_environment.specs.Forwarding.{target_name};
ghost use Rattle.gn_environment.specs.Giving.{entries_but};
ghost use Rattle.gn_environment.specs.Invoker.{entries_by, entry_by};
ghost use Rattle.gn_environment.specs.Layers.{values_in};
ghost use Rattle.gn_environment.specs.Templates.{with_caller, in_block, reported_by};

use crate::callers::Callers;
use gn_layers::NameSet;
use gn_paths::{Text, Texts};
use gn_scopes::NamedScopes;
use gn_tree::Position;
use gn_values::{Entries, Entry, Value, ValueError};
use std::alloc::{AllocError, Global};

impl Callers {
    /// Whether no name stands directly in the block. The names are copied for it.
    pub fn block_is_empty(&self, alloc: Global) -> Result<bool, AllocError>
        ensures { IfOk result (λ b. IsTrue b ↔ (entries_by self.now ≡ [])) }
    {
        match self.items.front() {
            Some(caller) => is_empty_here(&caller.scopes, alloc),
            None => Ok(true),
        }
    }

    /// Copies of what stands directly in the block. `TooLong` comes exactly where they would nest too deep for a scope's
    /// value.
    pub fn block_entries(&self, alloc: Global) -> Result<Entries, ValueError>
        ensures ok { IfOk result (λ entries. entries ≡ entries_by self.now) }
        ensures fits { OnOk result (scope_fits (entries_by self.now) ≡ true) }
        ensures refused { IfErr result
            (λ e. e ≢ ValueError.Memory
            → (e ≡ ValueError.TooLong) × (scope_fits (entries_by self.now) ≡ false)) }
    {
        match self.items.front() {
            Some(caller) => entries_here(&caller.scopes, alloc),
            None => Ok(Entries::new(alloc)),
        }
    }

    /// The same but for `target_name` and the excepted names, whatever they nest.
    pub fn block_entries_but(
        &self,
        alloc: Global,
        except: &NameSet<'_>,
    ) -> Result<Vec<Entry>, AllocError>
        ensures { IfOk result (λ copies. map entry_of copies.items
            ≡ entries_but (target_name ∷ except.now) (entries_by self.now)) }
    {
        match self.items.front() {
            Some(caller) => caller.scopes.copies_here_but(alloc, except),
            None => Ok(Vec::new(alloc)),
        }
    }

    /// What stands directly in the block at a name. It takes no memory.
    pub fn block_value(&self, name: &Text) -> Option<&Value>
        ensures { option_map (λ v. val_of v.now) result ≡ entry_by name.now self.now }
    {
        let caller = self.items.front()?;
        caller.scopes.value_here(name)
    }

    /// A read of a name in the block, if it stands there. It takes no memory.
    pub fn read_in_block(&mut self, name: &Text)
        ensures { self.new ≡ with_caller (in_block (read_in name.now)) self.old }
    {
        if let Some(caller) = self.items.front_mut() {
            caller.scopes.read_here(name);
        }
    }

    /// A read of all names of the block. It takes no memory.
    pub fn read_block(&mut self)
        ensures { self.new ≡ with_caller (in_block all_read) self.old }
    {
        if let Some(caller) = self.items.front_mut() {
            caller.scopes.read_all_here();
        }
    }

    /// A read of all names of the block but these. It takes no memory.
    pub fn read_block_but(&mut self, except: &NameSet<'_>)
        ensures { self.new ≡ with_caller (in_block (all_read_but except.now)) self.old }
    {
        if let Some(caller) = self.items.front_mut() {
            caller.scopes.read_all_here_but(except);
        }
    }

    /// A read of these names of the block, but for the excepted ones. It takes no memory.
    pub fn read_block_names(&mut self, names: &Texts, except: &NameSet<'_>)
        ensures { self.new ≡ with_caller (in_block (names_read names.now except.now)) self.old }
    {
        if let Some(caller) = self.items.front_mut() {
            caller.scopes.read_names_here(names, except);
        }
    }

    /// What the end of the block reports: the caller's file, the name that nothing read and whose last assignment stands
    /// first, and where that stands. None comes exactly where there is no caller, the block isn't checked or every name was
    /// read. It takes no memory.
    pub fn block_unread(&self) -> Option<(&Text, &[u8], Position)>
        ensures { option_map (λ p. (p.0.now, (p.1.now, p.2))) result ≡ reported_by self.now }
    {
        let caller = self.items.front()?;
        let (name, position) = caller.scopes.unread()?;
        Some((&caller.file, name, position))
    }
}

// Whether no name stands in the innermost layer.
fn is_empty_here(scopes: &NamedScopes, alloc: Global) -> Result<bool, AllocError>
    ensures { IfOk result (λ b. IsTrue b ↔ (values_in scopes.now.inner ≡ [])) }
{
    let names = scopes.copies_here(alloc)?;
    Ok(names.as_slice().is_empty())
}

/// Copies of what stands directly in the innermost layer, as a scope. `TooLong` comes exactly where they would nest too deep
/// for a scope's value.
pub(crate) fn entries_here(scopes: &NamedScopes, alloc: Global) -> Result<Entries, ValueError>
    ensures ok { IfOk result (λ entries. entries ≡ values_in scopes.now.inner) }
    ensures fits { OnOk result (scope_fits (values_in scopes.now.inner) ≡ true) }
    ensures refused { IfErr result
        (λ e. e ≢ ValueError.Memory
        → (e ≡ ValueError.TooLong) × (scope_fits (values_in scopes.now.inner) ≡ false)) }
{
    let names = scopes.copies_here(alloc)?;
    Entries::from_bindings(names)
}
