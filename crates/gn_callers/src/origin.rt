// From where variables are forwarded: what stands there, and reads there.

ghost use Rattle.std.specs.Prelude.{◌≡◌, ◌∷◌, IfOk, map, option_map};
ghost use Rattle.gn_values.specs.View.{val_of, entry_of};
ghost use Rattle.gn_environment.specs.Forwarding.{target_name};
ghost use Rattle.gn_environment.specs.Giving.{entries_but, origin_entries, read_at_origin, read_all_at};
ghost use Rattle.gn_callers.specs.Origins.{origin_of, value_from};

use crate::callers::Callers;
use gn_layers::NameSet;
use gn_paths::{Text, Texts};
use gn_scopes::copied_but;
use gn_values::{Entries, Entry, Value};
use std::alloc::{AllocError, Global};

/// From where variables are forwarded.
#[derive(Clone, Copy)]
pub enum Origin<'a> {
    /// The entries of a scope.
    Entries(&'a Entries),
    /// The invoker. With names, what stands around the block of the call is forwarded too, and the invoker around the call
    /// as this value, if it is looked for.
    Invoker(Option<&'a Value>),
}

impl Callers {
    /// What a name has there. It takes no memory.
    pub fn value_from<'a>(&'a self, from: Origin<'a>, name: &Text) -> Option<&'a Value>
        ensures { option_map (λ v. val_of v.now) result ≡ value_from (origin_of from.entry) self.now name.now }
    {
        match from {
            Origin::Entries(entries) => entries.get(name.as_bytes()),
            Origin::Invoker(outer) => self.value(name, outer),
        }
    }

    /// Copies of what stands directly there, but for `target_name` and the excepted names.
    pub fn entries_from(
        &self,
        alloc: Global,
        from: Origin<'_>,
        except: &Texts,
    ) -> Result<Vec<Entry>, AllocError>
        ensures { IfOk result (λ copies. map entry_of copies.items
            ≡ entries_but (target_name ∷ except.now) (origin_entries (origin_of from.entry) self.now)) }
    {
        let except = NameSet::new(alloc, except)?;
        let copies = match from {
            Origin::Entries(entries) => copied_but(alloc, entries.as_slice(), &except),
            Origin::Invoker(_) => self.block_entries_but(alloc, &except),
        };
        drop(except);
        copies
    }

    /// A read of each of these names there; a scope that is a value has no unread names. It takes no memory.
    pub fn read_from(&mut self, from: Origin<'_>, names: &[&Text])
        ensures { self.new ≡ read_at_origin (origin_of from.entry) (map (λ n. n.now) names.now) self.old }
    {
        match from {
            Origin::Entries(_) => {}
            Origin::Invoker(_) => self.mark_each(names),
        }
    }

    /// A read of all that stands directly there. It takes no memory.
    pub fn read_all_from(&mut self, from: Origin<'_>)
        ensures { self.new ≡ read_all_at (origin_of from.entry) self.old }
    {
        match from {
            Origin::Entries(_) => {}
            Origin::Invoker(_) => self.read_block(),
        }
    }
}
