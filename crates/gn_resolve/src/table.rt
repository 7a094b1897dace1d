// What is kept of targets that are resolved.

ghost use Rattle.std.specs.Prelude.{◌≡◌, List, option_map, IfOk, OnOk, OnErr, None};
ghost use Rattle.indexmap.specs.IndexMap.{IsUnchanged};
ghost use Rattle.gn_labels.specs.declared.label.Label.{Label as Named};
ghost use Rattle.gn_items.specs.declared.item.Item.{Item};
ghost use Rattle.gn_toolchains.specs.Toolchains.{Surroundings};
ghost use Rattle.gn_resolve.specs.Table.{entry_in, is_in, record_kept, known_in, handed_in, hard_at, IsPut};
ghost use Rattle.gn_resolve.specs.Steps.{IsHeld, StaysHeld};

use gn_labelled::{HandedOn, ItemGraph};
use gn_labels::Label;
use gn_records::Record;
use indexmap::IndexMap;
use std::alloc::{AllocError, Global};

/// What is kept of a target that is resolved.
#[derive(Drop)]
pub struct Entry {
    /// The configurations that it hands on to all that depend on it.
    pub pushed: Vec<Label>,
    /// Those that it hands on to targets that have it as a dependency.
    pub pushed_public: Vec<Label>,
    /// The actions and copies to which its dependencies lead, in label order.
    pub hard: Vec<Label>,
    /// Its record; None where no item has its label.
    pub known: Option<Box<Record>>,
}

/// Targets that are resolved, by their labels.
#[derive(Drop)]
pub struct Resolved {
    /// What is kept of each.
    pub entries: IndexMap<Label, Entry>,
}

// The record that is kept, if there is one.
fn record_in(entry: &Entry) -> Option<&Record>
    ensures { option_map (λ r. r.now) result ≡ record_kept entry.now }
{
    match &entry.known {
        None => None,
        Some(record) => Some(record),
    }
}

/// The graph of the items of a build, with what is kept of its targets.
pub(crate) type Known<'a> = ItemGraph<'a, Resolved>;

impl Resolved {
    /// No target is resolved. It takes no memory.
    pub fn new(alloc: Global) -> Resolved
        ensures none { (q : Named) → entry_in result q ≡ None }
        ensures held { (s : Surroundings) (items : List Item) → IsHeld s items result }
    {
        Resolved {
            entries: IndexMap::new(alloc),
        }
    }

    // No target is resolved, and there is room for so many.
    pub(crate) fn with_room(alloc: Global, count: usize) -> Result<Resolved, AllocError>
        ensures none { IfOk result (λ r. (q : Named) → entry_in r q ≡ None) }
        ensures held { IfOk result (λ r. (s : Surroundings) (items : List Item) → IsHeld s items r) }
    {
        let mut entries = IndexMap::new(alloc);
        entries.reserve_exact(count)?;
        Ok(Resolved { entries })
    }

    // What is kept of a label.
    pub(crate) fn entry(&self, label: &Label) -> Option<&Entry>
        ensures { option_map (λ e. e.now) result ≡ entry_in self.now label.now }
    {
        self.entries.get(label)
    }

    // Whether the target of a label is resolved.
    pub(crate) fn has(&self, label: &Label) -> bool
        ensures { result ≡ is_in self.now label.now }
    {
        self.entries.contains_key(label)
    }

    // The actions and copies to which the dependencies of a target lead; none where it isn't resolved.
    pub(crate) fn hard(&self, label: &Label) -> &[Label]
        ensures { result.now ≡ hard_at self.now label.now }
    {
        match self.entry(label) {
            None => &[],
            Some(entry) => entry.hard.as_slice(),
        }
    }

    /// The record of a target, in the time of one look-up; None where it isn't resolved or no item has the label. It takes no memory.
    pub fn get(&self, label: &Label) -> Option<&Record>
        ensures { option_map (λ r. r.now) result ≡ known_in self.now label.now }
    {
        match self.entry(label) {
            None => None,
            Some(entry) => record_in(entry),
        }
    }

    /// Puts what is kept of a target with the others, as `resolve` gives it. Where that is right, and what is kept of the others is and
    /// has all dependencies of the target, all is right again. After want of memory nothing is changed.
    pub fn put(&mut self, label: Label, entry: Entry) -> Result<(), AllocError>
        ensures put { OnOk result (IsPut self.old self.new label entry) }
        ensures held { OnOk result (StaysHeld self.old self.new label entry) }
        ensures err { OnErr result (IsUnchanged self.old.entries self.new.entries) }
    {
        let replaced = self.entries.insert(label, entry)?;
        drop(replaced);
        Ok(())
    }
}

impl HandedOn for Resolved {
    ghost handed_on = { handed_in };

    fn pushed(&self, label: &Label) -> &[Label] {
        match self.entry(label) {
            None => &[],
            Some(entry) => entry.pushed.as_slice(),
        }
    }

    fn pushed_public(&self, label: &Label) -> &[Label] {
        match self.entry(label) {
            None => &[],
            Some(entry) => entry.pushed_public.as_slice(),
        }
    }
}
