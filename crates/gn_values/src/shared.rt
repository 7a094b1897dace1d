// Values in order that several lists or scopes may have at once.

ghost use Rattle.std.specs.Prelude.{◌≡◌, [], ◌∷◌, ◌++◌, IfOk, OnOk, OnErr, map};
ghost use Rattle.gn_values.specs.Shared.{parts};

use std::alloc::{AllocError, Global};
use std::sync::Arc;

/// What can be copied where there is memory.
pub(crate) trait Copied: Drop {
    // what contracts see of a value
    ghost Seen: { Type 0 };

    // how they see it
    ghost seen: { Self → Seen };

    /// A new value equal to this one.
    fn copied(&self, alloc: Global) -> Result<Self, AllocError>
        ensures { IfOk result (λ r. seen r ≡ seen self.now) };
}

/// Values in order, which several may have at once: to share many takes no longer than to share one. They change in place
/// where nobody else has them, and whoever changes them while others have them too gets copies first. None take no memory.
#[derive(Drop)]
pub(crate) struct Shared<T> {
    pub(crate) alloc: Global,
    pub(crate) owned: Option<Arc<Vec<T>>>,
}

/// Copies of these values.
pub(crate) fn copies_of<T: Copied>(alloc: Global, items: &[T]) -> Result<Vec<T>, AllocError>
    ensures { IfOk result (λ r. map T.seen r.items ≡ map T.seen items.now) }
{
    let mut copies = Vec::with_capacity(alloc, items.len())?;
    for item in items {
        copies.push(item.copied(alloc)?)?;
    }
    Ok(copies)
}

impl<T> Shared<T> {
    /// No values. It takes no memory.
    pub(crate) fn new(alloc: Global) -> Shared<T>
        ensures { parts result ≡ [] }
    {
        Shared { alloc, owned: None }
    }

    /// The values, in order.
    pub(crate) fn as_slice(&self) -> &[T]
        ensures { result.now ≡ parts self.now }
    {
        match &self.owned {
            Some(shared) => shared.as_slice(),
            None => &[],
        }
    }

    /// The same values once more. None of them is copied.
    pub(crate) fn share(&self) -> Result<Shared<T>, AllocError>
        ensures { IfOk result (λ r. parts r ≡ parts self.now) }
    {
        match &self.owned {
            Some(shared) => Ok(Shared {
                alloc: self.alloc,
                owned: Some(Arc::try_clone(shared)?),
            }),
            None => Ok(Shared::new(self.alloc)),
        }
    }
}

impl<T: Drop> Shared<T> {
    /// These values, which nobody else has. They are moved.
    pub(crate) fn from_vec(items: Vec<T>) -> Result<Shared<T>, AllocError>
        ensures { IfOk result (λ r. parts r ≡ items.items) }
    {
        let alloc = *items.allocator();
        Ok(Shared {
            alloc,
            owned: Some(Arc::new(alloc, items)?),
        })
    }

    /// Puts other values in the place of these. After want of memory nothing is changed.
    pub(crate) fn replace(&mut self, items: Vec<T>) -> Result<(), AllocError>
        ensures ok { OnOk result (parts self.new ≡ items.items) }
        ensures err { OnErr result (parts self.new ≡ parts self.old) }
    {
        *self = Shared::from_vec(items)?;
        Ok(())
    }
}

impl<T: Copied> Shared<T> {
    /// Copies of the values.
    pub(crate) fn copies(&self) -> Result<Vec<T>, AllocError>
        ensures { IfOk result (λ r. map T.seen r.items ≡ map T.seen (parts self.now)) }
    {
        copies_of(self.alloc, self.as_slice())
    }

    /// The values in a vector: themselves where nobody else has them, and else copies.
    pub(crate) fn into_vec(self) -> Result<Vec<T>, AllocError>
        ensures { IfOk result (λ r. map T.seen r.items ≡ map T.seen (parts self)) }
    {
        let Shared { alloc, owned } = self;
        match owned {
            Some(shared) => match Arc::try_unwrap(shared) {
                Ok(items) => Ok(items),
                Err(shared) => copies_of(alloc, shared.as_slice()),
            },
            None => Ok(Vec::new(alloc)),
        }
    }

    /// Puts a value at the end, in place where nobody else has the values. After want of memory nothing is changed, and the
    /// value is dropped.
    pub(crate) fn push(&mut self, item: T) -> Result<(), AllocError>
        ensures ok { OnOk result
            (map T.seen (parts self.new) ≡ map T.seen (parts self.old) ++ T.seen item ∷ []) }
        ensures err { OnErr result (parts self.new ≡ parts self.old) }
    {
        if let Some(shared) = &mut self.owned {
            if let Some(items) = Arc::get_mut(shared) {
                items.push(item)?;
                return Ok(());
            }
        }
        let mut copies = self.copies()?;
        copies.push(item)?;
        self.replace(copies)
    }

    /// Moves values to the end, in place where nobody else has those that are there. After want of memory nothing is
    /// changed, and the values are dropped.
    fn push_all(&mut self, mut items: Vec<T>) -> Result<(), AllocError>
        ensures ok { OnOk result
            (map T.seen (parts self.new)
            ≡ map T.seen (parts self.old) ++ map T.seen items.items) }
        ensures err { OnErr result (parts self.new ≡ parts self.old) }
    {
        if let Some(shared) = &mut self.owned {
            if let Some(before) = Arc::get_mut(shared) {
                before.append(&mut items)?;
                return Ok(());
            }
        }
        let mut copies = self.copies()?;
        copies.append(&mut items)?;
        self.replace(copies)
    }

    /// Puts other values at the end, which are moved where nobody else has them, and shared where there were none before.
    /// After want of memory nothing is changed, and the others are dropped.
    pub(crate) fn append(&mut self, other: Shared<T>) -> Result<(), AllocError>
        ensures ok { OnOk result
            (map T.seen (parts self.new)
            ≡ map T.seen (parts self.old) ++ map T.seen (parts other)) }
        ensures err { OnErr result (parts self.new ≡ parts self.old) }
    {
        if self.as_slice().is_empty() {
            *self = other;
            return Ok(());
        }
        self.push_all(other.into_vec()?)
    }
}
