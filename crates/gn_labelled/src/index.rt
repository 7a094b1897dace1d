// Items by their labels.

ghost use Rattle.std.specs.Prelude.{◌≡◌, ◌++◌, ◌∷◌, [], ℕ, List, IfOk, OnOk, OnErr, option_map, length};
ghost use Rattle.indexmap.specs.IndexMap.{IsUnchanged};
ghost use Rattle.gn_items.specs.declared.item.Item.{Item as Defined};
ghost use Rattle.gn_items.specs.Effects.{item_at};
ghost use Rattle.gn_labelled.specs.Index.{lent, repeated, IsIndex, place_of, item_in};

use gn_items::Item;
use gn_labels::Label;
use indexmap::IndexMap;
use std::alloc::{AllocError, Global};
use std::marker::Model;

/// Items by their labels. It lends the items and copies nothing of them; contracts see their list. GN refuses a build that defines
/// a label twice; here such a label names the first of its items. A label is found in about the same time however many items
/// there are.
#[derive(Drop)]
pub struct ItemIndex<'a> {
    // All items, in order.
    items: Vec<&'a Item>,
    // Of each label that an item has, the place among all of the first item that has it.
    firsts: IndexMap<&'a Label, usize>,
    // The other items, in order.
    repeated: Vec<&'a Item>,
}

impl<'a> Model for ItemIndex<'a> {
    ghost use Rattle.std.specs.Prelude.{List};
    ghost use Rattle.std.specs.Coded.{coded_list};
    ghost use Rattle.gn_items.specs.declared.item.Item.{Item};
    ghost use Rattle.gn_items.specs.contracts.item.Item.{the_row};
    ghost use Rattle.gn_labelled.specs.Index.{lent, IsIndex};

    ghost Value = { List Item };

    ghost coded = { coded_list the_row.coded };

    ghost view = { λ s. lent s.items.items };

    ghost invariant = { λ s. IsIndex (lent s.items.items) s.firsts (lent s.repeated.items) };
}

// Puts an item, which stands at this place, with the first ones, or with the others where its label is there. After want of memory
// nothing is changed.
fn put<'a>(
    firsts: &mut IndexMap<&'a Label, usize>,
    repeated: &mut Vec<&'a Item>,
    item: &'a Item,
    place: usize,
) -> Result<(), AllocError>
    ensures ok { OnOk result ((items : List Defined) → place ≡ length items → IsIndex items firsts.old (lent repeated.old.items)
        → IsIndex (items ++ item.now ∷ []) firsts.new (lent repeated.new.items)) }
    ensures err { OnErr result (IsUnchanged firsts.old firsts.new × (repeated.new.items ≡ repeated.old.items)) }
{
    let label = &item.label;
    if firsts.contains_key(&label) {
        repeated.push(item)?;
    } else {
        firsts.insert(label, place)?;
    }
    Ok(())
}

// The item at a place, if there is one.
fn item_in<'a>(items: &[&'a Item], place: Option<usize>) -> Option<&'a Item>
    ensures { option_map (λ item. item.now) result ≡ item_in (lent items.now) place }
{
    let Some(place) = place else {
        return None;
    };
    match items.get(place) {
        None => None,
        Some(item) => Some(*item),
    }
}

impl<'a> ItemIndex<'a> {
    /// No items. It takes no memory.
    pub fn new(alloc: Global) -> ItemIndex<'a>
        ensures { result ≡ [] }
    {
        ItemIndex {
            items: Vec::new(alloc),
            firsts: IndexMap::new(alloc),
            repeated: Vec::new(alloc),
        }
    }

    /// These items, in their order.
    pub fn of(alloc: Global, items: &[&'a Item]) -> Result<ItemIndex<'a>, AllocError>
        ensures { IfOk result (λ index. index ≡ lent items.now) }
    {
        let mut index = ItemIndex::with_room(alloc, items.len())?;
        if let Err(error) = index.add_lent(items) {
            drop(index);
            return Err(error);
        }
        Ok(index)
    }

    // No items, and there is room for so many.
    fn with_room(alloc: Global, count: usize) -> Result<ItemIndex<'a>, AllocError>
        ensures { IfOk result (λ index. index ≡ []) }
    {
        let mut firsts = IndexMap::new(alloc);
        firsts.reserve_exact(count)?;
        let items = Vec::with_capacity(alloc, count)?;
        Ok(ItemIndex {
            items,
            firsts,
            repeated: Vec::new(alloc),
        })
    }

    // Puts the items behind the others. After want of memory some of them are there.
    fn add_lent(&mut self, items: &[&'a Item]) -> Result<(), AllocError>
        ensures { OnOk result (self.new ≡ self.old ++ lent items.now) }
    {
        for item in items {
            self.add(item)?;
        }
        Ok(())
    }

    /// Puts an item behind the others. After want of memory nothing is changed.
    pub fn add(&mut self, item: &'a Item) -> Result<(), AllocError>
        ensures ok { OnOk result (self.new ≡ self.old ++ item.now ∷ []) }
        ensures err { OnErr result (self.new ≡ self.old) }
    {
        self.items.reserve(1)?;
        let place = self.items.len();
        put(&mut self.firsts, &mut self.repeated, item, place)?;
        self.items.push_reserved(item);
        Ok(())
    }

    /// Puts the items behind the others, as those of an execution behind those of the executions before it. After want of memory
    /// some of them are there.
    pub fn add_all(&mut self, items: &'a [Item]) -> Result<(), AllocError>
        ensures { OnOk result (self.new ≡ self.old ++ items.now) }
    {
        for item in items {
            self.add(item)?;
        }
        Ok(())
    }

    /// The place, from 0, of the first item that has the label; None where no item has it. It takes no memory.
    pub fn place(&self, label: &Label) -> Option<usize>
        ensures { result ≡ place_of label.now self.now }
    {
        match self.firsts.get(&label) {
            None => None,
            Some(place) => Some(*place),
        }
    }

    /// The item at a place that was found, if there is one. It takes no memory, and looks nothing up.
    pub fn at(&self, place: Option<usize>) -> Option<&'a Item>
        ensures { option_map (λ item. item.now) result ≡ item_in self.now place }
    {
        item_in(self.items.as_slice(), place)
    }

    /// The first item that has the label; None where no item has it. It takes no memory.
    pub fn item(&self, label: &Label) -> Option<&'a Item>
        ensures { option_map (λ item. item.now) result ≡ item_at label.now self.now }
    {
        self.at(self.place(label))
    }

    /// All items, in order. It takes no memory.
    pub fn items(&self) -> &[&'a Item]
        ensures { lent result.now ≡ self.now }
    {
        self.items.as_slice()
    }

    /// The items whose label an item before them has, in order; none where no label is defined twice. It takes no memory.
    pub fn repeated(&self) -> &[&'a Item]
        ensures { lent result.now ≡ repeated self.now }
    {
        self.repeated.as_slice()
    }
}
