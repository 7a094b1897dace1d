// The pools that tools name and with which something is wrong.

ghost use Rattle.std.specs.Prelude.{◌≡◌, None, option_map, filter};
ghost use Rattle.std.specs.List.{fold};
ghost use Rattle.gn_rules.specs.Rules.{names_pool};
ghost use Rattle.gn_labelled.specs.Graphs.{kind_at};
ghost use Rattle.gn_toolchain_faults.specs.Least.{earlier, itself};
ghost use Rattle.gn_toolchain_faults.specs.Pools.{is_wrong, wrong_pool};

use gn_items::{Item, ItemKind, Tool};
use gn_labelled::ItemIndex;
use gn_labels::Label;
use gn_paths::Text;
use gn_rows::Variable;

/// What is wrong with the label of a pool: no item has it, or the first that has it is no pool.
#[derive(Clone, Copy)]
pub(crate) enum Wrong {
    Missing,
    Foreign,
}

// The kind of an item, if there is one.
fn kind_at(item: Option<&Item>) -> Option<ItemKind>
    ensures { result ≡ kind_at (option_map (λ i. i.now) item.entry) }
{
    match item {
        None => None,
        Some(item) => Some(item.kind),
    }
}

// Whether an item of this kind is a pool.
fn names_pool(kind: Option<ItemKind>) -> bool
    ensures { result ≡ names_pool kind }
{
    matches!(kind, Some(ItemKind::Pool))
}

// Whether this is wrong with the label of a pool.
fn is_wrong(wrong: Wrong, items: &ItemIndex<'_>, pool: &Label) -> bool
    ensures { result ≡ is_wrong wrong items.now pool.now }
{
    let kind = kind_at(items.item(pool));
    match wrong {
        Wrong::Missing => kind.is_none(),
        Wrong::Foreign => kind.is_some() && !names_pool(kind),
    }
}

// The earlier in label order of two labels, where there may be only the second.
fn earlier<'a>(best: Option<&'a Label>, label: &'a Label, default: &Text) -> Option<&'a Label>
    ensures { option_map (λ l. l.now) result ≡ earlier itself default.now (option_map (λ l. l.now) best.entry) label.now }
{
    match best {
        None => Some(label),
        Some(best) => {
            if label.before(best, default) {
                Some(label)
            } else {
                Some(best)
            }
        }
    }
}

// The first in label order of those of the labels with which this is wrong and of one more, if there is one.
fn least_wrong<'a>(
    wrong: Wrong,
    default: &Text,
    items: &ItemIndex<'_>,
    first: Option<&'a Label>,
    pools: &'a [Label],
) -> Option<&'a Label>
    ensures { option_map (λ l. l.now) result ≡ fold (earlier itself default.now) (option_map (λ l. l.now) first.entry) (filter (is_wrong wrong items.now) pools.now) }
{
    let mut best = first;
    for pool in pools {
        if is_wrong(wrong, items, pool) {
            best = earlier(best, pool, default);
        }
    }
    best
}

/// The first in label order of the pools that tools name and with which this is wrong. It takes no memory.
#[tactic(auto, unfolding(crate::specs::Pools::wrong_pool))]
pub(crate) fn wrong_pool<'a>(
    wrong: Wrong,
    default: &Text,
    items: &ItemIndex<'_>,
    tools: &'a [Tool],
) -> Option<&'a Label>
    ensures { option_map (λ l. l.now) result ≡ wrong_pool wrong default.now items.now tools.now }
{
    let mut best = None;
    for tool in tools {
        best = least_wrong(
            wrong,
            default,
            items,
            best,
            tool.fields.labels(Variable::Pool),
        );
    }
    best
}
