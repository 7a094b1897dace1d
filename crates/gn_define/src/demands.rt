// What a kind demands of the fields of an item.

ghost use Rattle.std.specs.Prelude.{◌≡◌, option_map};
ghost use Rattle.gn_define.specs.Held.{held_of};
ghost use Rattle.gn_define.specs.Demands.{size_of, broken, first_broken};

use crate::fault::ItemFault;
use crate::field::Field;
use crate::fields::Fields;
use gn_faults::Code;
use gn_rows::{Demand, Rule};

// How many items a variable holds: one where it holds no list, and none where it isn't set.
fn size(field: Option<&Field>) -> usize
    ensures { result ≡ size_of (option_map (λ f. held_of f.now) field.entry) }
{
    match field {
        None => 0,
        Some(Field::Texts(texts)) => texts.len(),
        Some(Field::Paths(paths)) => paths.len(),
        Some(Field::Labels(labels)) => labels.len(),
        Some(Field::Patterns(patterns)) => patterns.len(),
        Some(Field::Substs(substs)) => substs.len(),
        Some(_) => 1,
    }
}

// The code where what a variable holds isn't as the rule says.
fn broken(rule: Rule, field: Option<&Field>) -> Option<Code>
    ensures { result ≡ broken rule (option_map (λ f. held_of f.now) field.entry) }
{
    match rule {
        Rule::Required if size(field) == 0 => Some(Code::Missing),
        Rule::Excluded if field.is_some() => Some(Code::Excluded),
        Rule::AtMostOne if 1 < size(field) => Some(Code::BadArguments),
        _ => None,
    }
}

/// The fault of the first demand that isn't met.
pub(crate) fn first_broken(fields: &Fields, demands: &[Demand]) -> Option<ItemFault>
    ensures { result ≡ first_broken fields.now demands.now }
{
    for demand in demands {
        let variable = demand.variable;
        if let Some(code) = broken(demand.rule, fields.get(variable)) {
            return Some(ItemFault::Variable { variable, code });
        }
    }
    None
}
