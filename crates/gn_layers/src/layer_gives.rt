// Names of a layer that are given values all at once, or not at all.

ghost use Rattle.std.specs.Prelude.{◌≡◌, OnOk, OnErr};
ghost use Rattle.gn_layers.specs.View.{variables_in, value_pairs};
ghost use Rattle.std.specs.Ordering.{nat_cmp};
ghost use Rattle.std.specs.Cmp.Lexicographic.{slice_cmp};
ghost use Rattle.gn_layers.specs.Undoing.{all_put_back};
ghost use Rattle.gn_environment.specs.Giving.{variables_given, all_given};

use crate::key::NameKey;
use crate::layer::Layer;
use crate::undo::{put_all_back, set_name};
use crate::variable::Variable;
use gn_values::Value;
use std::alloc::{AllocError, Global};
use std::collections::BTreeMap;

impl Layer {
    /// Gives these names their values, in order; they count as read. After want of memory the layer is as before, and
    /// the values are dropped.
    pub fn give_all(
        &mut self,
        alloc: Global,
        values: Vec<(NameKey, Value)>,
    ) -> Result<(), AllocError>
        ensures ok { OnOk result (self.new ≡ all_given (value_pairs values.items) self.old) }
        ensures err { OnErr result (self.new ≡ self.old) }
    {
        let mut before = Vec::new(alloc);
        match give_each(alloc, &mut self.variables, &mut before, values) {
            Ok(()) => Ok(()),
            Err(error) => {
                put_all_back(&mut self.variables, before);
                Err(error)
            }
        }
    }
}

/// Gives names their values, and puts what they stood for before behind `before`.
pub(crate) fn give_each(
    alloc: Global,
    variables: &mut BTreeMap<NameKey, Variable>,
    before: &mut Vec<(NameKey, Option<Variable>)>,
    values: Vec<(NameKey, Value)>,
) -> Result<(), AllocError>
    ensures ok { OnOk result (variables_in variables.new.entries
        ≡ variables_given (value_pairs values.items) (variables_in variables.old.entries)) }
    ensures back { all_put_back (slice_cmp nat_cmp) before.new.items variables.new.entries
        ≡ all_put_back (slice_cmp nat_cmp) before.old.items variables.old.entries }
{
    for (name, value) in values {
        set_name(alloc, variables, before, &name, Variable::given(value))?;
    }
    Ok(())
}
