// `get_target_outputs`

ghost use Rattle.std.specs.Prelude.{◌≡◌, option_map, map};
ghost use Rattle.gn_values.specs.View.{val_of};
ghost use Rattle.gn_calls_text.specs.Views.{Settles};
ghost use Rattle.gn_calls_path.specs.Each.{texts_answer};
ghost use Rattle.gn_calls_path.specs.Found.{read_at};
ghost use Rattle.gn_calls_path.specs.Labels.{label_at};
ghost use Rattle.gn_define.specs.Outputs.{outputs_of};
ghost use Rattle.gn_meaning.specs.Items.{where_here, context_here};
ghost use Rattle.gn_items.specs.Effects.{item_at};
ghost use Rattle.gn_meaning.specs.Outputs.{known_outputs, target_outputs};

use gn_calls_path::{read_label, strings};
use gn_calls_text::{CallError, bad_arguments, text_of};
use gn_define::{has_outputs, outputs_of};
use gn_env::Env;
use gn_items::{Item, Outcome};
use gn_steps::{context_here, where_here};
use gn_values::Value;
use std::alloc::Global;

// The outputs of an item, which is of a kind that has outputs of its own.
fn outputs_here(alloc: Global, env: &Env, item: &Item) -> Result<Value, CallError>
    ensures { Settles val_of result (texts_answer (outputs_of (context_here env.now.setting item.now.kind) item.now.fields)) }
{
    let context = context_here(alloc, item.kind, env)?;
    let outputs = outputs_of(alloc, &context, &item.fields)?;
    strings(alloc, outputs.as_slice())
}

fn known_outputs(alloc: Global, env: &Env, item: Option<&Item>) -> Result<Value, CallError>
    ensures { Settles val_of result (known_outputs env.now.setting (option_map (λ i. i.now) item.entry)) }
{
    match item {
        Some(item) if has_outputs(item.kind) => outputs_here(alloc, env, item),
        _ => Err(bad_arguments()),
    }
}

fn outputs_named(alloc: Global, text: &[u8], env: &Env, out: &Outcome) -> Result<Value, CallError>
    ensures { Settles val_of result (read_at 0 (label_at (where_here env.now.setting) text.now) (λ label. known_outputs env.now.setting (item_at label out.now.items))) }
{
    let at = where_here(alloc, env)?;
    let label = read_label(alloc, &at, text)?;
    known_outputs(alloc, env, out.item(&label))
}

/// What `get_target_outputs` answers to these values, where the outcome's items have been defined.
#[tactic(auto, unfolding(gn_meaning::specs::Outputs::target_outputs))]
pub(crate) fn get_target_outputs(
    alloc: Global,
    values: &[Value],
    env: &Env,
    out: &Outcome,
) -> Result<Value, CallError>
    ensures { Settles val_of result (target_outputs env.now.setting out.now.items (map val_of values.now)) }
{
    let [label] = values else {
        return Err(bad_arguments());
    };
    outputs_named(alloc, text_of(label, 0)?, env, out)
}
