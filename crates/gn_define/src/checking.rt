// What a value gives as the field of a row.

ghost use Rattle.std.specs.Prelude.{◌≡◌, Ok, Err, IfOk, IfErr, map};
ghost use Rattle.gn_values.specs.View.{val_of};
ghost use Rattle.gn_define.specs.Faults.{IsReadFault};
ghost use Rattle.gn_define.specs.Held.{held_of};
ghost use Rattle.gn_define.specs.Checking.{boolean_in, count_in, scope_in, runs_script, script_in, command_in, arguments_of, strings_in, checked};

use crate::fault::ReadError;
use crate::field::Field;
use crate::forms::{FileRole, SubstForm, TextForm};
use crate::place::Where;
use crate::strings::{
    are_empty, labels_in, many_strings, one_or_many_strings, one_string, paths_in, patterns_in,
    substs_in, texts_in,
};
use gn_faults::Code;
use gn_paths::Path;
use gn_rows::{ItemKind, RowType, StringKind};
use gn_substs::Position;
use gn_values::Value;
use std::alloc::Global;

fn boolean_in(value: &Value) -> Result<Field, ReadError>
    ensures ok { IfOk result (λ f. boolean_in (val_of value.now) ≡ Ok (held_of f)) }
    ensures wrong { IfErr result (λ e. IsReadFault e (boolean_in (val_of value.now))) }
{
    match value {
        Value::Bool(held) => Ok(Field::Boolean(*held)),
        _ => Err(ReadError::Wrong(Code::WrongType)),
    }
}

fn count_in(value: &Value) -> Result<Field, ReadError>
    ensures ok { IfOk result (λ f. count_in (val_of value.now) ≡ Ok (held_of f)) }
    ensures wrong { IfErr result (λ e. IsReadFault e (count_in (val_of value.now))) }
{
    match value {
        Value::Int(number) => {
            if *number < 0 {
                Err(ReadError::Wrong(Code::WrongType))
            } else {
                Ok(Field::Count(*number))
            }
        }
        _ => Err(ReadError::Wrong(Code::WrongType)),
    }
}

fn scope_in(alloc: Global, value: &Value) -> Result<Field, ReadError>
    ensures ok { IfOk result (λ f. scope_in (val_of value.now) ≡ Ok (held_of f)) }
    ensures wrong { IfErr result (λ e. IsReadFault e (scope_in (val_of value.now))) }
{
    match value {
        Value::Scope(_) => Ok(Field::Scope(value.copy(alloc)?)),
        _ => Err(ReadError::Wrong(Code::WrongType)),
    }
}

fn runs_script(kind: ItemKind) -> bool
    ensures { result ≡ runs_script kind }
{
    matches!(kind, ItemKind::Action | ItemKind::ActionForeach)
}

fn script_in(alloc: Global, place: &Where, values: &[Value]) -> Result<Field, ReadError>
    ensures ok { IfOk result (λ f. script_in place.now (map val_of values.now) ≡ Ok (held_of f)) }
    ensures wrong { IfErr result (λ e. IsReadFault e (script_in place.now (map val_of values.now))) }
{
    if runs_script(place.kind) && are_empty(values) {
        return Ok(Field::Paths(Vec::new(alloc)));
    }
    paths_in(alloc, place, values)
}

fn command_in(alloc: Global, place: &Where, values: &[Value]) -> Result<Field, ReadError>
    ensures ok { IfOk result (λ f. command_in place.now (map val_of values.now) ≡ Ok (held_of f)) }
    ensures wrong { IfErr result (λ e. IsReadFault e (command_in place.now (map val_of values.now))) }
{
    if are_empty(values) {
        return Ok(Field::Substs(Vec::new(alloc)));
    }
    substs_in(alloc, place, SubstForm::At(Position::ToolText), &[], values)
}

fn arguments_in(alloc: Global, place: &Where, values: &[Value]) -> Result<Field, ReadError>
    ensures ok { IfOk result (λ f. arguments_of place.now place.now.kind (map val_of values.now) ≡ Ok (held_of f)) }
    ensures wrong { IfErr result (λ e. IsReadFault e (arguments_of place.now place.now.kind (map val_of values.now))) }
{
    match place.kind {
        ItemKind::Action => substs_in(
            alloc,
            place,
            SubstForm::At(Position::ActionArgs),
            &[],
            values,
        ),
        ItemKind::ActionForeach => substs_in(
            alloc,
            place,
            SubstForm::At(Position::ForeachArgs),
            &[],
            values,
        ),
        _ => texts_in(alloc, place, TextForm::Plain, values),
    }
}

// What strings give.
fn strings_in(
    alloc: Global,
    place: &Where,
    sources: &[Path],
    content: StringKind,
    values: &[Value],
) -> Result<Field, ReadError>
    ensures ok { IfOk result (λ f. strings_in place.now sources.now content (map val_of values.now) ≡ Ok (held_of f)) }
    ensures wrong { IfErr result (λ e. IsReadFault e (strings_in place.now sources.now content (map val_of values.now))) }
{
    match content {
        StringKind::Text => texts_in(alloc, place, TextForm::Plain, values),
        StringKind::Path => paths_in(alloc, place, values),
        StringKind::Script => script_in(alloc, place, values),
        StringKind::Library => texts_in(alloc, place, TextForm::Library, values),
        StringKind::Label => labels_in(alloc, place, values),
        StringKind::Pattern => patterns_in(alloc, place, values),
        StringKind::Argument => arguments_in(alloc, place, values),
        StringKind::Output => {
            let form = SubstForm::File(FileRole::Output);
            substs_in(alloc, place, form, sources, values)
        }
        StringKind::Depfile => {
            let form = SubstForm::File(FileRole::Depfile);
            substs_in(alloc, place, form, sources, values)
        }
        StringKind::Command => command_in(alloc, place, values),
        StringKind::Subst(position) => {
            substs_in(alloc, place, SubstForm::At(position), &[], values)
        }
        StringKind::DepsFormat => texts_in(alloc, place, TextForm::DepsFormat, values),
    }
}

/// What a value gives as the field of a row, for these sources of the item: its type is judged first, then its content.
#[tactic(auto, unfolding(crate::specs::Checking::checked))]
pub(crate) fn checked(
    alloc: Global,
    place: &Where,
    sources: &[Path],
    row_type: RowType,
    value: &Value,
) -> Result<Field, ReadError>
    ensures ok { IfOk result (λ f. checked place.now sources.now row_type (val_of value.now) ≡ Ok (held_of f)) }
    ensures wrong { IfErr result (λ e. IsReadFault e (checked place.now sources.now row_type (val_of value.now))) }
{
    match row_type {
        RowType::Boolean => boolean_in(value),
        RowType::Count => count_in(value),
        RowType::One(content) => { strings_in(alloc, place, sources, content, one_string(value)?) }
        RowType::Many(content) => {
            strings_in(alloc, place, sources, content, many_strings(value)?)
        }
        RowType::OneOrMany(content) => {
            strings_in(alloc, place, sources, content, one_or_many_strings(value)?)
        }
        RowType::Scope => scope_in(alloc, value),
        RowType::Unused => Ok(Field::Unused),
    }
}
