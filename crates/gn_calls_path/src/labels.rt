// `get_label_info` and `label_matches`.

ghost use Rattle.std.specs.Prelude.{◌≡◌, IfOk, map};
ghost use Rattle.gn_labels.specs.Labels.{spelling};
ghost use Rattle.gn_paths.specs.Components.{two_slashes};
ghost use Rattle.gn_paths.specs.Directory.{obj_directory_of, gen_directory_of};
ghost use Rattle.gn_values.specs.View.{val_of};
ghost use Rattle.gn_values.specs.Val.{vbool};
ghost use Rattle.gn_calls_text.specs.Answers.{gives, text_answer};
ghost use Rattle.gn_calls_text.specs.Views.{Settles, bytes_in};
ghost use Rattle.gn_calls_path.specs.Calls.{label_info_answer, label_matches_answer};
ghost use Rattle.gn_calls_path.specs.Directories.{root_out_of};
ghost use Rattle.gn_calls_path.specs.Found.{each, read_at};
ghost use Rattle.gn_calls_path.specs.Labels.{label_at, pattern_at, with_toolchain, label_info, some_matches};

use crate::answers::string;
use crate::names::LabelInfo;
use crate::place::Where;
use crate::reading::{read_label, read_patterns};
use gn_calls_text::{CallError, bad_arguments, text_of, texts_of};
use gn_labels::{Label, Pattern};
use gn_paths::{Path, Text, gen_directory, obj_directory};
use gn_values::Value;
use std::alloc::{AllocError, Global};

fn root_out(alloc: Global, at: &Where, label: &Label) -> Result<Text, AllocError>
    ensures { IfOk result (λ t. t ≡ root_out_of at.now label.now.toolchain) }
{
    let out = at.root_out_of(alloc, &label.toolchain)?;
    out.as_text().copy(alloc)
}

fn obj_dir(alloc: Global, at: &Where, label: &Label) -> Result<Text, AllocError>
    ensures { IfOk result (λ t. t ≡ obj_directory_of (root_out_of at.now label.now.toolchain) label.now.dir) }
{
    let out = at.root_out_of(alloc, &label.toolchain)?;
    let made = obj_directory(alloc, &out, &label.dir);
    drop(out);
    made?.as_text().copy(alloc)
}

fn gen_dir(alloc: Global, at: &Where, label: &Label, directory: &Path) -> Result<Text, AllocError>
    ensures { IfOk result (λ t. t ≡ gen_directory_of (root_out_of at.now label.now.toolchain) directory.now) }
{
    let out = at.root_out_of(alloc, &label.toolchain)?;
    let made = gen_directory(alloc, &out, directory);
    drop(out);
    made?.as_text().copy(alloc)
}

fn root_gen(alloc: Global, at: &Where, label: &Label) -> Result<Text, AllocError>
    ensures { IfOk result (λ t. t ≡ gen_directory_of (root_out_of at.now label.now.toolchain) two_slashes) }
{
    let root = Path::root(alloc)?;
    let text = gen_dir(alloc, at, label, &root);
    drop(root);
    text
}

fn spelling(alloc: Global, label: &Label) -> Result<Text, AllocError>
    ensures { IfOk result (λ t. t ≡ spelling label.now.dir label.now.name) }
{
    let mut text = label.dir.as_text().copy(alloc)?;
    text.push(b':')?;
    text.append(label.name.as_bytes())?;
    Ok(text)
}

fn with_toolchain(alloc: Global, label: &Label) -> Result<Text, AllocError>
    ensures { IfOk result (λ t. t ≡ with_toolchain label.now) }
{
    let mut text = spelling(alloc, label)?;
    text.push(b'(')?;
    text.append(label.toolchain.as_bytes())?;
    text.push(b')')?;
    Ok(text)
}

/// What is asked of a label.
fn label_info(alloc: Global, at: &Where, info: LabelInfo, label: &Label) -> Result<Text, AllocError>
    ensures { IfOk result (λ t. t ≡ label_info at.now info label.now) }
{
    match info {
        LabelInfo::Name => label.name.copy(alloc),
        LabelInfo::Directory => label.dir.as_text().copy(alloc),
        LabelInfo::TargetOutDir => obj_dir(alloc, at, label),
        LabelInfo::RootOutDir => root_out(alloc, at, label),
        LabelInfo::TargetGenDir => gen_dir(alloc, at, label, &label.dir),
        LabelInfo::RootGenDir => root_gen(alloc, at, label),
        LabelInfo::NoToolchain => spelling(alloc, label),
        LabelInfo::WithToolchain => with_toolchain(alloc, label),
        LabelInfo::Toolchain => label.toolchain.copy(alloc),
    }
}

fn answer_of(alloc: Global, at: &Where, info: LabelInfo, text: &[u8]) -> Result<Value, CallError>
    ensures { Settles val_of result (read_at 0 (label_at at.now text.now) (λ label. text_answer (label_info at.now info label))) }
{
    let label = read_label(alloc, at, text)?;
    let told = label_info(alloc, at, info, &label);
    drop(label);
    string(told?)
}

/// What `get_label_info` answers to its values.
pub(crate) fn get_label_info(alloc: Global, args: &[Value], at: &Where) -> Result<Value, CallError>
    ensures { Settles val_of result (label_info_answer at.now (map val_of args.now)) }
{
    let [label, what] = args else {
        return Err(bad_arguments());
    };
    let text = text_of(label, 0)?;
    let name = text_of(what, 1)?;
    match LabelInfo::named(name) {
        Some(info) => answer_of(alloc, at, info, text),
        None => Err(bad_arguments()),
    }
}

fn some_matches(label: &Label, patterns: &[Pattern]) -> bool
    ensures { result ≡ some_matches label.now patterns.now }
{
    for pattern in patterns {
        if pattern.matches(label) {
            return true;
        }
    }
    false
}

fn matches_of(alloc: Global, at: &Where, text: &[u8], texts: &[Value]) -> Result<Value, CallError>
    ensures { Settles val_of result (read_at 0 (label_at at.now text.now) (λ label.
        read_at 1 (each (pattern_at at.now) (map bytes_in texts.now)) (λ ps. gives (vbool (some_matches label ps))))) }
{
    let label = read_label(alloc, at, text)?;
    let answer = label_matches_some(alloc, at, &label, texts);
    drop(label);
    answer
}

/// Whether a label matches one of these patterns.
fn label_matches_some(
    alloc: Global,
    at: &Where,
    label: &Label,
    texts: &[Value],
) -> Result<Value, CallError>
    ensures { Settles val_of result (read_at 1 (each (pattern_at at.now) (map bytes_in texts.now)) (λ ps. gives (vbool (some_matches label.now ps)))) }
{
    let patterns = read_patterns(alloc, at, texts)?;
    let matches = some_matches(label, patterns.as_slice());
    drop(patterns);
    Ok(Value::Bool(matches))
}

/// What `label_matches` answers to its values.
pub(crate) fn label_matches(alloc: Global, args: &[Value], at: &Where) -> Result<Value, CallError>
    ensures { Settles val_of result (label_matches_answer at.now (map val_of args.now)) }
{
    let [label, patterns] = args else {
        return Err(bad_arguments());
    };
    let text = text_of(label, 0)?;
    let texts = texts_of(patterns, 1)?;
    matches_of(alloc, at, text, texts)
}
