// `process_file_template`.

ghost use Rattle.std.specs.Prelude.{◌≡◌, ◌≤◌, ◌*◌, ◌++◌, length, IfOk, OnOk, map};
ghost use Rattle.gn_substs.specs.Expansions.{expanded};
ghost use Rattle.gn_values.specs.View.{val_of};
ghost use Rattle.gn_calls_text.specs.Views.{Settles, bytes_in};
ghost use Rattle.gn_calls_path.specs.Calls.{template_answer};
ghost use Rattle.gn_calls_path.specs.Directories.{path_at, root_out};
ghost use Rattle.gn_calls_path.specs.Each.{texts_of, texts_answer};
ghost use Rattle.gn_calls_path.specs.Found.{each, read_at};
ghost use Rattle.gn_calls_path.specs.Templates.{template_at, expanded_for, expanded_all, source_given};
ghost use Rattle.gn_calls_path.specs.Views.{given_of};

use crate::answers::strings;
use crate::given::{OneOrList, one_or_list};
use crate::place::Where;
use crate::reading::{read_paths, read_templates};
use gn_calls_text::{CallError, bad_arguments, texts_of, too_long};
use gn_paths::{Path, Text};
use gn_substs::{Around, Given, Position, Subst};
use gn_values::{MAX_ITEMS, Value};
use std::alloc::{AllocError, Global};

/// What stands for the substitutions of a source.
fn given_for(alloc: Global, at: &Where, out: &Path, source: &Path) -> Result<Given, AllocError>
    requires { out.now ≡ root_out at.now }
    ensures { IfOk result (λ g. g ≡ source_given at.now source.now) }
{
    let around = Around {
        target: &at.directory,
        build: &at.build,
        out,
    };
    Given::of_source(alloc, Position::FileTemplate, source, &around)
}

/// Puts each template with the texts of a source at the end.
fn expand_each(
    alloc: Global,
    texts: &mut Vec<Text>,
    given: &Given,
    templates: &[Subst],
) -> Result<(), AllocError>
    ensures { OnOk result (texts.new.items ≡ texts.old.items ++ map (expanded given.now) templates.now) }
{
    for template in templates {
        texts.push(template.expand(alloc, given)?)?;
    }
    Ok(())
}

/// Puts each template with the texts of this source at the end.
fn expand_source(
    alloc: Global,
    texts: &mut Vec<Text>,
    at: &Where,
    out: &Path,
    source: &Path,
    templates: &[Subst],
) -> Result<(), AllocError>
    requires { out.now ≡ root_out at.now }
    ensures { OnOk result (texts.new.items ≡ texts.old.items ++ map (expanded_for at.now source.now) templates.now) }
{
    let given = given_for(alloc, at, out, source)?;
    expand_each(alloc, texts, &given, templates)
}

/// Each source with each template.
fn expand_all(
    alloc: Global,
    at: &Where,
    sources: &[Path],
    templates: &[Subst],
) -> Result<Vec<Text>, AllocError>
    ensures { IfOk result (λ ts. ts.items ≡ expanded_all at.now sources.now templates.now) }
{
    let out = at.root_out_of(alloc, &at.toolchain)?;
    let mut texts = Vec::new(alloc);
    for source in sources {
        expand_source(alloc, &mut texts, at, &out, source, templates)?;
    }
    Ok(texts)
}

/// Each source with each template as a list of strings, where these aren't too many.
#[tactic(auto, using(crate::proofs::TemplateLemmas::too_many))]
fn expand_within(
    alloc: Global,
    at: &Where,
    sources: &[Path],
    templates: &[Subst],
) -> Result<Value, CallError>
    ensures { Settles val_of result (texts_answer (expanded_all at.now sources.now templates.now)) }
{
    if sources.len().saturating_mul(templates.len()) > MAX_ITEMS {
        return Err(too_long());
    }
    let texts = expand_all(alloc, at, sources, templates)?;
    strings(alloc, texts.as_slice())
}

fn expand_texts(
    alloc: Global,
    at: &Where,
    sources: &[Value],
    templates: &[Value],
) -> Result<Value, CallError>
    ensures { Settles val_of result (read_at 0 (each (path_at at.now.directory) (map bytes_in sources.now)) (λ paths.
        read_at 1 (each template_at (map bytes_in templates.now)) (λ found. texts_answer (expanded_all at.now paths found)))) }
{
    let sources = read_paths(alloc, &at.directory, sources)?;
    let templates = read_templates(alloc, templates)?;
    expand_within(alloc, at, sources.as_slice(), templates.as_slice())
}

fn expand_given(
    alloc: Global,
    at: &Where,
    sources: &[Value],
    given: OneOrList<'_>,
) -> Result<Value, CallError>
    ensures { Settles val_of result (read_at 0 (each (path_at at.now.directory) (map bytes_in sources.now)) (λ paths.
        read_at 1 (each template_at (texts_of (given_of given.entry))) (λ found. texts_answer (expanded_all at.now paths found)))) }
{
    expand_texts(alloc, at, sources, given.as_slice())
}

/// What `process_file_template` answers to its values.
pub(crate) fn process_file_template(
    alloc: Global,
    args: &[Value],
    at: &Where,
) -> Result<Value, CallError>
    ensures { Settles val_of result (template_answer at.now (map val_of args.now)) }
{
    let [sources, template] = args else {
        return Err(bad_arguments());
    };
    let sources = texts_of(sources, 0)?;
    let given = one_or_list(template, 1)?;
    expand_given(alloc, at, sources, given)
}
