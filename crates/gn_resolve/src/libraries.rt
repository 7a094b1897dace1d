// What a target takes from the libraries that it inherits.

ghost use Rattle.std.specs.Prelude.{◌≡◌, ◌++◌, ◌∷◌, [], IfOk, OnOk, option_map};
ghost use Rattle.gn_dependencies.specs.Configurations.{AreRecorded};
ghost use Rattle.gn_labelled.specs.Graphs.{shape_of};
ghost use Rattle.gn_records.specs.Made.{objects_of};
ghost use Rattle.gn_resolve.specs.Table.{handed_in, nothing_inherited, with_set, with_static, with_shared, with_libs, with_kind, with_library, libraries_in, AreTaken};

use crate::table::Known;
use gn_chains::{Graph, inherited};
use gn_labels::Label;
use gn_paths::{Text, Texts};
use gn_records::{Exports, Inherited, Record};
use gn_rows::ItemKind;
use gn_writing::Written;
use std::alloc::{AllocError, Global};

// Nothing. It takes no memory.
fn nothing(alloc: Global) -> Inherited
    ensures { result ≡ nothing_inherited }
{
    Inherited {
        set_objects: Texts::new(alloc),
        set_dones: Texts::new(alloc),
        statics: Texts::new(alloc),
        shared: Texts::new(alloc),
        solibs: Texts::new(alloc),
        libs: Texts::new(alloc),
        lib_dirs: Texts::new(alloc),
    }
}

// Puts copies of texts behind others.
fn add_copies(alloc: Global, out: &mut Texts, texts: &[Text]) -> Result<(), AllocError>
    ensures { OnOk result (out.new ≡ out.old ++ texts.now) }
{
    for text in texts {
        out.push(text.copy(alloc)?)?;
    }
    Ok(())
}

// Puts a copy of a text behind others.
fn add_copy(alloc: Global, out: &mut Texts, text: &Text) -> Result<(), AllocError>
    ensures { OnOk result (out.new ≡ out.old ++ text.now ∷ []) }
{
    let text = text.copy(alloc)?;
    out.push(text)?;
    Ok(())
}

// The objects of a target's own sources.
fn objects_of(written: &Written) -> &[Text]
    ensures { result.now ≡ objects_of written.now }
{
    match written {
        Written::Compiled(compiled) => compiled.sources.objects.as_slice(),
        _ => &[],
    }
}

// What is taken from a source set.
fn add_set(alloc: Global, out: &mut Inherited, record: &Record) -> Result<(), AllocError>
    ensures { OnOk result (out.new ≡ with_set out.old (objects_of record.now.written) record.now.exports) }
{
    add_copies(alloc, &mut out.set_objects, objects_of(&record.written))?;
    add_copy(alloc, &mut out.set_dones, &record.exports.done)?;
    Ok(())
}

// What is taken from a static library.
fn add_static(alloc: Global, out: &mut Inherited, exports: &Exports) -> Result<(), AllocError>
    ensures { OnOk result (out.new ≡ with_static out.old exports.now) }
{
    add_copy(alloc, &mut out.statics, &exports.linked)?;
    Ok(())
}

// What is taken from a shared library.
fn add_shared(alloc: Global, out: &mut Inherited, exports: &Exports) -> Result<(), AllocError>
    ensures { OnOk result (out.new ≡ with_shared out.old exports.now) }
{
    add_copy(alloc, &mut out.shared, &exports.done)?;
    add_copy(alloc, &mut out.solibs, &exports.linked)?;
    Ok(())
}

// What is taken from each library.
fn add_libs(alloc: Global, out: &mut Inherited, exports: &Exports) -> Result<(), AllocError>
    ensures { OnOk result (out.new ≡ with_libs out.old exports.now) }
{
    add_copies(alloc, &mut out.libs, exports.libs.as_slice())?;
    add_copies(alloc, &mut out.lib_dirs, exports.lib_dirs.as_slice())?;
    Ok(())
}

// What is taken from a library by its kind.
fn add_by_kind(
    alloc: Global,
    out: &mut Inherited,
    kind: Option<ItemKind>,
    record: &Record,
) -> Result<(), AllocError>
    ensures { OnOk result (out.new ≡ with_kind kind out.old (objects_of record.now.written) record.now.exports) }
{
    match kind {
        Some(ItemKind::SourceSet) => add_set(alloc, out, record),
        Some(ItemKind::StaticLibrary) => add_static(alloc, out, &record.exports),
        Some(ItemKind::SharedLibrary) => add_shared(alloc, out, &record.exports),
        _ => Ok(()),
    }
}

// What is taken from a library.
fn add_library(
    alloc: Global,
    out: &mut Inherited,
    kind: Option<ItemKind>,
    known: Option<&Record>,
) -> Result<(), AllocError>
    ensures { OnOk result (out.new ≡ with_library kind out.old (option_map (λ r. r.now) known.entry)) }
{
    match known {
        None => Ok(()),
        Some(record) => {
            add_by_kind(alloc, out, kind, record)?;
            add_libs(alloc, out, &record.exports)?;
            Ok(())
        }
    }
}

// What is taken from libraries, in their order.
fn taken(alloc: Global, graph: &Known<'_>, labels: &[Label]) -> Result<Inherited, AllocError>
    ensures { IfOk result (λ h. h ≡ libraries_in graph.now.items graph.now.records labels.now) }
{
    let mut out = nothing(alloc);
    for label in labels {
        add_library(alloc, &mut out, graph.kind(label), graph.records.get(label))?;
    }
    Ok(out)
}

// What a target takes from the libraries that it inherits.
pub(crate) fn libraries(
    alloc: Global,
    graph: &Known<'_>,
    target: &Label,
) -> Result<Inherited, AllocError>
    requires { AreRecorded (shape_of graph.now.items) (handed_in graph.now.records) target.now }
    ensures { IfOk result (λ h. AreTaken graph.now.default.now graph.now.items graph.now.records target.now h) }
{
    let labels = inherited(alloc, target, graph)?;
    taken(alloc, graph, labels.as_slice())
}
