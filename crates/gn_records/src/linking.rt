// What the linker of a target binds.

ghost use Rattle.std.specs.Prelude.{◌≡◌, [], ◌∷◌, ◌++◌, IfOk, OnOk, map, option_map};
ghost use Rattle.std.specs.List.{flat_map, list_any};
ghost use Rattle.gn_paths.specs.Components.{is_slash};
ghost use Rattle.gn_rows.specs.declared.variable.Variable.TheVariants.{LibDirSwitch};
ghost use Rattle.gn_writing.specs.Outputs.{paths_meant};
ghost use Rattle.gn_records.specs.Around.{fields_of};
ghost use Rattle.gn_records.specs.Flags.{text_of_tool, lib_words, lib_dirs_of, libs_of, link_flags, link_flags_where};

use crate::flags::{all_seen_at, all_texts};
use crate::inherited::Inherited;
use crate::keeping::beside;
use crate::outputs::once;
use crate::texts::add_copies;
use gn_define::Fields;
use gn_items::Tool;
use gn_paths::{Path, Text, Texts, path_meant};
use gn_rows::Variable;
use gn_writing::{LinkFlags, behind_switch};
use std::alloc::{AllocError, Global};

// The string of a variable of a tool; nothing where there is no tool, or it doesn't set it.
pub(crate) fn text_of_tool<'a>(tool: Option<&'a Tool>, variable: Variable) -> &'a [u8]
    ensures { result.now ≡ text_of_tool variable (option_map (λ t. t.now) tool.entry) }
{
    let Some(tool) = tool else {
        return b"";
    };
    match tool.fields.texts(variable) {
        [text, ..] => text.as_bytes(),
        [] => b"",
    }
}

// Whether a library is a path.
fn has_slash(text: &Text) -> bool
    ensures { result ≡ list_any is_slash text.now }
{
    text.as_bytes().contains(&b'/')
}

// Puts the path that a text means, as seen from the build directory, behind words, where it means one.
fn push_path(alloc: Global, words: &mut Texts, build: &Path, text: &Text) -> Result<(), AllocError>
    ensures { OnOk result (words.new ≡ words.old ++ paths_meant build.now text.now) }
{
    match path_meant(alloc, build, text.as_bytes())? {
        Ok(path) => {
            let seen = path.seen_from(alloc, build);
            drop(path);
            words.push(seen?)
        }
        Err(_) => Ok(()),
    }
}

// Puts a name behind a switch behind words.
fn push_switched(
    alloc: Global,
    words: &mut Texts,
    switch: &[u8],
    text: &Text,
) -> Result<(), AllocError>
    ensures { OnOk result (words.new ≡ words.old ++ (switch.now ++ text.now) ∷ []) }
{
    let mut word = Text::from_bytes(alloc, switch)?;
    word.append(text.as_bytes())?;
    words.push(word)
}

// Puts a library behind words, as a path or behind the switch.
fn push_library(
    alloc: Global,
    words: &mut Texts,
    build: &Path,
    switch: &[u8],
    text: &Text,
) -> Result<(), AllocError>
    ensures { OnOk result (words.new ≡ words.old ++ lib_words build.now switch.now text.now) }
{
    if has_slash(text) {
        return push_path(alloc, words, build, text);
    }
    push_switched(alloc, words, switch, text)
}

// Libraries as words of a command.
fn library_words(
    alloc: Global,
    build: &Path,
    switch: &[u8],
    texts: &[Text],
) -> Result<Texts, AllocError>
    ensures { IfOk result (λ words. words ≡ flat_map (lib_words build.now switch.now) texts.now) }
{
    let mut words = Texts::new(alloc);
    for text in texts {
        push_library(alloc, &mut words, build, switch, text)?;
    }
    Ok(words)
}

// The libraries, each once.
fn libs_of(
    alloc: Global,
    own: &Fields,
    configs: &[&Fields],
    inherited: &Inherited,
) -> Result<Texts, AllocError>
    ensures { IfOk result (λ list. list ≡ libs_of own.now (fields_of configs.now) inherited.now) }
{
    let mut list = all_texts(alloc, Variable::Libs, own, configs)?;
    let added = add_copies(alloc, &mut list, inherited.libs.as_slice());
    let (list, ()) = beside(list, added)?;
    let libs = once(alloc, &list);
    drop(list);
    libs
}

// The directories of libraries, each once.
fn lib_dirs_of(
    alloc: Global,
    build: &Path,
    own: &Fields,
    configs: &[&Fields],
    inherited: &Inherited,
) -> Result<Texts, AllocError>
    ensures { IfOk result (λ list. list ≡ lib_dirs_of build.now own.now (fields_of configs.now) inherited.now) }
{
    let mut list = all_seen_at(alloc, build, Variable::LibDirs, own, configs)?;
    let added = add_copies(alloc, &mut list, inherited.lib_dirs.as_slice());
    let (list, ()) = beside(list, added)?;
    let dirs = once(alloc, &list);
    drop(list);
    dirs
}

// The libraries as words of a command.
fn libs(
    alloc: Global,
    build: &Path,
    tool: Option<&Tool>,
    own: &Fields,
    configs: &[&Fields],
    inherited: &Inherited,
) -> Result<Texts, AllocError>
    ensures { IfOk result (λ list. list ≡ (link_flags build.now (option_map (λ t. t.now) tool.entry) own.now (fields_of configs.now) inherited.now).libs) }
{
    let switch = text_of_tool(tool, Variable::LibSwitch);
    let libs = libs_of(alloc, own, configs, inherited)?;
    let words = library_words(alloc, build, switch, libs.as_slice());
    drop(libs);
    words
}

// The directories of libraries behind the switch.
fn switched_dirs(
    alloc: Global,
    build: &Path,
    tool: Option<&Tool>,
    own: &Fields,
    configs: &[&Fields],
    inherited: &Inherited,
) -> Result<Texts, AllocError>
    ensures { IfOk result (λ list. list ≡ map (λ d. text_of_tool LibDirSwitch (option_map (λ t. t.now) tool.entry) ++ d) (lib_dirs_of build.now own.now (fields_of configs.now) inherited.now)) }
{
    let switch = text_of_tool(tool, Variable::LibDirSwitch);
    let dirs = lib_dirs_of(alloc, build, own, configs, inherited)?;
    let words = behind_switch(alloc, switch, &dirs);
    drop(dirs);
    words
}

// The flags of the linker, and then the directories of libraries behind the switch.
fn ldflags(
    alloc: Global,
    build: &Path,
    tool: Option<&Tool>,
    own: &Fields,
    configs: &[&Fields],
    inherited: &Inherited,
) -> Result<Texts, AllocError>
    ensures { IfOk result (λ list. list ≡ (link_flags build.now (option_map (λ t. t.now) tool.entry) own.now (fields_of configs.now) inherited.now).ldflags) }
{
    let dirs = switched_dirs(alloc, build, tool, own, configs, inherited)?;
    let flags = all_texts(alloc, Variable::Ldflags, own, configs);
    let (dirs, mut list) = beside(dirs, flags)?;
    let added = add_copies(alloc, &mut list, dirs.as_slice());
    drop(dirs);
    let (list, ()) = beside(list, added)?;
    Ok(list)
}

// What the linker binds.
fn link_flags(
    alloc: Global,
    build: &Path,
    tool: Option<&Tool>,
    own: &Fields,
    configs: &[&Fields],
    inherited: &Inherited,
) -> Result<LinkFlags, AllocError>
    ensures { IfOk result (λ flags. flags ≡ link_flags build.now (option_map (λ t. t.now) tool.entry) own.now (fields_of configs.now) inherited.now) }
{
    let solibs = inherited.solibs.copy(alloc)?;
    let words = beside(solibs, libs(alloc, build, tool, own, configs, inherited))?;
    let flags = ldflags(alloc, build, tool, own, configs, inherited);
    let ((solibs, libs), ldflags) = beside(words, flags)?;
    Ok(LinkFlags {
        ldflags,
        libs,
        solibs,
    })
}

// What the linker of a target binds; nothing where nothing is linked.
pub(crate) fn link_flags_where(
    alloc: Global,
    is_linked: bool,
    build: &Path,
    tool: Option<&Tool>,
    own: &Fields,
    configs: &[&Fields],
    inherited: &Inherited,
) -> Result<LinkFlags, AllocError>
    ensures { IfOk result (λ flags. flags ≡ link_flags_where is_linked build.now (option_map (λ t. t.now) tool.entry) own.now (fields_of configs.now) inherited.now) }
{
    if is_linked {
        return link_flags(alloc, build, tool, own, configs, inherited);
    }
    Ok(LinkFlags {
        ldflags: Texts::new(alloc),
        libs: Texts::new(alloc),
        solibs: Texts::new(alloc),
    })
}
