// Items of each kind with their sources, under toolchains that have some tools.

use gn_define::{Entry, Field, Fields};
use gn_items::{Item, ItemKind, Tool, Tools};
use gn_labels::Label;
use gn_needed_tools::missing_tools;
use gn_paths::{Path, PathError, Place, Text, resolve};
use gn_rows::Variable;
use std::alloc::{AllocError, Global};
use std::test::Fail;

// On each line the kind of an item, its sources, the tools of its toolchain, and the names of those that are missing.
const MISSING: &str = "\
group|||stamp
executable|||link
static_library|||alink
shared_library|||solink
source_set|||stamp
loadable_module|||solink_module
action|||stamp
action_foreach|a||stamp
copy|a||copy,stamp
config|||
pool|||
toolchain|||
tool|||
source_set|a.c|stamp|cc
source_set|a.cc|stamp|cxx
source_set|a.cpp|stamp|cxx
source_set|a.cxx|stamp|cxx
source_set|a.s|stamp|asm
source_set|a.S|stamp|asm
source_set|a.asm|stamp|asm
source_set|a.o,a.h,a.hh,a.hpp,a.hxx,a.inc,a.inl,a.C,a.c.txt,a,b.c/a|stamp|
executable|a.c|link|cc
static_library|a.c|alink|cc
shared_library|a.c|solink|cc
loadable_module|a.c|solink_module|cc
executable|a.h,b.c,c.c|link|cc
executable|c.s,b.cc,a.c||asm,cc,cxx,link
static_library|a.c,b.cc,c.s||alink,asm,cc,cxx
executable|a.c,b.cc,c.s|cxx,solink|asm,cc,link
executable|a.c,b.cc,c.s|link,cxx,cc,asm|
executable|a.c,b.cc,c.s|alink,asm,cc,copy,cxx,link,solink,solink_module,stamp|
executable|a.c|cxx,link|cc
source_set|a.c|cc,cc|stamp
copy|a.c,b.cc,c.s|stamp,copy|
copy|a|copy|stamp
copy|a|stamp|copy
action|a.c,b.cc,c.s|stamp|
action_foreach|a.c,b.cc,c.s|stamp|
group|a.c,b.cc,c.s|stamp|
config|a.c||";

// The part of a row at a place, from 0.
fn part(row: &str, place: usize) -> &str {
    row.split('|').nth(place).unwrap_or("")
}

fn path(alloc: Global, text: &str) -> Result<Path, PathError> {
    let root = Path::root(alloc)?;
    resolve(alloc, &root, text.as_bytes())
}

fn push(paths: &mut Vec<Path>, path: Path) -> Result<(), AllocError> {
    paths.push(path)?;
    Ok(())
}

fn put_path(alloc: Global, paths: &mut Vec<Path>, text: &str) -> Result<(), PathError> {
    Ok(push(paths, path(alloc, text)?)?)
}

fn paths(alloc: Global, names: &str) -> Result<Vec<Path>, PathError> {
    let mut paths = Vec::new(alloc);
    for name in names.split_terminator(',') {
        put_path(alloc, &mut paths, name)?;
    }
    Ok(paths)
}

fn no_fields(alloc: Global) -> Result<Fields, AllocError> {
    Fields::from_vec(alloc, Vec::new(alloc))
}

fn with_sources(alloc: Global, sources: Vec<Path>) -> Result<Fields, AllocError> {
    let mut entries = Vec::new(alloc);
    entries.push(Entry {
        variable: Variable::Sources,
        field: Field::Paths(sources),
    })?;
    Fields::from_vec(alloc, entries)
}

fn label(alloc: Global) -> Result<Label, AllocError> {
    Ok(Label {
        dir: Path::root(alloc)?,
        name: Text::from_bytes(alloc, b"a")?,
        toolchain: Text::from_bytes(alloc, b"//t:t")?,
    })
}

fn place(alloc: Global) -> Place {
    Place {
        file: Text::new(alloc),
        line: 1,
        column: 1,
    }
}

fn item(alloc: Global, kind: ItemKind, fields: Fields) -> Result<Item, AllocError> {
    Ok(Item {
        kind,
        label: label(alloc)?,
        place: place(alloc),
        fields,
        tools: Tools::new(alloc),
    })
}

fn put_tool(alloc: Global, tools: &mut Tools, name: &str) -> Result<(), AllocError> {
    let name = Text::from_bytes(alloc, name.as_bytes())?;
    let fields = no_fields(alloc)?;
    tools.push(Tool {
        name,
        place: place(alloc),
        fields,
    })
}

fn tools(alloc: Global, names: &str) -> Result<Tools, AllocError> {
    let mut tools = Tools::new(alloc);
    for name in names.split_terminator(',') {
        put_tool(alloc, &mut tools, name)?;
    }
    Ok(tools)
}

fn are_named(names: &[Text], wanted: &str) -> bool {
    let mut wanted = wanted.split_terminator(',');
    for name in names {
        if wanted.next().unwrap_or("").as_bytes() != name.as_bytes() {
            return false;
        }
    }
    wanted.next().is_none()
}

fn are_missing(alloc: Global, item: &Item, row: &str) -> Result<bool, AllocError> {
    let tools = tools(alloc, part(row, 2))?;
    let missing = missing_tools(alloc, item, tools.as_slice())?;
    Ok(are_named(&missing, part(row, 3)))
}

fn told(alloc: Global, kind: ItemKind, row: &str) -> Result<bool, PathError> {
    let fields = with_sources(alloc, paths(alloc, part(row, 1))?)?;
    let item = item(alloc, kind, fields)?;
    Ok(are_missing(alloc, &item, row)?)
}

fn is_told(alloc: Global, row: &str) -> Result<bool, PathError> {
    match ItemKind::named(part(row, 0).as_bytes()) {
        Some(kind) => told(alloc, kind, row),
        None => Ok(false),
    }
}

#[test]
fn missing_tools_are_told(rt: HostRuntime) -> Result<(), Fail> {
    for row in MISSING.split('\n') {
        assert!(rt; is_told(rt.alloc(), row)?, "at {row}");
    }
    Ok(())
}
