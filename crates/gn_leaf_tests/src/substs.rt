// Each call once, with ample memory.

use crate::rows::{field, is_shown, number, table};
use gn_paths::{Path, PathError, Text, Texts, resolve};
use gn_substs::{Around, Given, Position, Subst, SubstError};
use std::alloc::{AllocError, Global};
use std::test::Fail;

static POSITIONS: [Position; 12] = [
    Position::NoNames,
    Position::ForeachOutputs,
    Position::ForeachDepfile,
    Position::ForeachArgs,
    Position::CopyOutputs,
    Position::FileTemplate,
    Position::ActionArgs,
    Position::ToolOutputs,
    Position::ToolLinkOutput,
    Position::ToolDependOutput,
    Position::ToolDefaultOutputDir,
    Position::ToolText,
];

// The position of this name.
fn position_named(alloc: Global, name: &str) -> Result<Option<Position>, AllocError> {
    for position in &POSITIONS {
        if is_shown(alloc, *position, name)? {
            return Ok(Some(*position));
        }
    }
    Ok(None)
}

// The texts between the bars.
fn texts(alloc: Global, parted: &str) -> Result<Texts, AllocError> {
    let mut list = Texts::new(alloc);
    for text in parted.split('|') {
        push(alloc, &mut list, text)?;
    }
    Ok(list)
}

fn push(alloc: Global, list: &mut Texts, text: &str) -> Result<(), AllocError> {
    list.push(Text::from_bytes(alloc, text.as_bytes())?)
}

// The texts as those of a position, where it has as many names.
fn given(position: Position, texts: Texts) -> Option<Given> {
    if texts.as_slice().len() == position.names().len() {
        Some(Given::new(position, texts))
    } else {
        None
    }
}

fn copied(alloc: Global, text: &str, position: Position) -> Result<Subst, Fail> {
    let subst = Subst::read(alloc, text.as_bytes(), position)?;
    let copied = subst.copy(alloc);
    drop(subst);
    Ok(copied?)
}

fn becomes(alloc: Global, subst: &Subst, given: &Given, wanted: &str) -> Result<bool, AllocError> {
    let text = subst.expand(alloc, given)?;
    let is_so = text.as_bytes() == wanted.as_bytes();
    drop(text);
    Ok(is_so)
}

/// A position, the texts of its names, parted by bars, a text, and what it becomes.
pub(crate) const EXPANDED: &str = table! {
    "ToolOutputs", "||main||||||.|||||||", "{{output_dir}}/{{source_name_part}}.o", "./main.o";
    "ToolOutputs", "||main||||||.|||||||", "}}a{b}", "}}a{b}";
    "ToolOutputs", "||main||||||.|||||||", "{{source_name_part}}}{{source_dir}}", "main}";
    "CopyOutputs", "s|||||||", "{{source}}}}", "s}}";
};

// Whether a text at a position becomes what is wanted.
fn is_text_so(
    alloc: Global,
    text: &str,
    position: Position,
    given: &Given,
    wanted: &str,
) -> Result<bool, Fail> {
    let subst = copied(alloc, text, position)?;
    let is_so = becomes(alloc, &subst, given, wanted);
    drop(subst);
    Ok(is_so?)
}

fn expands(alloc: Global, row: &str, position: Position) -> Result<bool, Fail> {
    match given(position, texts(alloc, field(row, 1))?) {
        Some(given) => {
            let is_so = is_text_so(alloc, field(row, 2), position, &given, field(row, 3));
            drop(given);
            is_so
        }
        None => Ok(false),
    }
}

/// Whether the text of a row becomes what it expects.
pub(crate) fn is_expanded(alloc: Global, row: &str) -> Result<bool, Fail> {
    match position_named(alloc, field(row, 0))? {
        Some(position) => expands(alloc, row, position),
        None => Ok(false),
    }
}

/// A position, a source, the directory of its target, a text, and what it becomes where the build directory is `//out`
/// and the toolchain's output directory `//out/t`.
pub(crate) const OF_SOURCES: &str = table! {
    "ForeachOutputs", "//a/b.c.d", "//a", "{{source}}|{{source_file_part}}|{{source_name_part}}", "//a/b.c.d|b.c.d|b.c";
    "ForeachOutputs", "//a/b.c.d", "//a", "{{source_dir}}|{{source_root_relative_dir}}|{{source_target_relative}}", "//a|a|b.c.d";
    "ForeachOutputs", "//a/b.c.d", "//a", "{{source_gen_dir}}|{{source_out_dir}}", "//out/t/gen/a|//out/t/obj/a";
    "ForeachArgs", "//a/b.c.d", "//a", "{{source}}|{{source_file_part}}|{{source_name_part}}", "../a/b.c.d|b.c.d|b.c";
    "ForeachArgs", "//a/b.c.d", "//a", "{{source_dir}}|{{source_root_relative_dir}}|{{source_target_relative}}", "../a|a|b.c.d";
    "ForeachArgs", "//a/b.c.d", "//a", "{{source_gen_dir}}|{{source_out_dir}}", "t/gen/a|t/obj/a";
    "ToolOutputs", "//r.x", "//a/b", "{{source}}|{{source_dir}}|{{source_root_relative_dir}}", "../r.x|..|.";
    "ToolOutputs", "//r.x", "//a/b", "{{source_target_relative}}|{{source_gen_dir}}|{{source_out_dir}}", "../../r.x|t/gen|t/obj";
    "ToolOutputs", "//r.x", "//a/b", "{{output_dir}}|{{target_output_name}}|{{label_name}}", "||";
    "ForeachDepfile", "//out/x", "//", "{{source}}|{{source_dir}}|{{source_target_relative}}", "//out/x|//out|out/x";
    "ForeachArgs", "//out/x", "//", "{{source}}|{{source_dir}}|{{source_target_relative}}", "x|.|out/x";
    "CopyOutputs", "/s//a", "//a", "{{source}}|{{source_dir}}|{{source_root_relative_dir}}", "/s//a|/s|/s";
    "CopyOutputs", "/s//a", "//a", "{{source_target_relative}}|{{source_gen_dir}}|{{source_out_dir}}", "/s//a|//out/t/gen/s|//out/t/obj/s";
    "ForeachArgs", "/usr/x", "//a", "{{source}}|{{source_dir}}|{{source_gen_dir}}", "/usr/x|/usr|t/gen/usr";
    "ForeachArgs", "/x", "//a", "{{source_dir}}|{{source_root_relative_dir}}|{{source_out_dir}}", "/|/|t/obj";
    "FileTemplate", "//r.x", "//", "{{source}}|{{source_name_part}}|{{source_dir}}|{{source_root_relative_dir}}", "//r.x|r|//|.";
    "FileTemplate", "//d/a.b.c", "//", "{{source_name_part}}+{{source_file_part}}+{{source_dir}}+{{source_root_relative_dir}}", "a.b+a.b.c+//d+d";
};

fn at_root(alloc: Global, text: &str) -> Result<Path, PathError> {
    let root = Path::root(alloc)?;
    resolve(alloc, &root, text.as_bytes())
}

// What stands for a source at a position.
fn of_source(
    alloc: Global,
    position: Position,
    source: &Path,
    target: &Path,
) -> Result<Given, PathError> {
    let build = at_root(alloc, "//out")?;
    let out = at_root(alloc, "//out/t")?;
    let around = Around {
        target,
        build: &build,
        out: &out,
    };
    Ok(Given::of_source(alloc, position, source, &around)?)
}

fn given_of_row(alloc: Global, row: &str, position: Position) -> Result<Given, PathError> {
    let source = at_root(alloc, field(row, 1))?;
    let target = at_root(alloc, field(row, 2))?;
    of_source(alloc, position, &source, &target)
}

fn stands_for(alloc: Global, row: &str, position: Position) -> Result<bool, Fail> {
    let given = given_of_row(alloc, row, position)?;
    let is_so = is_text_so(alloc, field(row, 3), position, &given, field(row, 4));
    drop(given);
    is_so
}

/// Whether the text of a row becomes what it expects for its source.
pub(crate) fn is_of_source(alloc: Global, row: &str) -> Result<bool, Fail> {
    match position_named(alloc, field(row, 0))? {
        Some(position) => stands_for(alloc, row, position),
        None => Ok(false),
    }
}

/// A text of a tool, and what a Ninja file has for it.
pub(crate) const TOOL_TEXTS: &str = table! {
    " gcc $x {{defines}} {{source}} -o {{output}}", "$ gcc $$x ${defines} ${in} -o ${out}";
    "{{cflags}} a$", "${cflags} a$$";
    " a", "$ a";
    "{{inputs}}{{inputs_newline}}{{label}}", "${in}${in_newline}${label}";
};

/// Whether a Ninja file has what the row expects for its text of a tool.
pub(crate) fn has_variables(alloc: Global, row: &str) -> Result<bool, Fail> {
    let subst = copied(alloc, field(row, 0), Position::ToolText)?;
    let text = subst.tool_text(alloc);
    drop(subst);
    let text = text?;
    let is_so = text.as_bytes() == field(row, 1).as_bytes();
    drop(text);
    Ok(is_so)
}

/// A text, where it stands, and the offset of what is unknown there.
pub(crate) const REFUSED: &str = table! {
    "a{{x}}", "ToolText", 1;
    "{{{{source}}", "ToolText", 0;
    "{{source}}{{ source }}{{x}}", "CopyOutputs", 10;
    "{{source", "CopyOutputs", 0;
    "{{source_target_relative}}", "FileTemplate", 0;
    "{{output_dir}}", "ToolDefaultOutputDir", 0;
    "x {{source}}", "NoNames", 2;
};

fn refuses(alloc: Global, text: &str, position: Position, wanted: usize) -> bool {
    match Subst::read(alloc, text.as_bytes(), position) {
        Err(SubstError::UnknownSubstitution(offset)) => offset == wanted,
        _ => false,
    }
}

/// Whether the text of a row is refused at its offset.
pub(crate) fn is_refused(alloc: Global, row: &str) -> Result<bool, AllocError> {
    match position_named(alloc, field(row, 1))? {
        Some(position) => Ok(refuses(alloc, field(row, 0), position, number(row, 2))),
        None => Ok(false),
    }
}
