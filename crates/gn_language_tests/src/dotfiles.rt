// Dotfiles, and build arguments. The expected texts of faults stand in docs/OUTPUT.md.

use gn_paths::{Path, Text, Texts, resolve};
use gn_unit::{Dotfile, UnitEnd, arguments, dotfile};
use gn_values::{Overrides, print_text};
use std::alloc::{AllocError, Global};
use std::test::Fail;

// A file, and what it says: its lines and what its names say, or its first fault.
macro_rules! says {
    ($($file:literal => $text:literal;)+) => {
        concat!($($file, "\x1c", $text, "\x1e"),+)
    };
}

const DOTFILES: &str = says! {
    "buildconfig = \"//build/c.gn\"" => "//build/c.gn python3\n";
    "buildconfig = \"c.gn\"\nscript_executable = \"sh\"\nsecondary_source = \"//s/t/\"" => "//c.gn sh //s/t\n";
    "default_args = {\n  b = 1\n  a = \"x\"\n}\nbuildconfig = \"//c.gn\"\nother = 1" => "//c.gn python3\na = \"x\"\nb = 1\n";
    "print(host_os, host_cpu, target_os)\nprint(root_build_dir, target_gen_dir)\nbuildconfig = \"//c.gn\""
        => "linux x64 \n//out //out/gen\n//c.gn python3\n";
    "template(\"t\") {\n  print(target_name)\n}\nt(\"n\") {\n}\nbuildconfig = \"//c.gn\"" => "n\n//c.gn python3\n";
    "" => "ERROR at //.gn:1:1: \"buildconfig\" is missing.\n";
    "x = = 1" => "ERROR at //.gn:1:5: Unexpected token.\n";
    "\nx = y" => "ERROR at //.gn:2:5: Undefined identifier \"y\".\n";
    "buildconfig = 1" => "ERROR at //.gn:1:1: Wrong type for \"buildconfig\".\n";
    "buildconfig = \"//..\"" => "ERROR at //.gn:1:1: Path is above the source root.\n";
    "buildconfig = \"/c.gn\"" => "ERROR at //.gn:1:1: Invalid path.\n";
    "buildconfig = \"//$0xFF\"" => "ERROR at //.gn:1:1: Invalid path.\n";
    "buildconfig = \"//c.gn\"\nsecondary_source = \"../$0xFF\"" => "ERROR at //.gn:1:1: Invalid path.\n";
    "arg_file_template = 1\nbuild_file_extension = 1\nroot = 1" => "ERROR at //.gn:1:1: \"root\" is not in this profile.\n";
    "arg_file_template = 1\nbuild_file_extension = 1" => "ERROR at //.gn:1:1: \"build_file_extension\" is not in this profile.\n";
    "arg_file_template = 1" => "ERROR at //.gn:1:1: \"arg_file_template\" is not in this profile.\n";
    "default_args = 1\nsecondary_source = 1" => "ERROR at //.gn:1:1: \"buildconfig\" is missing.\n";
    "buildconfig = \"//c.gn\"\nsecondary_source = 1\ndefault_args = 1" => "ERROR at //.gn:1:1: Wrong type for \"default_args\".\n";
    "buildconfig = \"//c.gn\"\nscript_executable = 1\nsecondary_source = 1"
        => "ERROR at //.gn:1:1: Wrong type for \"secondary_source\".\n";
    "buildconfig = \"//c.gn\"\nscript_executable = 1" => "ERROR at //.gn:1:1: Wrong type for \"script_executable\".\n";
    "import(\"//a.gni\")" => "ERROR at //.gn:1:1: \"import\" is not allowed here.\n";
    "declare_args() {\n}" => "ERROR at //.gn:1:1: \"declare_args\" is not allowed here.\n";
    "group(\"g\") {\n}" => "ERROR at //.gn:1:1: \"group\" is not allowed here.\n";
    "set_default_toolchain(\"//t:t\")" => "ERROR at //.gn:1:1: \"set_default_toolchain\" is not allowed here.\n";
};

const ARGUMENTS: &str = says! {
    "" => "";
    "b = 1\na = [ \"x\" ]\nprint(a, host_os)" => "[\"x\"] linux\na = [\"x\"]\nb = 1\n";
    "a = 1\nif (true) {\n  b = 2\n  print(b)\n}" => "2\na = 1\nb = 2\n";
    "a = 1 b =" => "ERROR at --args:1:10: Unexpected token.\n";
    "import(\"//a.gni\")" => "ERROR at --args:1:1: \"import\" is not allowed here.\n";
    "declare_args() {\n}" => "ERROR at --args:1:1: \"declare_args\" is not allowed here.\n";
};

// The lines that were printed.
fn append_lines(text: &mut Text, lines: &Texts) -> Result<(), AllocError> {
    for line in lines.as_slice() {
        text.append(line.as_bytes())?;
    }
    Ok(())
}

// Each argument with its value, one a line.
fn append_arguments(alloc: Global, text: &mut Text, given: &Overrides) -> Result<(), AllocError> {
    for entry in given.as_slice() {
        text.append(entry.name.as_bytes())?;
        text.append(b" = ")?;
        text.append(print_text(alloc, &entry.value, true)?.as_bytes())?;
        text.push(b'\n')?;
    }
    Ok(())
}

// What a dotfile says.
fn dotfile_text(alloc: Global, said: &Dotfile) -> Result<Text, AllocError> {
    let mut text = Text::new(alloc);
    append_lines(&mut text, &said.prints)?;
    text.append(said.configuration.as_text().as_bytes())?;
    text.push(b' ')?;
    text.append(said.executable.as_bytes())?;
    if let Some(path) = &said.secondary {
        text.push(b' ')?;
        text.append(path.as_text().as_bytes())?;
    }
    text.push(b'\n')?;
    append_arguments(alloc, &mut text, &said.arguments)?;
    Ok(text)
}

// What build arguments say.
fn arguments_text(alloc: Global, given: &Overrides, prints: &Texts) -> Result<Text, AllocError> {
    let mut text = Text::new(alloc);
    append_lines(&mut text, prints)?;
    append_arguments(alloc, &mut text, given)?;
    Ok(text)
}

// The text with which a file ends that says nothing.
fn end_text(alloc: Global, end: &UnitEnd) -> Result<Text, AllocError> {
    match end {
        UnitEnd::Wrong(fault) => fault.print(alloc),
        UnitEnd::Memory => Err(AllocError),
    }
}

// What the host and the build directory of all rows are called.
#[derive(Drop)]
struct Names {
    build: Path,
    os: Text,
    cpu: Text,
    root: Text,
}

fn given_names(alloc: Global) -> Result<Names, Fail> {
    let build = resolve(alloc, &Path::root(alloc)?, b"//out")?;
    Ok(Names {
        build,
        os: Text::from_bytes(alloc, b"linux")?,
        cpu: Text::from_bytes(alloc, b"x64")?,
        root: Text::from_bytes(alloc, b"/src")?,
    })
}

// What the bytes of a dotfile say.
fn run_dotfile(alloc: Global, bytes: &[u8], with: &Names) -> Result<Text, AllocError> {
    if bytes.len() > 16_777_216 {
        return Ok(Text::new(alloc));
    }
    match dotfile(alloc, bytes, &with.build, &with.os, &with.cpu, &with.root) {
        Ok(said) => {
            let text = dotfile_text(alloc, &said);
            drop(said);
            text
        }
        Err(end) => {
            let text = end_text(alloc, &end);
            drop(end);
            text
        }
    }
}

// What the bytes of build arguments say.
fn run_arguments(
    alloc: Global,
    file: &Text,
    bytes: &[u8],
    with: &Names,
) -> Result<Text, AllocError> {
    if bytes.len() > 16_777_216 {
        return Ok(Text::new(alloc));
    }
    match arguments(
        alloc,
        file,
        bytes,
        &with.build,
        &with.os,
        &with.cpu,
        &with.root,
    ) {
        Ok((given, prints)) => {
            let text = arguments_text(alloc, &given, &prints);
            drop((given, prints));
            text
        }
        Err(end) => {
            let text = end_text(alloc, &end);
            drop(end);
            text
        }
    }
}

// What the bytes of a dotfile say, over the names of all rows.
fn dotfile_says(alloc: Global, bytes: &[u8]) -> Result<Text, Fail> {
    let with = given_names(alloc)?;
    let text = run_dotfile(alloc, bytes, &with);
    drop(with);
    Ok(text?)
}

// What the bytes of build arguments say, over the names of all rows.
fn arguments_say(alloc: Global, bytes: &[u8]) -> Result<Text, Fail> {
    let with = given_names(alloc)?;
    let text = match Text::from_bytes(alloc, b"--args") {
        Ok(file) => run_arguments(alloc, &file, bytes, &with),
        Err(error) => Err(error),
    };
    drop(with);
    Ok(text?)
}

// Whether the dotfile of a row says what the row has.
fn dotfile_holds(alloc: Global, row: &str) -> Result<bool, Fail> {
    match row.split_once('\x1c') {
        Some((file, text)) => {
            let said = dotfile_says(alloc, file.as_bytes())?;
            Ok(said.as_bytes() == text.as_bytes())
        }
        None => Ok(false),
    }
}

// Whether the build arguments of a row say what the row has.
fn arguments_hold(alloc: Global, row: &str) -> Result<bool, Fail> {
    match row.split_once('\x1c') {
        Some((file, text)) => {
            let said = arguments_say(alloc, file.as_bytes())?;
            Ok(said.as_bytes() == text.as_bytes())
        }
        None => Ok(false),
    }
}

#[test]
fn dotfiles_say_what_their_names_say(rt: HostRuntime) -> Result<(), Fail> {
    for row in DOTFILES.split_terminator('\x1e') {
        assert!(rt; dotfile_holds(rt.alloc(), row)?, "at {row}");
    }
    Ok(())
}

#[test]
fn build_arguments_are_the_names_that_are_set(rt: HostRuntime) -> Result<(), Fail> {
    for row in ARGUMENTS.split_terminator('\x1e') {
        assert!(rt; arguments_hold(rt.alloc(), row)?, "at {row}");
    }
    Ok(())
}
