// The words of a command line.
ghost use Rattle.std.specs.Prelude.{◌≡◌, ◌∷◌, if◌then◌else◌, Some, None, IfOk, map, option_map, string_bytes};
ghost use Rattle.gn_paths.specs.Resolve.{path_meant};
ghost use Rattle.gn_command_line.specs.Words.{is_switch, switch_taken, switch_read, word_read, words_read, nothing_read, command_named, takes, build_directory, directory_named, ls_of, gen_of, form_of, line_of, line_named, line_said, texts};
ghost use Rattle.gn_command_line.specs.Commands.{options_view, read_view, command_view, line_view};

use crate::switches::{Options, Switch, name_said, value_said};
use gn_paths::{Path, PathFault, path_meant};
use std::alloc::{AllocError, Global};

/// A command by its name.
#[derive(Clone, Copy, Debug, PartialEq, Eq)]
pub(crate) enum CommandName {
    /// `ls`
    Ls,
    /// `gen`
    Gen,
}

/// What a command asks for.
#[derive(Drop)]
pub enum Command<'a> {
    /// The labels of the build with this build directory, of those that a pattern matches, if there is one.
    Ls {
        directory: Path,
        pattern: Option<&'a [u8]>,
    },
    /// The files of the build with this build directory.
    Gen {
        directory: Path,
    },
}

/// What a command line says.
#[derive(Drop)]
pub struct Line<'a> {
    /// What the command asks for.
    pub command: Command<'a>,
    /// What the switches say.
    pub options: Options<'a>,
}

// What was read of the words behind a command: the plain words in order, and the switches.
#[derive(Drop)]
struct Read<'a> {
    plain: Vec<&'a [u8]>,
    options: Options<'a>,
}

impl CommandName {
    // The command of this name.
    #[tactic(auto, unfolding(crate::specs::Words::command_named))]
    fn named(word: &[u8]) -> Option<CommandName>
        ensures { result ≡ command_named word.now }
    {
        if word == b"ls".as_slice() {
            Some(CommandName::Ls)
        } else if word == b"gen".as_slice() {
            Some(CommandName::Gen)
        } else {
            None
        }
    }

    // Whether the command takes a switch.
    #[tactic(auto, unfolding(crate::specs::Words::takes))]
    fn takes(self, switch: Switch) -> bool
        ensures { result ≡ takes self switch }
    {
        match (self, switch) {
            (CommandName::Ls, Switch::Threads) => true,
            (CommandName::Ls, Switch::Arguments) => true,
            (CommandName::Gen, Switch::Threads) => true,
            (CommandName::Gen, Switch::Arguments) => true,
        }
    }

    // These options with the switch of a name and its value, if the command takes it and it can have that value.
    fn with_switch<'a>(
        self,
        switch: Option<Switch>,
        value: Option<&'a [u8]>,
        options: Options<'a>,
    ) -> Option<Options<'a>>
        ensures { option_map options_view result ≡ switch_taken self switch (option_map (λ t. t.now) value.entry) (options_view options.entry) }
    {
        let switch = switch?;
        if self.takes(switch) {
            switch.put(value, options)
        } else {
            None
        }
    }
}

// Whether a word is a switch.
fn is_switch(word: &[u8]) -> bool
    ensures { result ≡ is_switch word.now }
{
    word.starts_with(b"--")
}

// Puts a switch among what was read, if the command takes it.
fn read_switch<'a>(command: CommandName, said: &'a [u8], read: &mut Read<'a>) -> bool
    ensures { (if result then Some (read_view read.new) else None) ≡ switch_read command said.now (read_view read.old) }
{
    let switch = Switch::named(name_said(said));
    match command.with_switch(switch, value_said(said), read.options) {
        Some(options) => {
            read.options = options;
            true
        }
        None => false,
    }
}

// Puts a word among what was read, if it is a plain one or a switch that the command takes.
fn read_word<'a>(
    command: CommandName,
    word: &'a [u8],
    read: &mut Read<'a>,
) -> Result<bool, AllocError>
    ensures { IfOk result (λ done. (if done then Some (read_view read.new) else None) ≡ word_read command word.now (read_view read.old)) }
{
    if is_switch(word) {
        return Ok(read_switch(command, &word[2..], read));
    }
    read.plain.push(word)?;
    Ok(true)
}

// The same of all words behind the command.
fn read_all<'a>(
    command: CommandName,
    words: &'a [String],
    read: &mut Read<'a>,
) -> Result<bool, AllocError>
    ensures { IfOk result (λ done. (if done then Some (read_view read.new) else None) ≡ words_read command (texts words.entry.now) (read_view read.old)) }
{
    for word in words {
        if !read_word(command, word.as_bytes(), read)? {
            return Ok(false);
        }
    }
    Ok(true)
}

// The build directory that a path is, or None for a system path and for the source root.
fn build_directory(alloc: Global, path: Result<Path, PathFault>) -> Result<Option<Path>, AllocError>
    ensures { IfOk result (λ found. found ≡ build_directory path) }
{
    let Ok(path) = path else {
        return Ok(None);
    };
    if path.is_system() {
        return Ok(None);
    }
    let directory = path.to_directory(alloc)?;
    if directory.as_bytes() == b"//".as_slice() {
        Ok(None)
    } else {
        Ok(Some(directory))
    }
}

// The build directory that a word names.
fn directory_named(alloc: Global, word: &[u8]) -> Result<Option<Path>, AllocError>
    ensures { IfOk result (λ found. found ≡ directory_named word.now) }
{
    let path = path_meant(alloc, &Path::root(alloc)?, word)?;
    build_directory(alloc, path)
}

// `ls DIR [PATTERN]`
fn ls_of<'a>(
    alloc: Global,
    directory: &[u8],
    pattern: Option<&'a [u8]>,
) -> Result<Option<Command<'a>>, AllocError>
    ensures { IfOk result (λ c. option_map command_view c ≡ ls_of (directory_named directory.now) (option_map (λ t. t.now) pattern.entry)) }
{
    match directory_named(alloc, directory)? {
        Some(directory) => Ok(Some(Command::Ls { directory, pattern })),
        None => Ok(None),
    }
}

// `gen DIR`
fn gen_of<'a>(alloc: Global, directory: &'a [u8]) -> Result<Option<Command<'a>>, AllocError>
    ensures { IfOk result (λ c. option_map command_view c ≡ gen_of (directory_named directory.now)) }
{
    match directory_named(alloc, directory)? {
        Some(directory) => Ok(Some(Command::Gen { directory })),
        None => Ok(None),
    }
}

// What a command asks for with these plain words behind it, or None where they have no form of it.
#[tactic(auto, unfolding(crate::specs::Words::form_of))]
fn form_of<'a>(
    alloc: Global,
    command: CommandName,
    plain: &[&'a [u8]],
) -> Result<Option<Command<'a>>, AllocError>
    ensures { IfOk result (λ c. option_map command_view c ≡ form_of command (map (λ w. w.now) plain.now)) }
{
    match command {
        CommandName::Ls => match plain {
            [directory] => ls_of(alloc, *directory, None),
            [directory, pattern] => ls_of(alloc, *directory, Some(*pattern)),
            _ => Ok(None),
        },
        CommandName::Gen => match plain {
            [directory] => gen_of(alloc, *directory),
            _ => Ok(None),
        },
    }
}

// What a line says of which this was read.
fn line_of<'a>(
    alloc: Global,
    command: CommandName,
    read: &Read<'a>,
) -> Result<Option<Line<'a>>, AllocError>
    ensures { IfOk result (λ line. option_map line_view line ≡ line_of command (Some (read_view read.now))) }
{
    match form_of(alloc, command, &read.plain)? {
        Some(form) => Ok(Some(Line {
            command: form,
            options: read.options,
        })),
        None => Ok(None),
    }
}

// What a line says whose command has this name.
fn line_named<'a>(
    alloc: Global,
    command: CommandName,
    words: &'a [String],
) -> Result<Option<Line<'a>>, AllocError>
    ensures { IfOk result (λ line. option_map line_view line ≡ line_named (Some command) (texts words.entry.now)) }
{
    let mut read = Read {
        plain: Vec::new(alloc),
        options: Options {
            threads: None,
            arguments: None,
        },
    };
    if read_all(command, words, &mut read)? {
        line_of(alloc, command, &read)
    } else {
        Ok(None)
    }
}

/// What these words say, or None where they have no form. A word that begins with `--` behind the command is a switch, wherever
/// it stands.
#[tactic(auto, unfolding(crate::specs::Words::line_said))]
pub fn read_words(alloc: Global, words: &[String]) -> Result<Option<Line<'_>>, AllocError>
    ensures { IfOk result (λ line. option_map line_view line ≡ line_said (texts words.entry.now)) }
{
    let Some((word, rest)) = words.split_first() else {
        return Ok(None);
    };
    match CommandName::named(word.as_bytes()) {
        Some(command) => line_named(alloc, command, rest),
        None => Ok(None),
    }
}
