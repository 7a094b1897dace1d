// The command and the description of an action.

ghost use Rattle.std.specs.Prelude.{◌≡◌, IfOk};
ghost use Rattle.gn_writing.specs.Commands.{action_words, action_command, action_description};

use gn_labels::Label;
use gn_ninja_text::{escape_value, shell_word};
use gn_paths::Text;
use std::alloc::{AllocError, Global};

// The program that runs a script, and the script.
fn action_words(alloc: Global, program: &Text, script: &Text) -> Result<Text, AllocError>
    ensures { IfOk result (λ t. t ≡ action_words program.now script.now) }
{
    let word = shell_word(alloc, script.as_bytes())?;
    let mut text = program.copy(alloc)?;
    text.push(b' ')?;
    text.append(word.as_bytes())?;
    Ok(text)
}

/// The command of an action: the program that runs scripts, which may have options, the script as seen from the build
/// directory as a word of the shell, and the arguments of the run.
pub fn action_command(alloc: Global, program: &Text, script: &Text) -> Result<Text, AllocError>
    ensures { IfOk result (λ t. t ≡ action_command program.now script.now) }
{
    let words = action_words(alloc, program, script)?;
    let mut text = escape_value(alloc, words.as_bytes())?;
    text.append(b" ${args}")?;
    Ok(text)
}

/// The description of an action, `ACTION` and its label as printed.
pub fn action_description(alloc: Global, label: &Label, default: &Text) -> Result<Text, AllocError>
    ensures { IfOk result (λ t. t ≡ action_description default.now label.now) }
{
    let printed = label.print(alloc, default)?;
    let mut text = Text::from_bytes(alloc, b"ACTION ")?;
    text.append(printed.as_bytes())?;
    escape_value(alloc, text.as_bytes())
}
