// A tool's text as a Ninja file has it.

ghost use Rattle.std.specs.Prelude.{◌≡◌, ◌++◌, IfOk, OnOk};
ghost use Rattle.std.specs.List.{flat_map};
ghost use Rattle.gn_substs.specs.Variables.{variable_name, variable_of, doubled_with, tool_text};

use crate::names::Substitution;
use crate::pieces::SubstPiece;
use crate::subst::Subst;
use gn_ninja_text::{append_doubled, escape_value};
use gn_paths::Text;
use std::alloc::{AllocError, Global};

impl Substitution {
    // The name of the Ninja variable that stands for the substitution.
    fn variable_name(self) -> &'static [u8]
        ensures { result.now ≡ variable_name self }
    {
        match self {
            Substitution::Source | Substitution::Inputs => b"in",
            Substitution::Output => b"out",
            Substitution::InputsNewline => b"in_newline",
            _ => self.name(),
        }
    }
}

// Puts the variable that stands for a substitution at the end.
fn append_variable(text: &mut Vec<u8>, substitution: Substitution) -> Result<(), AllocError>
    ensures { OnOk result (text.new.items ≡ text.old.items ++ variable_of substitution) }
{
    text.extend_from_slice(b"${")?;
    text.extend_from_slice(substitution.variable_name())?;
    text.push(b'}')?;
    Ok(())
}

// Puts the bytes of pieces, escaped, and the variables of their substitutions at the end.
fn append_pieces(text: &mut Vec<u8>, pieces: &[SubstPiece]) -> Result<(), AllocError>
    ensures { OnOk result (text.new.items ≡ text.old.items ++ flat_map doubled_with pieces.now) }
{
    for piece in pieces {
        append_doubled(text, piece.before.as_bytes())?;
        append_variable(text, piece.substitution)?;
    }
    Ok(())
}

impl Subst {
    /// The text of a tool as a value of a Ninja file: its own bytes escaped, and in place of each substitution the Ninja
    /// variable that stands for it, as `${in}` for the source.
    pub fn tool_text(&self, alloc: Global) -> Result<Text, AllocError>
        ensures { IfOk result (λ t. t ≡ tool_text self.now.pieces self.now.last) }
    {
        let [first, more @ ..] = self.pieces.as_slice() else {
            return escape_value(alloc, self.last.as_bytes());
        };
        let mut text = escape_value(alloc, first.before.as_bytes())?.into_vec();
        append_variable(&mut text, first.substitution)?;
        append_pieces(&mut text, more)?;
        append_doubled(&mut text, self.last.as_bytes())?;
        Ok(Text::from_vec(text))
    }
}
