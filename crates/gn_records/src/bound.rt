// Which names the texts of a toolchain's tools have.

ghost use Rattle.std.specs.Prelude.{◌≡◌};
ghost use Rattle.std.specs.List.{list_any};
ghost use Rattle.gn_define.specs.Fields.{entries_of};
ghost use Rattle.gn_define.specs.Held.{held_of};
ghost use Rattle.gn_writing.specs.Outputs.{uses};
ghost use Rattle.gn_records.specs.Bound.{held_uses, fields_use, tools_use, bound_names};

use crate::context::BoundNames;
use gn_define::{Entry, Field};
use gn_items::{Tool, Tools};
use gn_substs::{Subst, Substitution};
use gn_writing::uses;

// Whether a substitution stands in one of these texts.
fn texts_use(texts: &[Subst], substitution: Substitution) -> bool
    ensures { result ≡ list_any (uses substitution) texts.now }
{
    for text in texts {
        if uses(text, substitution) {
            return true;
        }
    }
    false
}

// Whether it stands in what a variable holds.
fn field_uses(field: &Field, substitution: Substitution) -> bool
    ensures { result ≡ held_uses substitution (held_of field.now) }
{
    match field {
        Field::Substs(texts) => texts_use(texts.as_slice(), substitution),
        _ => false,
    }
}

// Whether it stands in what one of these variables holds.
fn entries_use(entries: &[Entry], substitution: Substitution) -> bool
    ensures { result ≡ fields_use substitution (entries_of entries.now) }
{
    for entry in entries {
        if field_uses(&entry.field, substitution) {
            return true;
        }
    }
    false
}

// Whether it stands in a text of one of these tools.
fn tools_use(tools: &[Tool], substitution: Substitution) -> bool
    ensures { result ≡ tools_use substitution tools.now }
{
    for tool in tools {
        if entries_use(tool.fields.entries(), substitution) {
            return true;
        }
    }
    false
}

/// The names that the texts of these tools have, each of which a compiled target binds only then. It takes no memory.
pub fn bound_names(tools: &Tools) -> BoundNames
    ensures { result ≡ bound_names tools.now }
{
    let tools = tools.as_slice();
    BoundNames {
        label_no_toolchain: tools_use(tools, Substitution::LabelNoToolchain),
        root_gen_dir: tools_use(tools, Substitution::RootGenDir),
        target_gen_dir: tools_use(tools, Substitution::TargetGenDir),
    }
}
