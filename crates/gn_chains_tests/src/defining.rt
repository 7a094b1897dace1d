// Items as executions define them, which texts describe as they do those of graphs. `&` separates executions.

use crate::reading::{kind_named, label, part, patterns, push_all};
use gn_define::{Entry, Field, Fields};
use gn_items::{Item, Tools};
use gn_labels::Label;
use gn_paths::{Place, Text};
use gn_rows::Variable;
use std::alloc::{AllocError, Global};
use std::test::Fail;

fn variable_named(name: &str) -> Variable {
    match name {
        "testonly" => Variable::Testonly,
        "visibility" => Variable::Visibility,
        "assert_no_deps" => Variable::AssertNoDeps,
        "public_deps" => Variable::PublicDeps,
        "deps" => Variable::Deps,
        "data_deps" => Variable::DataDeps,
        "all_dependent_configs" => Variable::AllDependentConfigs,
        "public_configs" => Variable::PublicConfigs,
        "pool" => Variable::Pool,
        _ => Variable::Configs,
    }
}

fn labels(alloc: Global, names: &str) -> Result<Vec<Label>, AllocError> {
    let mut labels = Vec::new(alloc);
    push_all(alloc, &mut labels, names)?;
    Ok(labels)
}

fn field(alloc: Global, variable: Variable, names: &str) -> Result<Field, Fail> {
    match variable {
        Variable::Testonly => Ok(Field::Boolean(true)),
        Variable::Visibility | Variable::AssertNoDeps => {
            Ok(Field::Patterns(patterns(alloc, names)?))
        }
        _ => Ok(Field::Labels(labels(alloc, names)?)),
    }
}

fn push_entry(alloc: Global, entries: &mut Vec<Entry>, list: &str) -> Result<(), Fail> {
    let variable = variable_named(part(list, '=', 0));
    let field = field(alloc, variable, part(list, '=', 1))?;
    entries.push(Entry { variable, field })?;
    Ok(())
}

fn fields(alloc: Global, text: &str) -> Result<Fields, Fail> {
    let mut entries = Vec::new(alloc);
    for list in text.split(' ').skip(2) {
        push_entry(alloc, &mut entries, list)?;
    }
    Ok(Fields::from_vec(alloc, entries)?)
}

fn first_place(alloc: Global) -> Result<Place, AllocError> {
    Ok(Place {
        file: Text::from_bytes(alloc, b"//BUILD.gn")?,
        line: 1,
        column: 1,
    })
}

fn item(alloc: Global, text: &str) -> Result<Item, Fail> {
    let label = label(alloc, part(text, ' ', 0))?;
    let place = first_place(alloc)?;
    let fields = fields(alloc, text)?;
    Ok(Item {
        kind: kind_named(part(text, ' ', 1)),
        label,
        place,
        fields,
        tools: Tools::new(alloc),
    })
}

fn push_item(alloc: Global, items: &mut Vec<Item>, text: &str) -> Result<(), Fail> {
    let item = item(alloc, text)?;
    items.push(item)?;
    Ok(())
}

fn items(alloc: Global, texts: &str) -> Result<Vec<Item>, Fail> {
    let mut items = Vec::new(alloc);
    for text in texts.split(';') {
        push_item(alloc, &mut items, text)?;
    }
    Ok(items)
}

fn push_execution(alloc: Global, executions: &mut Vec<Vec<Item>>, texts: &str) -> Result<(), Fail> {
    let items = items(alloc, texts)?;
    executions.push(items)?;
    Ok(())
}

/// The items of each of the executions that a text describes.
pub(crate) fn executions(alloc: Global, text: &str) -> Result<Vec<Vec<Item>>, Fail> {
    let mut executions = Vec::new(alloc);
    for texts in text.split('&') {
        push_execution(alloc, &mut executions, texts)?;
    }
    Ok(executions)
}
