// Outputs that are made again.

use crate::makers::Makers;
use crate::reading::{label, part};
use gn_labels::Label;
use gn_paths::Text;
use gn_rules::{MadeOutput, repeated_outputs};
use indexmap::IndexMap;
use std::alloc::{AllocError, Global};
use std::test::Fail;

/// On each line targets with what they make, and what is made again.
pub(crate) const AGAIN: &str = "\
a=x,y;b=z|
a=x,y;b=y|b=y
a=x,x;b=z|a=x
a=x,y;b=y,x;c=x,x|b=y,b=x,c=x,c=x
a=;b=x|";

fn texts(alloc: Global, names: &str) -> Result<Vec<Text>, AllocError> {
    let mut texts = Vec::new(alloc);
    for name in names.split_terminator(',') {
        texts.push(Text::from_bytes(alloc, name.as_bytes())?)?;
    }
    Ok(texts)
}

fn put(alloc: Global, makers: &mut Makers, text: &str) -> Result<(), AllocError> {
    let target = label(alloc, part(text, '=', 0))?;
    makers.targets.push(target)?;
    let target = label(alloc, part(text, '=', 0))?;
    let outputs = texts(alloc, part(text, '=', 1))?;
    match makers.outputs.insert(target, outputs) {
        Ok(old) => {
            drop(old);
            Ok(())
        }
        Err(failed) => {
            drop(failed);
            Err(AllocError)
        }
    }
}

fn makers(alloc: Global, graph: &str) -> Result<Makers, AllocError> {
    let mut makers = Makers {
        targets: Vec::new(alloc),
        outputs: IndexMap::new(alloc),
    };
    for text in graph.split(';') {
        put(alloc, &mut makers, text)?;
    }
    Ok(makers)
}

fn is_made(made: &MadeOutput, text: &str) -> bool {
    made.label.name.as_bytes() == part(text, '=', 0).as_bytes()
        && made.output.as_bytes() == part(text, '=', 1).as_bytes()
}

fn are_made(again: &[MadeOutput], texts: &str) -> bool {
    let mut texts = texts.split_terminator(',');
    for made in again {
        match texts.next() {
            None => return false,
            Some(text) => {
                if !is_made(made, text) {
                    return false;
                }
            }
        }
    }
    texts.next().is_none()
}

/// Whether what a line says is made again.
pub(crate) fn repeats(alloc: Global, row: &str) -> Result<bool, Fail> {
    let makers = makers(alloc, part(row, '|', 0))?;
    let found = repeated_outputs(alloc, &makers);
    drop(makers);
    let again = found?;
    let are_made = are_made(&again, part(row, '|', 1));
    drop(again);
    Ok(are_made)
}
