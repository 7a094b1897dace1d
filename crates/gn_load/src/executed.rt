// Build files that were read ahead are executed by several threads.

ghost use Rattle.std.specs.Prelude.{◌≡◌, ◌++◌, ◌∷◌, [], IfOk, IfSome, OnOk};
ghost use Rattle.gn_outside.specs.Lists.{Each};
ghost use Rattle.gn_closure.specs.Reach.{Load};
ghost use Rattle.gn_core.specs.Keys.{Unit_of, Filed as Answers};
ghost use Rattle.gn_book.specs.Keys.{key_of};
ghost use Rattle.gn_prepared.specs.Prepared.{ArePrepared};
ghost use Rattle.gn_load.specs.Current.{base_now};
ghost use Rattle.gn_load.specs.Rounds.{IsWanted, WillBeRight};
ghost use Rattle.gn_load.specs.Executed.{IsExecutedOver, IsReadyOf, PutsReady, AddsReady, TakesLast};
ghost use Rattle.gn_load.specs.declared.current.CurrentBase.{CurrentBase};

use crate::found::Found;
use crate::ready::Ready;
use gn_answers::Filed;
use gn_book::KeyId;
use gn_items::Key;
use gn_paths::{Path, Text};
use gn_prepared::{Wanted, contents_are_included};
use std::alloc::{AllocError, Global};
use std::collections::VecDeque;

// The directory and the toolchain of the key of a build file.
fn names_of(key: Key) -> Option<(Path, Text)>
    ensures { IfSome result (λ names. key_of key ≡ Unit_of (Load names.0 names.1)) }
{
    match key {
        Key::Load(directory, toolchain) => Some((directory, toolchain)),
        Key::Setup(_) => None,
        Key::Read(_) => None,
        Key::Import(..) => None,
        Key::Resolve(_) => None,
    }
}

// What a build file leaves that was executed ahead.
fn ready_of(number: KeyId, wanted: Wanted, answer: Filed) -> Option<Ready>
    ensures { IfSome result (IsReadyOf wanted answer) }
{
    let Wanted { key, path, content } = wanted;
    match names_of(key) {
        Some(names) => {
            let (directory, toolchain) = names;
            Some(Ready {
                number,
                directory,
                toolchain,
                file: Key::Read(path),
                content,
                answer,
            })
        }
        None => {
            drop(path);
            drop(content);
            drop(answer);
            None
        }
    }
}

// One more in front, if there is one.
fn put_ready(all: &mut VecDeque<Ready>, ready: Option<Ready>) -> Result<(), AllocError>
    ensures { OnOk result (PutsReady all.old.items all.new.items ready) }
{
    match ready {
        Some(ready) => Ok(all.push_front(ready)?),
        None => Ok(()),
    }
}

// What the last that was wanted leaves, in front, if it leaves something.
fn add_ready(
    all: &mut VecDeque<Ready>,
    last: (KeyId, (Wanted, Option<Filed>)),
) -> Result<(), AllocError>
    ensures { OnOk result (AddsReady all.old.items all.new.items last.1.0 last.1.1) }
{
    let (number, (wanted, answer)) = last;
    match answer {
        Some(answer) => put_ready(all, ready_of(number, wanted, answer)),
        None => {
            drop(wanted);
            Ok(())
        }
    }
}

// What was wanted, with its number, beside the last of the answers.
fn beside_answer(
    number: KeyId,
    wanted: Wanted,
    answers: &mut Vec<Option<Filed>>,
) -> Option<(KeyId, (Wanted, Option<Filed>))>
    ensures { IfSome result (λ last. (last.1.0 ≡ wanted) × (answers.old.items ≡ answers.new.items ++ last.1.1 ∷ [])) }
{
    match answers.pop() {
        Some(answer) => Some((number, (wanted, answer))),
        None => {
            drop(wanted);
            None
        }
    }
}

// The last that is wanted, with its number and its answer.
fn take_last(
    found: &mut Found,
    answers: &mut Vec<Option<Filed>>,
) -> Option<(KeyId, (Wanted, Option<Filed>))>
    ensures { TakesLast found.old.wanted.items found.new.wanted.items answers.old.items answers.new.items result }
{
    match found.numbers.pop() {
        Some(number) => match found.wanted.pop() {
            Some(wanted) => beside_answer(number, wanted, answers),
            None => None,
        },
        None => None,
    }
}

/// What build files leave that were executed ahead over a part of what is filed.
pub(crate) fn all_ready(
    alloc: Global,
    found: Found,
    answers: Vec<Option<Filed>>,
) -> Result<VecDeque<Ready>, AllocError>
    ensures { IfOk result (λ all. (b : CurrentBase) (part filed : Answers) → IsExecutedOver b part filed → Each (IsWanted b) found.wanted.items →
        ArePrepared (base_now b) part found.wanted.items answers.items → Each (WillBeRight b.start filed) all.items) }
{
    contents_are_included();
    let mut found = found;
    let mut answers = answers;
    let mut all = VecDeque::new(alloc);
    'files: while let Some(last) = take_last(&mut found, &mut answers) {
        add_ready(&mut all, last)?;
    }
    Ok(all)
}
