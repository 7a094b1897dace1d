// Scopes and environments by themselves: the calls that the program doesn't make, or never to their good end.

use gn_definitions::MadeBy;
use gn_env::Env;
use gn_environment::Context;
use gn_faults::{FileKind, Stage};
use gn_paths::{Path, Text};
use gn_scopes::{ScopeError, Scopes};
use gn_text::Names;
use gn_tree::{AssignOp, Position};
use gn_values::{Overrides, Value};
use std::alloc::{AllocError, Global};
use std::sync::Arc;
use std::test::Fail;

// Scopes of which the innermost is checked and has the name with this number as 7.
fn with_seven(alloc: Global, name: usize) -> Result<Scopes, Fail> {
    let mut scopes = Scopes::new(alloc, false);
    scopes.enter(true)?;
    let position = Position { line: 1, column: 2 };
    scopes.set(alloc, name, AssignOp::Set, Value::Int(7), position)?;
    Ok(scopes)
}

// The integer that a read of a name gives. -1 is none.
fn read(scopes: &mut Scopes, name: usize) -> i64 {
    match scopes.get(name) {
        Some(Value::Int(number)) => *number,
        _ => -1,
    }
}

// The number of the name that the end of the innermost scope reports; another refusal has the greatest number.
fn reported(scopes: &mut Scopes) -> Option<usize> {
    match scopes.leave() {
        Err(ScopeError::NoEffect(name, _position)) => Some(name),
        Err(_error) => Some(usize::MAX),
        Ok(_layer) => None,
    }
}

// The numbers of two names.
fn numbers(alloc: Global) -> Result<(usize, usize), AllocError> {
    let mut names = Names::new(alloc);
    let other = names.intern(b"y")?;
    let name = names.intern(b"x")?;
    Ok((other, name))
}

// Whether a name that nothing reads is reported.
fn unread_is_reported(alloc: Global, name: usize) -> Result<bool, Fail> {
    let mut scopes = with_seven(alloc, name)?;
    Ok(reported(&mut scopes) == Some(1))
}

// Whether a name that is read has its value, another one has none, and then none is reported.
fn read_is_not_reported(alloc: Global, name: usize, other: usize) -> Result<bool, Fail> {
    let mut scopes = with_seven(alloc, name)?;
    Ok(
        read(&mut scopes, other) == -1
            && read(&mut scopes, name) == 7
            && reported(&mut scopes).is_none(),
    )
}

#[test]
fn scopes_report_what_nothing_reads(rt: HostRuntime) -> Result<(), Fail> {
    let (other, name) = numbers(rt.alloc())?;
    assert!(rt; unread_is_reported(rt.alloc(), name)?);
    assert!(rt; read_is_not_reported(rt.alloc(), name, other)?);
    Ok(())
}

fn context(alloc: Global) -> Result<Context, AllocError> {
    let build_directory = Path::root(alloc)?;
    Ok(Context {
        stage: Stage::Loading,
        toolchain: Text::new(alloc),
        fault_toolchain: Text::new(alloc),
        default_toolchain: Text::new(alloc),
        build_directory,
        source_root: Text::new(alloc),
        overrides: Overrides::new(alloc),
    })
}

fn environment(alloc: Global) -> Result<Env, AllocError> {
    Ok(Env::new(
        alloc,
        Arc::new(alloc, context(alloc)?)?,
        FileKind::BuildFile,
        Text::from_bytes(alloc, b"//BUILD.gn")?,
        Path::root(alloc)?,
        Text::new(alloc),
        false,
        Vec::new(alloc),
        MadeBy::new(alloc),
    ))
}

// What `+= 2` leaves of a name that has 5 behind the scopes. -1 is no integer.
fn add_over_five(alloc: Global, env: &mut Env) -> Result<i64, Fail> {
    let name = Text::from_bytes(alloc, b"x")?;
    let position = Position { line: 1, column: 3 };
    let (five, two) = (Value::Int(5), Value::Int(2));
    env.assign_over(alloc, &five, &name, AssignOp::Add, two, position)?;
    match env.look(&name) {
        Some(Value::Int(number)) => Ok(*number),
        _ => Ok(-1),
    }
}

fn added_over_five(alloc: Global) -> Result<i64, Fail> {
    let mut env = environment(alloc)?;
    add_over_five(alloc, &mut env)
}

#[test]
fn an_assignment_is_over_what_is_given(rt: HostRuntime) -> Result<(), Fail> {
    assert!(rt; added_over_five(rt.alloc())? == 7);
    Ok(())
}
