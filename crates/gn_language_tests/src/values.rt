// Sums that keep both sides: the call on values that the evaluator, which has its left side to itself, doesn't make.

use gn_paths::Text;
use gn_values::{Items, Value, add, print_text};
use std::alloc::Global;
use std::test::Fail;

// A list of one number.
fn list(alloc: Global, number: i64) -> Result<Value, Fail> {
    let mut items = Items::new(alloc);
    items.push(Value::Int(number))?;
    Ok(Value::List(items))
}

// Whether a sum has this text.
fn is_sum(alloc: Global, left: &Value, right: &Value, text: &[u8]) -> Result<bool, Fail> {
    let sum = add(alloc, left, right)?;
    let printed = print_text(alloc, &sum, false)?;
    Ok(printed.as_bytes() == text)
}

fn integers_add(alloc: Global) -> Result<bool, Fail> {
    is_sum(alloc, &Value::Int(1), &Value::Int(2), b"3")
}

fn texts_add(alloc: Global) -> Result<bool, Fail> {
    let letter = Value::Str(Text::from_bytes(alloc, b"a")?);
    is_sum(alloc, &letter, &Value::Int(1), b"a1")
}

fn lists_add(alloc: Global) -> Result<bool, Fail> {
    let left = list(alloc, 1)?;
    let right = list(alloc, 2)?;
    is_sum(alloc, &left, &right, b"[1, 2]")
}

#[test]
fn sums_keep_both_sides(rt: HostRuntime) -> Result<(), Fail> {
    assert!(rt; integers_add(rt.alloc())?);
    assert!(rt; texts_add(rt.alloc())?);
    assert!(rt; lists_add(rt.alloc())?);
    Ok(())
}
