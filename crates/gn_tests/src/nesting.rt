// How deep files and values nest.

ghost use Rattle.std.specs.Prelude.{◌≤◌};

use crate::runs::file_says;
use std::alloc::{AllocError, Global};
use std::test::Fail;
use std::thread::Threads;

// 200 brackets, each the leftmost operand of as many operators as the limit on nesting leaves.
fn nested_sums(alloc: Global) -> Result<String, AllocError> {
    let mut file = String::from_str(alloc, "x = ")?;
    push_times(&mut file, "(", 200)?;
    file.push_str("1")?;
    for operators in 0..200 {
        push_times(&mut file, " + 1", operators)?;
        file.push_str(")")?;
    }
    file.push_str("\nprint(x)")?;
    Ok(file)
}

// Puts a text at the end so many times.
fn push_times(file: &mut String, text: &str, times: usize) -> Result<(), AllocError> {
    for _ in 0..times {
        file.push_str(text)?;
    }
    Ok(())
}

// 200 lists, each the only item of the one around it, between two texts.
fn nested_lists(alloc: Global, before: &str, behind: &str) -> Result<String, AllocError> {
    let mut file = String::from_str(alloc, before)?;
    push_times(&mut file, "[", 200)?;
    push_times(&mut file, "]", 200)?;
    file.push_str(behind)?;
    Ok(file)
}

// So many scopes, each the only entry of the next, and whether the last one has its entry.
fn nested_scopes(alloc: Global, count: u32) -> Result<String, AllocError> {
    let mut file = String::from_str(alloc, "x0 = { }\n")?;
    for number in 1..count {
        push_scope(alloc, &mut file, number)?;
    }
    Ok(file)
}

fn push_scope(alloc: Global, file: &mut String, number: u32) -> Result<(), AllocError>
    requires { 1 ≤ number }
{
    let line = format!(in alloc; "x{number} = {{ a = x{} }}\n", number - 1)?;
    file.push_str(line.as_str())
}

// So many templates, each of which calls the one before it in its body, but the first, whose body is given.
fn called_templates(alloc: Global, body: &str, count: u32) -> Result<String, AllocError> {
    let mut file = String::from_str(alloc, "template(\"t0\") {\n  ")?;
    file.push_str(body)?;
    file.push_str("\n}\n")?;
    for number in 1..count {
        push_template(alloc, &mut file, number)?;
    }
    Ok(file)
}

fn push_template(alloc: Global, file: &mut String, number: u32) -> Result<(), AllocError>
    requires { 1 ≤ number }
{
    let before = number - 1;
    let text = format!(in alloc; "template(\"t{number}\") {{\n  t{before}(\"x\") {{\n  }}\n}}\n")?;
    file.push_str(text.as_str())
}

// Whether a file with so many templates that call one another, the first of which has this body, ends so.
fn templates_say<R: Threads + Sync>(
    rt: &R,
    alloc: Global,
    body: &str,
    count: u32,
    behind: &str,
    end: &str,
) -> Result<bool, AllocError> {
    let mut file = called_templates(alloc, body, count)?;
    file.push_str(behind)?;
    file_says(rt, alloc, file.as_bytes(), end)
}

// Whether a file with 200 scopes in one another ends so.
fn scopes_say<R: Threads + Sync>(
    rt: &R,
    alloc: Global,
    behind: &str,
    end: &str,
) -> Result<bool, AllocError> {
    let mut file = nested_scopes(alloc, 200)?;
    file.push_str(behind)?;
    file_says(rt, alloc, file.as_bytes(), end)
}

fn sums_say<R: Threads + Sync>(rt: &R, alloc: Global, end: &str) -> Result<bool, AllocError> {
    let file = nested_sums(alloc)?;
    file_says(rt, alloc, file.as_bytes(), end)
}

// Whether a file with 200 nested lists between two texts ends so.
fn lists_say<R: Threads + Sync>(
    rt: &R,
    alloc: Global,
    before: &str,
    behind: &str,
    end: &str,
) -> Result<bool, AllocError> {
    let file = nested_lists(alloc, before, behind)?;
    file_says(rt, alloc, file.as_bytes(), end)
}

// Whether 200 nested lists are printed as they stand.
fn lists_are_printed<R: Threads + Sync>(rt: &R, alloc: Global) -> Result<bool, AllocError> {
    let end = nested_lists(alloc, "0", "\n")?;
    lists_say(rt, alloc, "x = ", "\nprint(x)\n", &end)
}

#[test]
fn operators_are_walked_in_a_loop(rt: HostRuntime) -> Result<(), Fail> {
    assert!(rt; sums_say(&rt, rt.alloc(), "019901\n")?);
    Ok(())
}

#[test]
fn brackets_nest_up_to_the_limit(rt: HostRuntime) -> Result<(), Fail> {
    let deep = "1ERROR at //BUILD.gn:1:205: Nesting is too deep.\n";
    assert!(rt; lists_are_printed(&rt, rt.alloc())?);
    assert!(rt; lists_say(&rt, rt.alloc(), "x = [", "]\nprint(x)\n", deep)?);
    Ok(())
}

// The bodies of 200 templates, each called in the next one's, are as deep as an evaluation may be.
#[test]
fn calls_nest_up_to_the_limit(rt: HostRuntime) -> Result<(), Fail> {
    let (greatest, above) = ("t199(\"n\") {\n}\n", "t200(\"n\") {\n}\n");
    let body = "print(target_name)";
    let deep = "1ERROR at //BUILD.gn:5:3: Evaluation is nested too deeply.\n";
    assert!(rt; templates_say(&rt, rt.alloc(), body, 200, greatest, "0x\n")?);
    assert!(rt; templates_say(&rt, rt.alloc(), body, 201, above, deep)?);
    Ok(())
}

// An expression that is read makes the evaluation deeper as a call of a template does, which is judged after the conversion and
// before the path.
#[test]
fn readings_nest_up_to_the_limit(rt: HostRuntime) -> Result<(), Fail> {
    let (greatest, above) = ("t198(\"n\") {\n}\n", "t199(\"n\") {\n}\n");
    let (value, other) = ("read_file(\"\", \"value\")", "read_file(\"\", \"json\")");
    let path = "1ERROR at //BUILD.gn:2:13: Invalid path.\n";
    let deep = "1ERROR at //BUILD.gn:2:3: Evaluation is nested too deeply.\n";
    let unknown = "1ERROR at //BUILD.gn:2:3: \"json\" is not in this profile.\n";
    assert!(rt; templates_say(&rt, rt.alloc(), value, 199, greatest, path)?);
    assert!(rt; templates_say(&rt, rt.alloc(), value, 200, above, deep)?);
    assert!(rt; templates_say(&rt, rt.alloc(), other, 200, above, unknown)?);
    Ok(())
}

// A template that assigns an entry of its invoker, and a call of it with the variable `x`.
const INVOKER: &str = "\ntemplate(\"t\") {\n  invoker.y = 1\n}\nt(\"n\") {\n  z = x\n}\n";

// A template that forwards the invoker around its call, and a call of it in the body of another one, whose call has the
// variable `x`.
const OUTER_INVOKER: &str =
    "\ntemplate(\"i\") {\n  forward_variables_from(invoker, [ \"invoker\" ])\n}\ntemplate(\"o\") {\n  i(\"m\") {\n  }\n}\no(\"n\") {\n  z = x\n}\n";

// What nests too deep only as a value: a list that is written out, once all its items have their values, an item that is added to, one that is
// replaced, the invoker where an entry is assigned to it, and that around a call where it is forwarded, before it is said that
// the name is set. A scope of the greatest depth is none of these.
#[test]
fn values_nest_up_to_the_limit(rt: HostRuntime) -> Result<(), Fail> {
    let printed = "1ERROR at //BUILD.gn:2:7: Value is too long.\n";
    let missing = "1ERROR at //BUILD.gn:2:12: Undefined identifier \"q\".\n";
    let invoker = "1ERROR at //BUILD.gn:3:13: Value is too long.\n";
    let forwarded = "1ERROR at //BUILD.gn:3:3: Value is too long.\n";
    let added = "1ERROR at //BUILD.gn:3:6: Value is too long.\n";
    assert!(rt; lists_say(&rt, rt.alloc(), "x = ", "\nprint([ x ])\n", printed)?);
    assert!(rt; lists_say(&rt, rt.alloc(), "x = ", "\nprint([ x, q ])\n", missing)?);
    assert!(rt; lists_say(&rt, rt.alloc(), "x = ", INVOKER, invoker)?);
    assert!(rt; lists_say(&rt, rt.alloc(), "x = ", OUTER_INVOKER, forwarded)?);
    assert!(rt; lists_say(&rt, rt.alloc(), "x = ", "\ny = [ [] ]\ny[0] += x\n", added)?);
    assert!(rt; lists_say(&rt, rt.alloc(), "x = ", "\ny = [ [] ]\ny[0] = x\n", added)?);
    assert!(rt; scopes_say(&rt, rt.alloc(), "print(defined(x199.a))\n", "0true\n")?);
    Ok(())
}
