// The faults of targets.

ghost use Rattle.gn_cycles.specs.Settled.{AreSettled};
ghost use Rattle.gn_chains_tests.specs.Trees.{shape_in};

use crate::reading::{label, labels, part, unresolved};
use crate::tree::Tree;
use gn_chains::Firsts;
use gn_cycles::settled;
use gn_faults::Fault;
use gn_graph_faults::{label_faults, least_fault};
use gn_labels::Label;
use gn_paths::Text;
use std::alloc::{AllocError, Global};
use std::slice;
use std::test::Fail;

/// A graph on each line, with a target and its faults. `;` ends a fault, which is told by its code, its line, its details and its
/// toolchain.
pub(crate) const FAULTS: &str = "\
a group;b group deps=a|b|
n group;b group deps=a|b|33 2 //:b //:a ;
b group data_deps=m,n deps=n,m public_deps=n|b|33 1 //:b //:m ;33 1 //:b //:n ;
b group configs=k pool=p deps=n|b|33 1 //:b //:k ;33 1 //:b //:n ;33 1 //:b //:p ;
b group deps=n(u),z,n|b|33 1 //:b //:n ;33 1 //:b //:n(//t:u) ;33 1 //:b //:z ;
b(u) group deps=n(u),n|b(u)|33 1 //:b(//t:u) //:n //t:u;33 1 //:b(//t:u) //:n(//t:u) //t:u;
k config;b group deps=k,k|b|34 2 //:b //:k ;
k config testonly= visibility=;b group deps=k|b|34 2 //:b //:k ;
a group visibility=;b group configs=a pool=a|b|34 2 //:b //:a ;
a group deps=a|a|35 1 //:a //:a ;
a group deps=b;b group deps=a|a|35 1 //:a //:b //:a ;
a group deps=b;b group deps=a|b|35 2 //:b //:a //:b ;
a group deps=b;b group deps=b|a|
a group deps=b,c;b group deps=d;c group deps=a;d group deps=a|a|35 1 //:a //:c //:a ;
a group deps=b(u);b(u) group deps=c;c group data_deps=a|b(u)|35 2 //:b(//t:u) //:c //:a //:b(//t:u) //t:u;
a group visibility=;b group public_deps=a deps=a|b|36 2 //:b //:a ;
a group visibility=;k config visibility=;b group deps=a configs=k public_configs=k|b|36 3 //:b //:a ;36 3 //:b //:k ;
a group visibility=:b;b group deps=a|b|
a group testonly=;b group deps=a data_deps=a|b|37 2 //:b //:a ;
a group testonly=;b group testonly= deps=a|b|
a group;c group;b group deps=c,a assert_no_deps=:*|b|38 3 //:b //:a ;
a group;x executable deps=a;b group deps=x assert_no_deps=:*|b|
a group visibility=;c group testonly=;k config;b group data_deps=n,b deps=k public_deps=c,a assert_no_deps=:c|b|\
33 4 //:b //:n ;34 4 //:b //:k ;35 4 //:b //:b ;36 4 //:b //:a ;37 4 //:b //:c ;38 4 //:b //:c ;";

/// A graph on each line, with the fault that is told of its targets in their order.
pub(crate) const LEAST: &str = "\
a group;b group deps=a|
a group deps=a;b group deps=n|35 1 //:a //:a ;
a group deps=n;b group deps=n|33 1 //:a //:n ;
b group deps=n;a group deps=a|33 1 //:b //:n ;
a group deps=n visibility=;a(u) group deps=n|33 1 //:a //:n ;
a group testonly=;b group deps=a;c group deps=n|37 2 //:b //:a ;
a group visibility=;k config;b group deps=a,k|34 3 //:b //:k ;
a group visibility=;c group testonly=;b group deps=c,a|36 3 //:b //:a ;
a group;b group deps=c assert_no_deps=:a;c group deps=a,d;d group testonly=|38 2 //:b //:a ;
a group deps=b;b group deps=c;c group deps=b|35 2 //:b //:c //:b ;
a group;b group deps=a assert_no_deps=:a testonly=;c group deps=b|38 2 //:b //:a ;";

fn append_details(text: &mut Text, details: &[Text]) -> Result<(), AllocError> {
    for detail in details {
        text.append(detail.as_bytes())?;
        text.push(b' ')?;
    }
    Ok(())
}

fn line_of(fault: &Fault) -> u32 {
    match &fault.place {
        None => 0,
        Some(place) => place.line,
    }
}

fn append(alloc: Global, text: &mut Text, fault: &Fault) -> Result<(), AllocError> {
    let number = fault.code.number();
    let line = line_of(fault);
    let head = format!(in alloc; "{number} {line} ")?;
    text.append(head.as_str().as_bytes())?;
    append_details(text, fault.detail.as_slice())?;
    text.append(fault.toolchain.as_bytes())?;
    text.push(b';')
}

fn told(alloc: Global, faults: &[Fault]) -> Result<Text, AllocError> {
    let mut text = Text::new(alloc);
    for fault in faults {
        append(alloc, &mut text, fault)?;
    }
    Ok(text)
}

fn faults_of(alloc: Global, tree: &Tree, target: &Label, known: &Firsts) -> Result<Text, AllocError>
    requires { AreSettled (shape_in tree.now) known.now }
{
    let faults = label_faults(alloc, target, tree, known)?;
    let text = told(alloc, &faults);
    drop(faults);
    text
}

fn least_of(
    alloc: Global,
    tree: &Tree,
    targets: &[Label],
    known: &Firsts,
) -> Result<Text, AllocError>
    requires { AreSettled (shape_in tree.now) known.now }
{
    match least_fault(alloc, targets, tree, known)? {
        None => Ok(Text::new(alloc)),
        Some(fault) => {
            let text = told(alloc, slice::from_ref(&fault));
            drop(fault);
            text
        }
    }
}

// The faults of the target of a row, in a graph with these targets.
fn faults_in(alloc: Global, tree: &Tree, order: &[Label], row: &str) -> Result<Text, AllocError> {
    let target = label(alloc, part(row, '|', 1))?;
    let known = settled(alloc, order, tree)?;
    let text = faults_of(alloc, tree, &target, &known);
    drop(known);
    drop(target);
    text
}

// The fault that is told of these targets of a graph.
fn least_in(alloc: Global, tree: &Tree, targets: &[Label]) -> Result<Text, AllocError> {
    let known = settled(alloc, targets, tree)?;
    let text = least_of(alloc, tree, targets, &known);
    drop(known);
    text
}

fn is_text(text: Text, wanted: &str) -> bool {
    let is_text = text.as_bytes() == wanted.as_bytes();
    drop(text);
    is_text
}

/// Whether a target has the faults of its line.
pub(crate) fn has_faults(alloc: Global, row: &str) -> Result<bool, Fail> {
    let order = labels(alloc, part(row, '|', 0))?;
    let tree = unresolved(alloc, part(row, '|', 0))?;
    let text = faults_in(alloc, &tree, &order, row);
    drop(tree);
    drop(order);
    Ok(is_text(text?, part(row, '|', 2)))
}

/// Whether the fault of a line is told.
pub(crate) fn has_least(alloc: Global, row: &str) -> Result<bool, Fail> {
    let targets = labels(alloc, part(row, '|', 0))?;
    let tree = unresolved(alloc, part(row, '|', 0))?;
    let text = least_in(alloc, &tree, &targets);
    drop(tree);
    drop(targets);
    Ok(is_text(text?, part(row, '|', 1)))
}
