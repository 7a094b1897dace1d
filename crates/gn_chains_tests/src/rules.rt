// What the rules forbid targets.

use crate::reading::{are_named, label, part, unresolved};
use gn_cycles::shortest_cycle;
use gn_labels::Label;
use gn_rules::{
    Marks, forbidden_target, foreign_labels, hidden_configs, hidden_targets, missing_labels,
    testonly_deps,
};
use std::alloc::{AllocError, Global};
use std::test::Fail;

/// A call on each line, with a graph, a target and the labels that are forbidden it.
pub(crate) const FORBIDDEN: &str = "\
targets|a group;b group deps=a|b|
targets|a group visibility=;b group deps=a|b|a
targets|a group visibility=:*;b group deps=a|b|
targets|a group visibility=//x:*,:b;b group deps=a|b|
targets|a group visibility=:c;b group deps=a|b|a
targets|a group visibility=:c;b group data_deps=a deps=a public_deps=a|b|a,a,a
targets|a config visibility=;b group deps=a|b|
targets|b group deps=a|b|
targets|a group visibility=;b group visibility=;c group visibility=;d group data_deps=a deps=b public_deps=c|d|c,b,a
configs|k config visibility=;b group configs=k|b|k
configs|k config;b group configs=k|b|
configs|k config visibility=:b;b group configs=k|b|
configs|a group visibility=;b group configs=a deps=a|b|
configs|k config visibility=;l config visibility=;m config visibility=;b group public_configs=m configs=k all_dependent_configs=l|b|k,l,m
tests|a group testonly=;b group deps=a|b|a
tests|a group testonly=;b group testonly= deps=a|b|
tests|a group;b group deps=a|b|
tests|a group testonly=;c group testonly=;b group data_deps=a public_deps=c|b|c,a
tests|k config testonly=;b group configs=k deps=k|b|
missing|a group;b group deps=a|b|
missing|b group deps=a|b|a
missing|b group pool=p configs=k data_deps=a,a deps=d public_deps=c|b|c,d,a,a,k,p
missing|k config;p pool;b group configs=k pool=p|b|
missing|b(u) group;a group deps=b(u),b|a|b
foreign|k config;b group deps=k|b|k
foreign|a group;b group configs=a deps=a|b|a
foreign|a group;b group pool=a|b|a
foreign|p pool;b group pool=p deps=p configs=p|b|p,p
foreign|b group deps=a configs=k pool=p|b|
reach|a group;b group deps=a assert_no_deps=:a|b|a
reach|a group;b group deps=a assert_no_deps=:c|b|
reach|a group;c group;b group deps=c,a assert_no_deps=:*|b|a
reach|a executable;b group deps=a assert_no_deps=:a|b|
reach|a group;x executable deps=a;b group deps=x assert_no_deps=:a|b|
reach|a group;x static_library data_deps=a;b executable data_deps=x assert_no_deps=:a|b|a
reach|k config;b group deps=k,n assert_no_deps=:*|b|
reach|b group deps=b assert_no_deps=:b|b|b
cycle|a group deps=a|a|a
cycle|a group deps=b;b group|a|
cycle|a group deps=b;b group deps=a|a|b,a
cycle|a group deps=b;b group deps=a|b|a,b
cycle|a group deps=b;b group deps=b|a|
cycle|a group deps=b;b group deps=b|b|b
cycle|a group deps=b(u);b(u) group deps=c;c group data_deps=a|a|b(u),c,a
cycle|a group deps=b;b group deps=a(u);a(u) group deps=b(u);b(u) group|a|
cycle|a group deps=b,c;b group deps=d;c group deps=a;d group deps=a|a|c,a
cycle|a group deps=c,b;b group deps=a;c group deps=a|a|c,a
cycle|a group deps=b public_deps=c;b group deps=a;c group deps=a|a|c,a
cycle|a group data_deps=b deps=c;b group deps=a;c group deps=a|a|c,a
cycle|a group deps=b,c;b group deps=z;c group deps=y;y group deps=a;z group deps=a|a|b,z,a
cycle|a group deps=b,c;b group deps=c;c group deps=a,b|b|c,b
cycle|a group deps=n;b group deps=n|a|";

// The label, if there is one.
fn listed(alloc: Global, label: Option<Label>) -> Result<Vec<Label>, AllocError> {
    let mut labels = Vec::new(alloc);
    if let Some(label) = label {
        labels.push(label)?;
    }
    Ok(labels)
}

// The labels, none where there is no list of them.
fn or_none(alloc: Global, labels: Option<Vec<Label>>) -> Result<Vec<Label>, AllocError> {
    match labels {
        None => Ok(Vec::new(alloc)),
        Some(labels) => Ok(labels),
    }
}

fn forbidden<G: Marks>(
    alloc: Global,
    call: &str,
    target: &Label,
    graph: &G,
) -> Result<Vec<Label>, AllocError> {
    match call {
        "targets" => hidden_targets(alloc, target, graph),
        "configs" => hidden_configs(alloc, target, graph),
        "missing" => missing_labels(alloc, target, graph),
        "foreign" => foreign_labels(alloc, target, graph),
        "reach" => listed(alloc, forbidden_target(alloc, target, graph)?),
        "cycle" => or_none(alloc, shortest_cycle(alloc, target, graph)?),
        _ => testonly_deps(alloc, target, graph),
    }
}

/// Whether a graph forbids what a line says.
pub(crate) fn is_forbidden<G: Marks>(
    alloc: Global,
    graph: &G,
    row: &str,
) -> Result<bool, AllocError> {
    let target = label(alloc, part(row, '|', 2))?;
    let found = forbidden(alloc, part(row, '|', 0), &target, graph);
    drop(target);
    let labels = found?;
    let are_named = are_named(&labels, part(row, '|', 3));
    drop(labels);
    Ok(are_named)
}

/// Whether the graph of a line forbids what it says.
pub(crate) fn forbids(alloc: Global, row: &str) -> Result<bool, Fail> {
    let tree = unresolved(alloc, part(row, '|', 1))?;
    let is_so = is_forbidden(alloc, &tree, row);
    drop(tree);
    Ok(is_so?)
}
