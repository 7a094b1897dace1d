// The configurations that apply to targets, and the libraries that they inherit.

ghost use Rattle.gn_chains_tests.specs.Trees.{HoldsRecords};

use crate::reading::{are_named, label, part, resolved};
use crate::tree::Tree;
use gn_labels::Label;
use std::alloc::{AllocError, Global};
use std::test::Fail;

/// A graph on each line, with a target and the configurations that apply to it.
pub(crate) const APPLIED: &str = "\
k config;c group public_configs=k;b group public_deps=c;a group deps=b|a|k
k config;c group public_configs=k;b group deps=c;a group deps=b|a|
k config;m config;c group all_dependent_configs=k;b group deps=c;a group configs=k,m deps=b|a|k,m
k config;m config;a group configs=m,k,m all_dependent_configs=k public_configs=m|a|m,k
k config;l config;m config;a group configs=k all_dependent_configs=l public_configs=m|a|k,l,m
k config;l config;b group all_dependent_configs=k;c group all_dependent_configs=l;a group deps=b public_deps=c|a|l,k
k config;l config;b group public_configs=k all_dependent_configs=l;a group deps=b|a|l,k
k config;l config;c group all_dependent_configs=k;b group all_dependent_configs=l deps=c;a group deps=c,b|a|k,l
k config;b group public_configs=k all_dependent_configs=k;a group data_deps=b|a|
k config;b group configs=k;a group public_deps=b|a|
k config;d group public_configs=k;c group public_deps=d;b group deps=c;a group deps=b public_deps=c|a|k";

/// A graph on each line, with a target and the libraries that it inherits.
pub(crate) const INHERITED: &str = "\
b static_library;a executable deps=b|a|b
c static_library;b shared_library deps=c;a executable deps=b|a|b
c source_set;b group public_deps=c;a shared_library deps=b|a|c
b static_library;a static_library deps=b|a|
b static_library;a executable data_deps=b|a|
b executable;c action;d loadable_module;a loadable_module deps=b,c,d|a|
c static_library;b static_library;a executable deps=c,b|a|b,c
b static_library;c static_library deps=b;a executable deps=b,c|a|c,b
d source_set;b source_set deps=d;c static_library public_deps=d;a executable deps=d,c public_deps=b|a|b,c,d
b source_set;z source_set deps=b;c source_set;a executable deps=b,c,z|a|c,z,b
b source_set;c action deps=b;a executable deps=c|a|";

/// What goes along dependencies.
#[derive(Clone, Copy)]
pub(crate) enum Along {
    /// The configurations that apply.
    Configurations,
    /// The libraries that are inherited.
    Libraries,
}

fn found(
    alloc: Global,
    tree: &Tree,
    target: &Label,
    along: Along,
) -> Result<Option<Vec<Label>>, AllocError>
    requires { HoldsRecords tree.now }
{
    match along {
        Along::Configurations => tree.applied(alloc, target),
        Along::Libraries => tree.inherited(alloc, target),
    }
}

fn have_names(found: Option<Vec<Label>>, names: &str) -> bool {
    match found {
        None => false,
        Some(labels) => {
            let are_named = are_named(&labels, names);
            drop(labels);
            are_named
        }
    }
}

/// Whether a target has what a line says along its dependencies.
pub(crate) fn goes(alloc: Global, row: &str, along: Along) -> Result<bool, Fail> {
    let target = label(alloc, part(row, '|', 1))?;
    let tree = resolved(alloc, part(row, '|', 0))?;
    let found = found(alloc, &tree, &target, along);
    drop(tree);
    drop(target);
    Ok(have_names(found?, part(row, '|', 2)))
}
