// The rules that the targets of a unit give.

ghost use Rattle.std.specs.Prelude.{◌≡◌, ◌++◌, OnOk, map};
ghost use Rattle.std.specs.List.{flat_map};
ghost use Rattle.gn_closure.specs.Reach.{label};
ghost use Rattle.gn_closure.specs.Computed.{own_rules, ask_rules, find_rules, one_want, want_rules, home_rules, use_rules, target_rules};
ghost use Rattle.gn_graph.specs.Facts.{rules_in};
ghost use Rattle.gn_graph.specs.Needs.{home, target_of};

use crate::default_toolchain::DefaultToolchain;
use crate::fact::{Mention, Place};
use crate::needs::TargetNeeds;
use crate::rule::{Needs, Rule, put, put_first};
use crate::wanted_rules::wanted_rules;
use gn_labels::Label;
use gn_paths::{Path, Text};
use std::alloc::AllocError;

// The default toolchain, and the directory and the toolchain of a build file.
#[derive(Clone, Copy)]
pub(crate) struct File<'a> {
    pub(crate) default: &'a DefaultToolchain,
    pub(crate) dir: &'a Path,
    pub(crate) toolchain: &'a Text,
}

// A target is generated under the default toolchain.
fn own_rules<'a>(
    file: File<'a>,
    target: &'a TargetNeeds,
    rules: &mut Vec<Rule<'a>>,
) -> Result<(), AllocError>
    ensures { OnOk result (rules_in rules.new.items ≡ rules_in rules.old.items ++ own_rules file.entry.default.now file.entry.dir.now file.entry.toolchain.now (target_of target.now)) }
{
    let default = file.default.name();
    if file.toolchain != default {
        return Ok(());
    }
    put_first(rules, Mention::Generated(file.dir, &target.name, default))
}

// A generated target depends on its dependencies.
fn ask_rules<'a>(
    file: File<'a>,
    target: &'a TargetNeeds,
    rules: &mut Vec<Rule<'a>>,
) -> Result<(), AllocError>
    ensures { OnOk result (rules_in rules.new.items ≡ rules_in rules.old.items ++ ask_rules file.entry.dir.now file.entry.toolchain.now (target_of target.now)) }
{
    for label in &target.deps {
        put(
            rules,
            Needs::One(Mention::Generated(file.dir, &target.name, file.toolchain)),
            Mention::Asked(label),
        )?;
    }
    Ok(())
}

// A target on which a generated one depends is generated.
fn find_rules<'a>(
    file: File<'a>,
    target: &'a TargetNeeds,
    rules: &mut Vec<Rule<'a>>,
) -> Result<(), AllocError>
    ensures { OnOk result (rules_in rules.new.items ≡ rules_in rules.old.items ++ find_rules file.entry.dir.now file.entry.toolchain.now (target_of target.now)) }
{
    put(
        rules,
        Needs::One(Mention::AskedFor(file.dir, &target.name, file.toolchain)),
        Mention::Generated(file.dir, &target.name, file.toolchain),
    )
}

// The file that defines a toolchain is wanted where a generated target has it.
fn home_rules<'a>(
    default: &'a DefaultToolchain,
    toolchain: &'a Text,
    rules: &mut Vec<Rule<'a>>,
) -> Result<(), AllocError>
    ensures { OnOk result (rules_in rules.new.items ≡ rules_in rules.old.items ++ home_rules home default.now toolchain.now) }
{
    let dir = default.home_of(toolchain);
    put(
        rules,
        Needs::Two(Mention::SetUpFirst, Mention::Used(toolchain)),
        Mention::Wanted(dir, default.name()),
    )?;
    wanted_rules(default, dir, default.name(), rules)
}

// A generated target has its toolchain.
fn use_rules<'a>(
    file: File<'a>,
    target: &'a TargetNeeds,
    rules: &mut Vec<Rule<'a>>,
) -> Result<(), AllocError>
    ensures { OnOk result (rules_in rules.new.items ≡ rules_in rules.old.items ++ use_rules home file.entry.default.now file.entry.dir.now file.entry.toolchain.now (target_of target.now)) }
{
    put(
        rules,
        Needs::One(Mention::Generated(file.dir, &target.name, file.toolchain)),
        Mention::Used(file.toolchain),
    )?;
    home_rules(file.default, file.toolchain, rules)
}

// A generated target wants the build file of a label that it needs.
fn one_want<'a>(
    file: File<'a>,
    name: &'a Text,
    needed: &'a Label,
    rules: &mut Vec<Rule<'a>>,
) -> Result<(), AllocError>
    ensures { OnOk result (rules_in rules.new.items ≡ rules_in rules.old.items ++ one_want home file.entry.default.now (label file.entry.dir.now name.now file.entry.toolchain.now) needed.now) }
{
    let dir = Place::Dir(&needed.dir);
    put(
        rules,
        Needs::One(Mention::Generated(file.dir, name, file.toolchain)),
        Mention::Wanted(dir, &needed.toolchain),
    )?;
    wanted_rules(file.default, dir, &needed.toolchain, rules)
}

fn wants<'a>(
    file: File<'a>,
    name: &'a Text,
    labels: &'a [Label],
    rules: &mut Vec<Rule<'a>>,
) -> Result<(), AllocError>
    ensures { OnOk result (rules_in rules.new.items
        ≡ rules_in rules.old.items ++ flat_map (one_want home file.entry.default.now (label file.entry.dir.now name.now file.entry.toolchain.now)) labels.now) }
{
    for needed in labels {
        one_want(file, name, needed, rules)?;
    }
    Ok(())
}

fn want_rules<'a>(
    file: File<'a>,
    target: &'a TargetNeeds,
    rules: &mut Vec<Rule<'a>>,
) -> Result<(), AllocError>
    ensures { OnOk result (rules_in rules.new.items ≡ rules_in rules.old.items ++ want_rules home file.entry.default.now file.entry.dir.now file.entry.toolchain.now (target_of target.now)) }
{
    wants(file, &target.name, &target.deps, rules)?;
    wants(file, &target.name, &target.others, rules)
}

// How many rules a target gives, where its labels have the default toolchain.
fn rule_count(target: &TargetNeeds) -> usize {
    let by_deps = target.deps.len().saturating_mul(3);
    let by_others = target.others.len().saturating_mul(2);
    by_deps.saturating_add(by_others).saturating_add(5)
}

fn target_rules<'a>(
    file: File<'a>,
    target: &'a TargetNeeds,
    rules: &mut Vec<Rule<'a>>,
) -> Result<(), AllocError>
    ensures { OnOk result (rules_in rules.new.items ≡ rules_in rules.old.items ++ target_rules home file.entry.default.now file.entry.dir.now file.entry.toolchain.now (target_of target.now)) }
{
    rules.reserve(rule_count(target))?;
    own_rules(file, target, rules)?;
    ask_rules(file, target, rules)?;
    find_rules(file, target, rules)?;
    use_rules(file, target, rules)?;
    want_rules(file, target, rules)
}

/// The rules that the targets of a build file give.
pub(crate) fn targets_rules<'a>(
    file: File<'a>,
    targets: &'a [TargetNeeds],
    rules: &mut Vec<Rule<'a>>,
) -> Result<(), AllocError>
    ensures { OnOk result (rules_in rules.new.items
        ≡ rules_in rules.old.items ++ flat_map (target_rules home file.entry.default.now file.entry.dir.now file.entry.toolchain.now) (map target_of targets.now)) }
{
    for target in targets {
        target_rules(file, target, rules)?;
    }
    Ok(())
}
