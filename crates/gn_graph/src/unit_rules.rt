// The rules that the answer of a unit gives.

ghost use Rattle.std.specs.Prelude.{◌≡◌, ◌++◌, ◌&&◌, IfOk, OnOk, map, Some};
ghost use Rattle.std.specs.Str.{bytes_eq};
ghost use Rattle.std.specs.List.{flat_map};
ghost use Rattle.gn_closure.specs.Reach.{source_root};
ghost use Rattle.gn_closure.specs.Computed.{one_pool, own_tool, one_tool, tool_rules, root_rules, unit_rules};
ghost use Rattle.gn_graph.specs.Facts.{unit_of, place_of, rules_in, unit_rules_in, under};
ghost use Rattle.gn_graph.specs.Needs.{home, toolchain_of, done_of, load_rules, setup_rules};

use crate::default_toolchain::DefaultToolchain;
use crate::fact::{Mention, Place};
use crate::home::home;
use crate::needs::{ToolchainNeeds, UnitNeeds};
use crate::rule::{Needs, Rule, UnitRules, hang, put, put_first};
use crate::target_rules::{File, targets_rules};
use crate::unit_key::UnitKey;
use crate::wanted_rules::wanted_rules;
use gn_labels::Label;
use gn_paths::Text;
use std::alloc::{AllocError, Global};

fn one_pool<'a>(
    default: &'a DefaultToolchain,
    toolchain: &'a Text,
    pool: &'a Label,
    rules: &mut Vec<Rule<'a>>,
) -> Result<(), AllocError>
    ensures { OnOk result (rules_in rules.new.items ≡ rules_in rules.old.items ++ one_pool home default.now toolchain.now pool.now) }
{
    let dir = Place::Dir(&pool.dir);
    put(
        rules,
        Needs::Two(Mention::SetUpFirst, Mention::Used(toolchain)),
        Mention::Wanted(dir, &pool.toolchain),
    )?;
    wanted_rules(default, dir, &pool.toolchain, rules)
}

fn pools<'a>(
    default: &'a DefaultToolchain,
    toolchain: &'a Text,
    pools: &'a [Label],
    rules: &mut Vec<Rule<'a>>,
) -> Result<(), AllocError>
    ensures { OnOk result (rules_in rules.new.items ≡ rules_in rules.old.items ++ flat_map (one_pool home default.now toolchain.now) pools.now) }
{
    for pool in pools {
        one_pool(default, toolchain, pool, rules)?;
    }
    Ok(())
}

fn own_tool<'a>(
    default: &'a DefaultToolchain,
    toolchain: &'a ToolchainNeeds,
    rules: &mut Vec<Rule<'a>>,
) -> Result<(), AllocError>
    ensures { OnOk result (rules_in rules.new.items ≡ rules_in rules.old.items ++ own_tool home default.now (toolchain_of toolchain.now)) }
{
    put(rules, Needs::Nothing, Mention::Defined(&toolchain.name))?;
    pools(default, &toolchain.name, &toolchain.pools, rules)
}

// A toolchain counts in the file of its own label, under the default toolchain.
fn is_at_home(alloc: Global, file: File<'_>, toolchain: &Text) -> Result<bool, AllocError>
    ensures { IfOk result (λ b. b ≡ (bytes_eq file.entry.toolchain.now file.entry.default.now && bytes_eq file.entry.dir.now (home toolchain.now))) }
{
    let dir = home(alloc, toolchain)?;
    Ok(file.toolchain == file.default.name() && *file.dir == dir)
}

fn one_tool<'a>(
    alloc: Global,
    file: File<'a>,
    toolchain: &'a ToolchainNeeds,
    rules: &mut Vec<Rule<'a>>,
) -> Result<(), AllocError>
    ensures { OnOk result (rules_in rules.new.items ≡ rules_in rules.old.items ++ one_tool home file.entry.default.now file.entry.dir.now file.entry.toolchain.now (toolchain_of toolchain.now)) }
{
    if is_at_home(alloc, file, &toolchain.name)? {
        own_tool(file.default, toolchain, rules)
    } else {
        Ok(())
    }
}

fn tool_rules<'a>(
    alloc: Global,
    file: File<'a>,
    toolchains: &'a [ToolchainNeeds],
    rules: &mut Vec<Rule<'a>>,
) -> Result<(), AllocError>
    ensures { OnOk result (rules_in rules.new.items
        ≡ rules_in rules.old.items ++ tool_rules home file.entry.default.now file.entry.dir.now file.entry.toolchain.now (map toolchain_of toolchains.now)) }
{
    for toolchain in toolchains {
        one_tool(alloc, file, toolchain, rules)?;
    }
    Ok(())
}

fn load_rules<'a>(
    alloc: Global,
    file: File<'a>,
    needs: &'a UnitNeeds,
    rules: &mut Vec<Rule<'a>>,
) -> Result<(), AllocError>
    ensures { OnOk result (rules_in rules.new.items
        ≡ rules_in rules.old.items ++ load_rules file.entry.default.now file.entry.dir.now file.entry.toolchain.now (done_of needs.now)) }
{
    targets_rules(file, &needs.targets, rules)?;
    tool_rules(alloc, file, &needs.toolchains, rules)
}

fn root_rules<'a>(
    default: &'a DefaultToolchain,
    dir: Place<'a>,
    rules: &mut Vec<Rule<'a>>,
) -> Result<(), AllocError>
    ensures { OnOk result (rules_in rules.new.items ≡ rules_in rules.old.items ++ root_rules home default.now (place_of dir.entry)) }
{
    put_first(rules, Mention::Wanted(dir, default.name()))?;
    wanted_rules(default, dir, default.name(), rules)
}

// The default toolchain's build configuration wants the build files of the source root and of that toolchain's label.
fn all_root_rules<'a>(
    default: &'a DefaultToolchain,
    rules: &mut Vec<Rule<'a>>,
) -> Result<(), AllocError>
    ensures { OnOk result (rules_in rules.new.items
        ≡ rules_in rules.old.items ++ (root_rules home default.now source_root ++ root_rules home default.now (home default.now))) }
{
    root_rules(default, Place::Root, rules)?;
    root_rules(default, default.place(), rules)
}

fn setup_rules<'a>(
    default: &'a DefaultToolchain,
    toolchain: &'a Text,
    rules: &mut Vec<Rule<'a>>,
) -> Result<(), AllocError>
    ensures { OnOk result (rules_in rules.new.items ≡ rules_in rules.old.items ++ setup_rules default.now toolchain.now) }
{
    put(rules, Needs::Nothing, Mention::SetUp(toolchain))?;
    if toolchain.is_empty() {
        all_root_rules(default, rules)
    } else {
        Ok(())
    }
}

fn rules_by<'a>(
    alloc: Global,
    default: &'a DefaultToolchain,
    unit: &'a UnitKey,
    needs: &'a UnitNeeds,
    rules: &mut Vec<Rule<'a>>,
) -> Result<(), AllocError>
    ensures { OnOk result (rules_in rules.new.items
        ≡ rules_in rules.old.items ++ unit_rules home default.now (Some (Some (done_of needs.now))) (unit_of unit.now)) }
{
    match unit {
        UnitKey::Setup(toolchain) => setup_rules(default, toolchain, rules),
        UnitKey::Load(dir, toolchain) => load_rules(
            alloc,
            File {
                default,
                dir,
                toolchain,
            },
            needs,
            rules,
        ),
    }
}

/// The rules that the answer of a unit that is done gives, each of which needs that the unit is reached, stand behind the others.
pub(crate) fn unit_rules<'a>(
    alloc: Global,
    default: &'a DefaultToolchain,
    unit: &'a UnitKey,
    needs: &'a UnitNeeds,
    done: &mut Vec<UnitRules<'a>>,
) -> Result<(), AllocError>
    ensures { OnOk result (unit_rules_in done.new.items
        ≡ unit_rules_in done.old.items ++ map (under (unit_of unit.now)) (unit_rules home default.now (Some (Some (done_of needs.now))) (unit_of unit.now))) }
{
    let mut rules = Vec::new(alloc);
    rules_by(alloc, default, unit, needs, &mut rules)?;
    hang(unit, rules, done)
}
