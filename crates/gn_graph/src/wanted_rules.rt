// The rules that follow for a directory and a toolchain that some answer wants.

ghost use Rattle.std.specs.Prelude.{◌≡◌, ◌++◌, OnOk};
ghost use Rattle.gn_closure.specs.Computed.{default_rules, other_rules, wanted_rules};
ghost use Rattle.gn_graph.specs.Facts.{place_of, rules_in};
ghost use Rattle.gn_graph.specs.Needs.{home, home_wanted, set_up_first};

use crate::default_toolchain::DefaultToolchain;
use crate::fact::{Mention, Place};
use crate::rule::{Needs, Rule, put};
use gn_paths::Text;
use std::alloc::AllocError;

// Under the default toolchain the build file is reached.
fn default_rules<'a>(
    default: &'a Text,
    dir: Place<'a>,
    rules: &mut Vec<Rule<'a>>,
) -> Result<(), AllocError>
    ensures { OnOk result (rules_in rules.new.items ≡ rules_in rules.old.items ++ default_rules default.now (place_of dir.entry)) }
{
    put(
        rules,
        Needs::Two(Mention::SetUpFirst, Mention::Wanted(dir, default)),
        Mention::ReachedLoad(dir, default),
    )
}

// Under another one, the file that defines the toolchain is wanted.
fn home_wanted<'a>(
    default: &'a Text,
    home: Place<'a>,
    dir: Place<'a>,
    toolchain: &'a Text,
    rules: &mut Vec<Rule<'a>>,
) -> Result<(), AllocError>
    ensures { OnOk result (rules_in rules.new.items ≡ rules_in rules.old.items ++ home_wanted default.now (place_of home.entry) (place_of dir.entry) toolchain.now) }
{
    put(
        rules,
        Needs::Two(Mention::SetUpFirst, Mention::Wanted(dir, toolchain)),
        Mention::Wanted(home, default),
    )?;
    put(
        rules,
        Needs::Two(Mention::SetUpFirst, Mention::Wanted(home, default)),
        Mention::ReachedLoad(home, default),
    )
}

// Where it is defined there, its build configuration is reached, and once that is done the build file is.
fn set_up_first<'a>(
    dir: Place<'a>,
    toolchain: &'a Text,
    rules: &mut Vec<Rule<'a>>,
) -> Result<(), AllocError>
    ensures { OnOk result (rules_in rules.new.items ≡ rules_in rules.old.items ++ set_up_first (place_of dir.entry) toolchain.now) }
{
    put(
        rules,
        Needs::Three(
            Mention::SetUpFirst,
            Mention::Wanted(dir, toolchain),
            Mention::Defined(toolchain),
        ),
        Mention::ReachedSetup(toolchain),
    )?;
    put(
        rules,
        Needs::Three(
            Mention::SetUpFirst,
            Mention::Wanted(dir, toolchain),
            Mention::SetUp(toolchain),
        ),
        Mention::ReachedLoad(dir, toolchain),
    )
}

fn other_rules<'a>(
    default: &'a Text,
    dir: Place<'a>,
    toolchain: &'a Text,
    rules: &mut Vec<Rule<'a>>,
) -> Result<(), AllocError>
    ensures { OnOk result (rules_in rules.new.items ≡ rules_in rules.old.items ++ other_rules home default.now (place_of dir.entry) toolchain.now) }
{
    home_wanted(default, Place::Home(toolchain), dir, toolchain, rules)?;
    set_up_first(dir, toolchain, rules)
}

/// The rules for a directory that some answer wants under a toolchain.
pub(crate) fn wanted_rules<'a>(
    default: &'a DefaultToolchain,
    dir: Place<'a>,
    toolchain: &'a Text,
    rules: &mut Vec<Rule<'a>>,
) -> Result<(), AllocError>
    ensures { OnOk result (rules_in rules.new.items ≡ rules_in rules.old.items ++ wanted_rules home default.now (place_of dir.entry) toolchain.now) }
{
    let default = default.name();
    if toolchain == default {
        default_rules(default, dir, rules)
    } else {
        other_rules(default, dir, toolchain, rules)
    }
}
