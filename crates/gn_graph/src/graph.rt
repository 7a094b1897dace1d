// The graph of reached units and generated labels, over the answers that were added.

ghost use Rattle.std.specs.Prelude.{◌≡◌, ◌++◌, ◌∷◌, [], None, Some, IfOk, OnOk, OnErr, true, ◌↔◌, map, vec_len, vec_capacity, ◌<◌, ◌≤◌, ◌^◌, length, slice_get, option_map, option_copied, ltb, ◌||◌};
ghost use Rattle.gn_closure.specs.Closure.{In};
ghost use Rattle.gn_closure.specs.Reach.{Setup, Fact as Held, Holds};
ghost use Rattle.gn_closure.specs.Ground.{Holding};
ghost use Rattle.gn_closure.specs.Computed.{holds_in, is_too_large, load_limit, setup_limit, start_rules};
ghost use Rattle.gn_closure.specs.Least.{IsTooLarge};
ghost use Rattle.gn_graph.specs.Facts.{step_of, unit_of, unit_rules_in};
ghost use Rattle.gn_graph.specs.Needs.{home, done_in};
ghost use Rattle.gn_graph.specs.Numbers.{IsMore, IsTable, IsWhole, HasAdded};
ghost use Rattle.gn_graph.specs.Replies.{reply, units_in, rules_by, reply_rules, more_rules, named, after};
ghost use Rattle.gn_graph.specs.Graphs.{reply_of, told_by};
ghost use Rattle.gn_graph.specs.Counts.{AreCounts};

use crate::closure::Closure;
use crate::counts::{Counts, counted};
use crate::default_toolchain::DefaultToolchain;
use crate::fact::{Fact, Mention};
use crate::needs::UnitNeeds;
use crate::rule::{Needs, Rule, UnitRules};
use crate::unit_key::UnitKey;
use crate::unit_rules::unit_rules;
use gn_paths::Text;
use std::alloc::{AllocError, Global};
use std::marker::Model;
use std::snapshot::Snapshot;

// The greatest number of build files that may be reached, each under each of its toolchains, and of build configurations.
const LOAD_LIMIT: usize = 1048576;

const SETUP_LIMIT: usize = 256;

// Whether units of a kind are more than may be reached.
#[tactic(auto, unfolding(gn_closure::specs::Computed::load_limit, gn_closure::specs::Computed::setup_limit))]
fn exceed(counts: Counts) -> bool
    ensures { result ≡ (ltb load_limit counts.loads || ltb setup_limit counts.setups) }
{
    counts.loads > LOAD_LIMIT || counts.setups > SETUP_LIMIT
}

// The answer of a unit: what it leaves, if it is done.
#[derive(Drop)]
pub(crate) struct Answered {
    pub(crate) unit: UnitKey,
    pub(crate) needs: Option<UnitNeeds>,
}

// The rules of an answer are put behind the others.
fn rules_of<'a>(
    alloc: Global,
    default: &'a DefaultToolchain,
    answered: &'a Answered,
    rules: &mut Vec<UnitRules<'a>>,
) -> Result<(), AllocError>
    ensures { OnOk result (unit_rules_in rules.new.items ≡ unit_rules_in rules.old.items ++ reply_rules default.now (reply_of answered.now)) }
{
    match &answered.needs {
        None => Ok(()),
        Some(needs) => unit_rules(alloc, default, &answered.unit, needs, rules),
    }
}

// The rules of all that was answered.
fn all_rules<'a>(
    alloc: Global,
    default: &'a DefaultToolchain,
    answers: &'a [Answered],
    rules: &mut Vec<UnitRules<'a>>,
) -> Result<(), AllocError>
    ensures { OnOk result (unit_rules_in rules.new.items ≡ unit_rules_in rules.old.items ++ rules_by (Some default.now) (map reply_of answers.now)) }
{
    for answered in answers {
        rules_of(alloc, default, answered, rules)?;
    }
    Ok(())
}

// Those, and the rules of one more answer.
fn waiting_rules<'a>(
    alloc: Global,
    default: &'a DefaultToolchain,
    answers: &'a [Answered],
    last: &'a Answered,
    rules: &mut Vec<UnitRules<'a>>,
) -> Result<(), AllocError>
    ensures { OnOk result (unit_rules_in rules.new.items ≡ unit_rules_in rules.old.items ++ rules_by (Some default.now) (map reply_of answers.now ++ reply_of last.now ∷ [])) }
{
    all_rules(alloc, default, answers, rules)?;
    rules_of(alloc, default, last, rules)
}

// The rules that one more answer adds.
fn added_rules<'a>(
    alloc: Global,
    before: Option<&'a DefaultToolchain>,
    after: Option<&'a DefaultToolchain>,
    answers: &'a [Answered],
    last: &'a Answered,
    rules: &mut Vec<UnitRules<'a>>,
) -> Result<(), AllocError>
    ensures { OnOk result (unit_rules_in rules.new.items
        ≡ unit_rules_in rules.old.items ++ more_rules (option_copied before.entry) (option_copied after.entry) (map reply_of answers.now) (reply_of last.now)) }
{
    match before {
        Some(default) => rules_of(alloc, default, last, rules),
        None => match after {
            None => Ok(()),
            Some(default) => waiting_rules(alloc, default, answers, last, rules),
        },
    }
}

// The rules of one more answer are added, and what follows from them; they are written into an empty list.
fn follow_by<'a>(
    alloc: Global,
    closure: &mut Closure,
    before: Option<&'a DefaultToolchain>,
    after: Option<&'a DefaultToolchain>,
    answers: &'a [Answered],
    last: &'a Answered,
    rules: &mut Vec<UnitRules<'a>>,
) -> Result<(), AllocError>
    requires { rules.old.items ≡ [] }
    ensures added { OnOk result (HasAdded closure.old closure.new (more_rules (option_copied before.entry) (option_copied after.entry) (map reply_of answers.now) (reply_of last.now))) }
    ensures err { OnErr result (closure.new ≡ closure.old) }
{
    added_rules(alloc, before, after, answers, last, rules)?;
    closure.add(rules)
}

// The rules of one more answer are added, and what follows from them.
fn follow(
    alloc: Global,
    closure: &mut Closure,
    before: Option<&DefaultToolchain>,
    after: Option<&DefaultToolchain>,
    answers: &[Answered],
    last: &Answered,
) -> Result<(), AllocError>
    ensures added { OnOk result (HasAdded closure.old closure.new (more_rules (option_copied before.entry) (option_copied after.entry) (map reply_of answers.now) (reply_of last.now))) }
    ensures err { OnErr result (closure.new ≡ closure.old) }
{
    let mut rules = Vec::new(alloc);
    let done = follow_by(alloc, closure, before, after, answers, last, &mut rules);
    drop(rules);
    done
}

// The default toolchain that an answer names.
fn named(answered: &Answered) -> Option<&Text>
    ensures { option_copied result ≡ named (reply_of answered.now) }
{
    match &answered.unit {
        UnitKey::Load(_, _) => None,
        UnitKey::Setup(toolchain) => match &answered.needs {
            None => None,
            Some(needs) => {
                if toolchain.is_empty() {
                    Some(&needs.default)
                } else {
                    None
                }
            }
        },
    }
}

fn default_of(alloc: Global, name: Option<&Text>) -> Result<Option<DefaultToolchain>, AllocError>
    ensures { IfOk result (λ t. t ≡ option_copied name.entry) }
{
    match name {
        None => Ok(None),
        Some(name) => Ok(Some(DefaultToolchain::new(alloc, name)?)),
    }
}

// One more answer's rules are added. The default toolchain is told that the answer names.
fn follow_named(
    alloc: Global,
    closure: &mut Closure,
    before: Option<&DefaultToolchain>,
    answers: &[Answered],
    last: &Answered,
) -> Result<Option<DefaultToolchain>, AllocError>
    ensures named { IfOk result (λ default. default ≡ named (reply_of last.now)) }
    ensures added { OnOk result (HasAdded closure.old closure.new (more_rules (option_copied before.entry) (named (reply_of last.now)) (map reply_of answers.now) (reply_of last.now))) }
    ensures err { OnErr result (closure.new ≡ closure.old) }
{
    let default = default_of(alloc, named(last))?;
    follow(alloc, closure, before, default.as_ref(), answers, last)?;
    Ok(default)
}

// The default toolchain stays once it is named.
fn set_default(default: &mut Option<DefaultToolchain>, named: Option<DefaultToolchain>)
    ensures { default.new ≡ after default.old named }
{
    if default.is_none() {
        *default = named;
    }
}

// One more answer, for which there is room, as contracts see it.
fn note(told: &mut Vec<Snapshot<Answered>>, answered: &Answered)
    requires { vec_len told.old < vec_capacity told.old }
    ensures { map told_by told.new.items ≡ map told_by told.old.items ++ reply_of answered.now ∷ [] }
{
    told.push_reserved(Snapshot::of(answered));
}

// One more answer is kept where its rules wait for the default toolchain; there is room for it.
fn keep(before: Option<&DefaultToolchain>, early: &mut Vec<Answered>, answered: Answered)
    requires { vec_len early.old < vec_capacity early.old }
    ensures { option_copied before.entry ≡ None → early.new.items ≡ early.old.items ++ answered ∷ [] }
{
    match before {
        Some(_) => drop(answered),
        None => early.push_reserved(answered),
    }
}

// One more answer's rules are added, and there is room for it.
fn follow_with_room(
    alloc: Global,
    closure: &mut Closure,
    before: Option<&DefaultToolchain>,
    told: &mut Vec<Snapshot<Answered>>,
    early: &mut Vec<Answered>,
    last: &Answered,
) -> Result<Option<DefaultToolchain>, AllocError>
    ensures named { IfOk result (λ default. default ≡ named (reply_of last.now)) }
    ensures room { OnOk result ((vec_len told.new < vec_capacity told.new) × (vec_len early.new < vec_capacity early.new)) }
    ensures items { (told.new.items ≡ told.old.items) × (early.new.items ≡ early.old.items) }
    ensures added { OnOk result (HasAdded closure.old closure.new (more_rules (option_copied before.entry) (named (reply_of last.now)) (map reply_of early.old.items) (reply_of last.now))) }
    ensures err { OnErr result (closure.new ≡ closure.old) }
{
    told.reserve(1)?;
    early.reserve(1)?;
    follow_named(alloc, closure, before, early, last)
}

// One more answer and its rules.
fn take(
    alloc: Global,
    closure: &mut Closure,
    before: Option<&DefaultToolchain>,
    told: &mut Vec<Snapshot<Answered>>,
    early: &mut Vec<Answered>,
    answered: Answered,
) -> Result<Option<DefaultToolchain>, AllocError>
    ensures named { IfOk result (λ default. default ≡ named (reply_of answered)) }
    ensures told { OnOk result (map told_by told.new.items ≡ map told_by told.old.items ++ reply_of answered ∷ []) }
    ensures early { OnOk result (option_copied before.entry ≡ None → early.new.items ≡ early.old.items ++ answered ∷ []) }
    ensures added { OnOk result (HasAdded closure.old closure.new (more_rules (option_copied before.entry) (named (reply_of answered)) (map reply_of early.old.items) (reply_of answered))) }
    ensures err { OnErr result ((closure.new ≡ closure.old) × (told.new.items ≡ told.old.items) × (early.new.items ≡ early.old.items)) }
{
    let followed = follow_with_room(alloc, closure, before, told, early, &answered);
    match followed {
        Ok(default) => {
            note(told, &answered);
            keep(before, early, answered);
            Ok(default)
        }
        Err(error) => {
            drop(answered);
            Err(error)
        }
    }
}

/// Which units are reached and which labels are generated over the answers of units that were added. It keeps the facts that hold
/// over them, in the order in which they were found, and of the answers what contracts see. Each answer is looked at once, and so
/// is each edge.
#[derive(Drop)]
pub struct Graph {
    alloc: Global,
    // The answers, as contracts see them. They take no memory.
    told: Vec<Snapshot<Answered>>,
    // The answers whose rules wait for the default toolchain, as long as it isn't known.
    early: Vec<Answered>,
    default: Option<DefaultToolchain>,
    closure: Closure,
    counts: Counts,
}

impl Model for Graph {
    ghost use Rattle.gn_graph.specs.Graphs.{Answers};
    ghost use Rattle.gn_graph.specs.Over.{answers_in, IsOver};

    ghost Value = { Answers };

    ghost view = { answers_in };

    ghost invariant = { IsOver };
}

fn all_counted(closure: &Closure) -> Counts
    ensures counts { AreCounts closure.now.found result }
    ensures all { length closure.now.found ≤ result.seen }
{
    counted(
        closure,
        Counts {
            seen: 0,
            loads: 0,
            setups: 0,
        },
    )
}

// The default toolchain's build configuration is reached.
const FIRST: Rule<'static> = Rule {
    needs: Needs::Nothing,
    gives: Mention::ReachedFirst,
};

fn first_added(alloc: Global) -> Result<Closure, AllocError>
    ensures added { IfOk result (λ closure. HasAdded (record { waiting = []; found = [] }) closure start_rules) }
{
    let mut closure = Closure::new(alloc);
    match closure.add(&[UnitRules::Plain(FIRST)]) {
        Ok(()) => Ok(closure),
        Err(error) => {
            drop(closure);
            Err(error)
        }
    }
}

fn started(alloc: Global) -> Result<Closure, AllocError>
    ensures whole { IfOk result (IsWhole start_rules) }
{
    first_added(alloc)
}

/// The graph over no answers: the default toolchain's build configuration is reached.
pub fn start_graph(alloc: Global) -> Result<Graph, AllocError>
    ensures { IfOk result (λ graph. graph.replies ≡ []) }
{
    let closure = started(alloc)?;
    let counts = all_counted(&closure);
    Ok(Graph {
        alloc,
        told: Vec::new(alloc),
        early: Vec::new(alloc),
        default: None,
        closure,
        counts,
    })
}

impl Graph {
    /// Adds the answer of a unit: what it says it needs, where it is done, and None where it is wrong or spoiled. Answers may
    /// come in any order. What was found stays in its place, and what the answer adds stands behind it. After want of memory
    /// nothing is changed, and the answer is dropped.
    pub fn add_answer(&mut self, unit: UnitKey, needs: Option<UnitNeeds>) -> Result<(), AllocError>
        requires { units_in self.old.replies (unit_of unit) ≡ None }
        ensures answers { OnOk result (self.new.replies ≡ self.old.replies ++ reply (unit_of unit) (done_in needs) ∷ []) }
        ensures found { OnOk result (IsMore self.old.found self.new.found) }
        ensures err { OnErr result (self.new ≡ self.old) }
    {
        let default = take(
            self.alloc,
            &mut self.closure,
            self.default.as_ref(),
            &mut self.told,
            &mut self.early,
            Answered { unit, needs },
        )?;
        self.counts = counted(&self.closure, self.counts);
        set_default(&mut self.default, default);
        Ok(())
    }

    /// How many facts hold over the answers. It takes no memory.
    pub fn len(&self) -> usize
        ensures len { result ≡ length self.now.found }
        ensures small { result < 2 ^ 63 }
        ensures whole { (f : Held) → In self.now.found (Holding f) ↔ Holds home (units_in self.now.replies) f }
    {
        self.closure.len()
    }

    /// The fact of a number among those that hold over the answers, in the order in which they were found. None comes exactly
    /// where there are no more. Which facts hold is the least set under the rules of loading: a unit is reached or a label
    /// generated exactly where that fact is found, and each is found once. It takes no memory.
    pub fn found(&self, n: usize) -> Option<&Fact>
        ensures fact { option_map (λ fact. step_of fact.now) result ≡ slice_get self.now.found n }
        ensures whole { (f : Held) → In self.now.found (Holding f) ↔ Holds home (units_in self.now.replies) f }
        ensures computed { (IsTooLarge home (units_in self.now.replies) → ⊥) → (f : Held) → In self.now.found (Holding f) ↔ (holds_in home (units_in self.now.replies) f ≡ true) }
        ensures once { IsTable self.now.found }
    {
        self.closure.found(n)
    }

    /// Whether more than 1,048,576 build files, each counted under each of its toolchains, or more than 256 build
    /// configurations are reached. It takes no memory and no time.
    pub fn is_too_large(&self) -> bool
        ensures { result ≡ is_too_large home (units_in self.now.replies) }
    {
        exceed(self.counts)
    }
}
