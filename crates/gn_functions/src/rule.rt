// What is judged of a call before its arguments.

ghost use Rattle.std.specs.Prelude.{◌≡◌, Some, None};
ghost use Rattle.gn_functions.specs.Rules.{rule_of, template_rule, takes, without_block, with_block};

use crate::function::{Changing, Function, Opening, Plain};
use gn_calls_path::PathCall;
use gn_calls_text::TextCall;
use gn_rows::ItemKind;

/// Where a function may be called.
#[derive(Clone, Copy)]
pub enum Allowed {
    /// Everywhere.
    Everywhere,
    /// Where an item of this kind may be defined: a tool in the block of a toolchain, all others in a build file, outside the
    /// blocks of other items.
    WhereItems(ItemKind),
    /// Where other files may be asked for: not in the dotfile, and not in the build arguments.
    WhereFiles,
    /// Where build arguments may be declared: where other files may be asked for, outside the blocks of items.
    WhereArguments,
    /// In the build configuration.
    InBuildConfiguration,
}

/// What is judged of a call before its arguments are evaluated, in this order: whether it is allowed where it stands, its
/// number of arguments and its block, and how deep it nests.
#[derive(Clone, Copy)]
pub struct Rule {
    /// How many arguments it takes at least.
    pub least: usize,
    /// How many arguments it takes at most, if there is a most.
    pub most: Option<usize>,
    /// Whether it takes a block; then it has to have one.
    pub block: bool,
    /// Whether it is an import, which may nest less deep than other calls.
    pub imports: bool,
    /// Where it may be called.
    pub allowed: Allowed,
}

// A function without a block.
fn without_block(least: usize, most: Option<usize>) -> Rule
    ensures { result ≡ without_block least most }
{
    Rule {
        least,
        most,
        block: false,
        imports: false,
        allowed: Allowed::Everywhere,
    }
}

// A function with a block.
fn with_block(count: usize, allowed: Allowed) -> Rule
    ensures { result ≡ record (with_block count) { allowed = allowed } }
{
    Rule {
        least: count,
        most: Some(count),
        block: true,
        imports: false,
        allowed,
    }
}

// A function that reads or writes a file, given its path and one value more.
fn of_files() -> Rule
    ensures { result ≡ record (without_block 2 (Some 2)) { allowed = Allowed.WhereFiles } }
{
    Rule {
        least: 2,
        most: Some(2),
        block: false,
        imports: false,
        allowed: Allowed::WhereFiles,
    }
}

impl Function {
    /// The rule of the function. It takes no memory.
    #[tactic(auto, unfolding(crate::specs::Rules::rule_of))]
    pub fn rule(self) -> Rule
        ensures { result ≡ rule_of self }
    {
        match self {
            Function::Plain(Plain::Assert) => without_block(1, Some(2)),
            Function::Plain(Plain::Print) => without_block(1, None),
            Function::Plain(Plain::WriteFile) => of_files(),
            Function::Plain(Plain::Text(TextCall::FilterExclude)) => without_block(2, Some(2)),
            Function::Plain(Plain::Text(TextCall::FilterInclude)) => without_block(2, Some(2)),
            Function::Plain(Plain::Text(TextCall::SplitList)) => without_block(2, Some(2)),
            Function::Plain(Plain::Text(TextCall::StringJoin)) => without_block(2, Some(2)),
            Function::Plain(Plain::Text(TextCall::StringReplace)) => without_block(3, Some(4)),
            Function::Plain(Plain::Text(TextCall::StringSplit)) => without_block(1, Some(2)),
            Function::Plain(Plain::Path(PathCall::GetLabelInfo)) => without_block(2, Some(2)),
            Function::Plain(Plain::Path(PathCall::GetPathInfo)) => without_block(2, Some(2)),
            Function::Plain(Plain::Path(PathCall::LabelMatches)) => without_block(2, Some(2)),
            Function::Plain(Plain::Path(PathCall::ProcessFileTemplate)) => {
                without_block(2, Some(2))
            }
            Function::Plain(Plain::Path(PathCall::RebasePath)) => without_block(1, Some(3)),
            Function::Plain(Plain::TargetOutputs) => without_block(1, Some(1)),
            Function::Changing(Changing::Import) => Rule {
                least: 1,
                most: Some(1),
                block: false,
                imports: true,
                allowed: Allowed::WhereFiles,
            },
            Function::Changing(Changing::Template) => with_block(1, Allowed::Everywhere),
            Function::Changing(Changing::ForwardVariablesFrom) => without_block(2, Some(3)),
            Function::Changing(Changing::NotNeeded) => without_block(1, Some(3)),
            Function::Changing(Changing::SetDefaultToolchain) => Rule {
                least: 1,
                most: Some(1),
                block: false,
                imports: false,
                allowed: Allowed::InBuildConfiguration,
            },
            Function::Opening(Opening::Item(kind)) => with_block(1, Allowed::WhereItems(kind)),
            Function::Opening(Opening::Target) => with_block(2, Allowed::Everywhere),
            Function::Opening(Opening::SetDefaults) => with_block(1, Allowed::Everywhere),
            Function::Opening(Opening::DeclareArguments) => with_block(0, Allowed::WhereArguments),
            Function::Defined => without_block(1, Some(1)),
            Function::Foreach => with_block(2, Allowed::Everywhere),
            Function::ReadFile => of_files(),
        }
    }
}

impl Rule {
    /// The rule of the calls of templates. It takes no memory.
    pub fn of_template() -> Rule
        ensures { result ≡ template_rule }
    {
        with_block(1, Allowed::Everywhere)
    }

    /// Whether a call may have so many arguments, with a block or without.
    #[tactic(auto, unfolding(crate::specs::Rules::takes))]
    pub fn takes(self, count: usize, has_block: bool) -> bool
        ensures { result ≡ takes self count has_block }
    {
        let enough = self.least <= count;
        let not_more = match self.most {
            Some(most) => count <= most,
            None => true,
        };
        enough && not_more && self.block == has_block
    }
}
