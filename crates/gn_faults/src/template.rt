// The texts of codes.

ghost use Rattle.std.specs.Prelude.{◌≡◌};
ghost use Rattle.gn_faults.specs.Texts.{template};

use crate::code::Code;

impl Code {
    // The text of the code, where each `%` stands for a detail.
    #[tactic(auto, unfolding(crate::specs::Texts::template))]
    pub(crate) fn template(self) -> &'static [u8]
        ensures { result.now ≡ template self }
    {
        match self {
            Code::BadByte => b"Invalid token.",
            Code::BadNumber => b"Invalid number.",
            Code::OpenString => b"Unterminated string literal.",
            Code::BadDollar => b"Invalid expansion in string.",
            Code::AboveRoot => b"Path is above the source root.",
            Code::BadPath => b"Invalid path.",
            Code::Unexpected => b"Unexpected token.",
            Code::TooDeep => b"Nesting is too deep.",
            Code::BadLabel => b"Invalid label.",
            Code::BadPattern => b"Invalid pattern.",
            Code::UnknownSubstitution => b"Unknown substitution.",
            Code::BadTypes => b"Wrong type of value.",
            Code::Overflow => b"Integer overflow.",
            Code::NotInList => b"Item not found in the list.",
            Code::BadIndex => b"Index out of range.",
            Code::TooLong => b"Value is too long.",
            Code::Undefined => b"Undefined identifier \"%\".",
            Code::Overwrite => b"Replacing nonempty list or scope \"%\".",
            Code::Conflict => b"Value collision on import: \"%\".",
            Code::NoEffect => b"Assignment had no effect: \"%\".",
            Code::AlreadySet => b"\"%\" is already set.",
            Code::DuplicateArgument => b"Duplicate build argument \"%\".",
            Code::NotBoolean => b"Condition is not a boolean.",
            Code::UnknownFunction => b"Unknown function \"%\".",
            Code::BadArguments => b"Wrong arguments to \"%\".",
            Code::Nesting => b"Evaluation is nested too deeply.",
            Code::AssertFailed => b"Assertion failed.",
            Code::Excluded => b"\"%\" is not in this profile.",
            Code::WrongType => b"Wrong type for \"%\".",
            Code::Missing => b"\"%\" is missing.",
            Code::DuplicateItem => b"Duplicate item \"%\".",
            Code::NotAllowedHere => b"\"%\" is not allowed here.",
            Code::Unresolved => b"\"%\" needs \"%\", which is not defined.",
            Code::WrongKind => b"\"%\" names \"%\", which is of another kind.",
            Code::Cycle => b"Dependency cycle: ",
            Code::Invisible => b"\"%\" may not depend on \"%\" (visibility).",
            Code::TestOnly => b"\"%\" may not depend on \"%\" (testonly).",
            Code::AssertNoDeps => b"\"%\" must not reach \"%\".",
            Code::SameOutput => b"Output \"%\" is made twice.",
            Code::ImportedBuildFile => b"\"%\" is both loaded and imported.",
            Code::UnknownLabel => b"No such item: %",
            Code::NoPath => b"No path between % and %",
            Code::BadInclude => b"Include of \"%\" is not allowed from \"%\".",
            Code::NoSourceFile => b"Source file \"%\" is missing.",
            Code::ImportCycle => b"Import cycle.",
            Code::TooLarge => b"The build is larger than a limit.",
            Code::NoFile => b"No such file \"%\".",
            Code::FileTooBig => b"File \"%\" is too big.",
        }
    }
}
