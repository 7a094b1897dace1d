// The codes of faults.

ghost use Rattle.std.specs.Prelude.{◌≡◌, ◌≤◌, ◌==◌};
ghost use Rattle.std.proofs.Common.{rules};
ghost use Rattle.std.specs.Cmp.{partial_order_from_own_ties};
ghost use Rattle.std.specs.Cmp.Rules.{comparing};
ghost use Rattle.std.specs.Ordering.{nat_cmp, on, as_partial_cmp};
ghost use Rattle.gn_faults.specs.Numbers.{code_number};

use std::cmp::Ordering;

/// The code of a fault, which has one number and one text. The details are the texts that the fault's text shows.
#[derive(Clone, Copy, Debug)]
pub enum Code {
    /// A byte where no token begins.
    BadByte = 1,
    /// Digits that are no integer.
    BadNumber = 2,
    /// A string without its closing quote.
    OpenString = 3,
    /// A `$` in a string that begins neither an escape nor an expansion.
    BadDollar = 4,
    /// A path whose `..` lead above the source root.
    AboveRoot = 5,
    /// A text that is no path.
    BadPath = 6,
    /// A token that can't stand at its place.
    Unexpected = 7,
    /// Brackets and operators nested deeper than the limit.
    TooDeep = 8,
    /// A text that is no label.
    BadLabel = 9,
    /// A text that is no pattern of labels.
    BadPattern = 10,
    /// A `{{` without the name of a substitution of its position and `}}`.
    UnknownSubstitution = 11,
    /// A value of a type that an operator or a call doesn't take.
    BadTypes = 12,
    /// A sum or a difference outside signed 64 bits.
    Overflow = 13,
    /// An item to be taken away that the list lacks.
    NotInList = 14,
    /// A subscript that no item of the list has.
    BadIndex = 15,
    /// A value longer or deeper than values may be.
    TooLong = 16,
    /// A name without a value. Detail: the name.
    Undefined = 17,
    /// A nonempty list or scope that a nonempty one would replace. Detail: the name.
    Overwrite = 18,
    /// An import that brings another value for a name that is set. Detail: the name.
    Conflict = 19,
    /// A value that nothing reads. Detail: the name.
    NoEffect = 20,
    /// A name that is given again in a scope that has it, and not by an assignment. Detail: the name.
    AlreadySet = 21,
    /// A build argument that is declared twice. Detail: the name.
    DuplicateArgument = 22,
    /// A condition whose value is no boolean.
    NotBoolean = 23,
    /// A call of no function. Detail: the name.
    UnknownFunction = 24,
    /// A call with a wrong number of arguments, or with a value that it doesn't take. Detail: the name.
    BadArguments = 25,
    /// Calls and blocks that run deeper within one another than the limit.
    Nesting = 26,
    /// An `assert` whose condition is false. Detail: the message, if there is one.
    AssertFailed = 27,
    /// A name that GN has and this program leaves out. Detail: the name.
    Excluded = 28,
    /// A variable of an item with a value of another type. Detail: the name.
    WrongType = 29,
    /// A variable or a call that has to be there and isn't, or is empty. Detail: the name.
    Missing = 30,
    /// A label that two items have, or a tool that a toolchain has twice. Detail: the label, or the name of the tool.
    DuplicateItem = 31,
    /// A name that can't stand at its place. Detail: the name.
    NotAllowedHere = 32,
    /// A label without an item. Details: the label that needs it, or for the default toolchain the path of the build
    /// configuration; and the label, or the name of a tool.
    Unresolved = 33,
    /// A label of an item of another kind than is needed. Details: the label that names it, and the label.
    WrongKind = 34,
    /// Dependencies in a circle. Details: its labels in order, the first one again at the end.
    Cycle = 35,
    /// A dependency or a configuration whose visibility forbids it. Details: the label that needs it, and its label.
    Invisible = 36,
    /// A dependency of what isn't testonly on what is. Details: the label that depends, and the other.
    TestOnly = 37,
    /// A target that reaches what its `assert_no_deps` forbids. Details: its label, and the other.
    AssertNoDeps = 38,
    /// An output that is made twice. Detail: the path.
    SameOutput = 39,
    /// A file that is both loaded as a build file and imported. Detail: the path.
    ImportedBuildFile = 40,
    /// A question for a label without an item. Detail: the label.
    UnknownLabel = 41,
    /// A question for a path of dependencies where there is none. Details: its two labels.
    NoPath = 42,
    /// An include of a file that the target's dependencies don't offer. Details: the path, and the target's label.
    BadInclude = 43,
    /// A source file that isn't there. Detail: the path.
    NoSourceFile = 44,
    /// Imports in a circle.
    ImportCycle = 45,
    /// A build beyond a limit.
    TooLarge = 46,
    /// A file that isn't there. Detail: the path.
    NoFile = 47,
    /// A file longer than the limit. Detail: the path.
    FileTooBig = 48,
}

impl Code {
    /// The number of the code, from 1 to 48.
    #[tactic(auto, unfolding(crate::specs::Numbers::code_number))]
    pub fn number(self) -> u8
        ensures number { result ≡ code_number self }
        ensures range { (1 ≤ result) × (result ≤ 48) }
    {
        self as u8
    }
}

impl PartialEq for Code {
    ghost eq = { on code_number ◌==◌ };

    ghost laws = { Prim.search (comparing, rules) };

    fn eq(&self, other: &Code) -> bool {
        self.number() == other.number()
    }
}

impl Eq for Code {
    ghost laws = { Prim.search (comparing, rules) };
}

impl PartialOrd for Code {
    ghost partial_cmp = { as_partial_cmp (on code_number nat_cmp) };

    ghost laws = { partial_order_from_own_ties (Prim.search (comparing, rules)) (Prim.search (comparing, rules)) };

    fn partial_cmp(&self, other: &Code) -> Option<Ordering> {
        Some(self.cmp(other))
    }
}

impl Ord for Code {
    ghost cmp = { on code_number nat_cmp };

    ghost total = { Prim.search (comparing, rules) };

    ghost matches_partial_cmp = { Prim.search (comparing, rules) };

    ghost matches_eq = { Prim.search (comparing, rules) };

    fn cmp(&self, other: &Code) -> Ordering {
        self.number().cmp(&other.number())
    }
}
