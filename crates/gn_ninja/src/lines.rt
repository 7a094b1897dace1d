// Lines of a Ninja file, whose texts are lent.

ghost use Rattle.std.specs.Prelude.{◌≡◌};
ghost use Rattle.gn_ninja.specs.Code.{bytes_of};

use gn_paths::{Text, Texts};
use gn_writing::{CopiedFiles, Runs};

/// Bytes that are the same in each file, or those of a text.
#[derive(Clone, Copy)]
pub(crate) enum Bytes<'a> {
    /// The same in each file.
    Fixed(&'a [u8]),
    /// A text.
    Of(&'a Text),
}

impl<'a> Bytes<'a> {
    /// The bytes.
    pub(crate) fn get(self) -> &'a [u8]
        ensures { result.now ≡ bytes_of self.entry }
    {
        match self {
            Bytes::Fixed(bytes) => bytes,
            Bytes::Of(text) => text.as_bytes(),
        }
    }
}

/// Paths of a part.
#[derive(Clone, Copy)]
pub(crate) enum Paths<'a> {
    /// One path.
    One(&'a Text),
    /// A list of paths.
    All(&'a Texts),
    /// What is copied.
    Copied(&'a CopiedFiles),
    /// What runs make.
    Runs(&'a Runs),
}

/// A build line. Each part is groups of paths, one group behind the other.
#[derive(Clone, Copy)]
pub(crate) struct Build<'a> {
    /// What it makes.
    pub outs: &'a [Paths<'a>],
    /// The rule.
    pub rule: Bytes<'a>,
    /// What it is made of.
    pub ins: &'a [Paths<'a>],
    /// What else it is made of.
    pub implicit: &'a [Paths<'a>],
    /// What is made before it.
    pub order: &'a [Paths<'a>],
}

/// What a variable is bound to.
#[derive(Clone, Copy)]
pub(crate) enum Value<'a> {
    /// Bytes.
    Plain(Bytes<'a>),
    /// A text, where there is one.
    PlainIf(&'a Option<Text>),
    /// Fixed bytes, where a text is there.
    FixedIf(&'a [u8], &'a Option<Text>),
    /// Words of a command, each behind a prefix.
    Words(&'a [u8], &'a Texts),
    /// Words of a command, where there are any.
    WordsIf(&'a Option<Texts>),
    /// A text as it stands in the file.
    Written(&'a Text),
    /// A text as it stands in the file, where it isn't empty.
    WrittenIf(&'a Text),
}

/// A variable and its value.
#[derive(Clone, Copy)]
pub(crate) struct Binding<'a> {
    /// The variable.
    pub name: &'a [u8],
    /// The value.
    pub value: Value<'a>,
}
