// Patterns of labels.

ghost use Rattle.std.specs.Prelude.{◌≡◌, IfOk};
ghost use Rattle.gn_labels.specs.Patterns.{pattern_under, has_label, has_toolchain, is_within, matches};

use crate::label::Label;
use crate::named::Named;
use gn_paths::{Path, Text};
use std::alloc::{AllocError, Global};

/// Which directories and names a pattern has.
#[derive(Debug, Drop, PartialEq, Eq)]
pub enum Extent {
    /// One name in one directory.
    Exact(Named),
    /// All names of a directory.
    Directory(Path),
    /// All names of a directory and of all below it.
    Below(Path),
    /// All labels.
    All,
}

impl Extent {
    /// A new extent equal to this one.
    pub fn copy(&self, alloc: Global) -> Result<Extent, AllocError>
        ensures { IfOk result (λ e. e ≡ self.now) }
    {
        match self {
            Extent::Exact(part) => Ok(Extent::Exact(part.copy(alloc)?)),
            Extent::Directory(dir) => Ok(Extent::Directory(dir.copy(alloc)?)),
            Extent::Below(dir) => Ok(Extent::Below(dir.copy(alloc)?)),
            Extent::All => Ok(Extent::All),
        }
    }
}

/// A pattern: which labels it matches, and the text that it was read from.
#[derive(Debug, Drop, PartialEq, Eq)]
pub struct Pattern {
    /// The directories and names.
    pub extent: Extent,
    /// The toolchain, spelled `//dir:name`; without one every toolchain matches.
    pub toolchain: Option<Text>,
    text: Text,
}

impl Pattern {
    // A pattern of these parts, which was read from `text`.
    pub(crate) fn new(extent: Extent, toolchain: Option<Text>, text: Text) -> Pattern
        ensures { result ≡ pattern_under text extent toolchain }
    {
        Pattern {
            extent,
            toolchain,
            text,
        }
    }

    /// The text that the pattern was read from.
    pub fn text(&self) -> &Text
        ensures { result.now ≡ self.now.text }
    {
        &self.text
    }

    /// A new pattern equal to this one.
    pub fn copy(&self, alloc: Global) -> Result<Pattern, AllocError>
        ensures { IfOk result (λ p. p ≡ self.now) }
    {
        let text = self.text.copy(alloc)?;
        let toolchain = copy_toolchain(alloc, &self.toolchain)?;
        let extent = self.extent.copy(alloc)?;
        Ok(Pattern {
            extent,
            toolchain,
            text,
        })
    }

    /// Whether the pattern matches a label. It takes no memory.
    pub fn matches(&self, label: &Label) -> bool
        ensures { result ≡ matches self.now label.now }
    {
        has_label(&self.extent, label) && has_toolchain(&self.toolchain, &label.toolchain)
    }
}

fn copy_toolchain(alloc: Global, toolchain: &Option<Text>) -> Result<Option<Text>, AllocError>
    ensures { IfOk result (λ t. t ≡ toolchain.now) }
{
    match toolchain {
        Some(text) => Ok(Some(text.copy(alloc)?)),
        None => Ok(None),
    }
}

fn has_label(extent: &Extent, label: &Label) -> bool
    ensures { result ≡ has_label extent.now label.now }
{
    match extent {
        Extent::Exact(part) => label.dir == part.dir && label.name == part.name,
        Extent::Directory(dir) => label.dir == *dir,
        Extent::Below(dir) => is_within(dir, &label.dir),
        Extent::All => true,
    }
}

fn has_toolchain(own: &Option<Text>, toolchain: &Text) -> bool
    ensures { result ≡ has_toolchain own.now toolchain.now }
{
    match own {
        Some(own) => toolchain == own,
        None => true,
    }
}

// Whether a directory is another or stands below it.
fn is_within(outer: &Path, dir: &Path) -> bool
    ensures { result ≡ is_within outer.now dir.now }
{
    dir == outer || dir.is_below(outer)
}
