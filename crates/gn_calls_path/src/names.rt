// What calls can be asked of paths and labels.

ghost use Rattle.std.specs.Prelude.{◌≡◌};
ghost use Rattle.gn_calls_path.specs.Names.{path_info_of, label_info_of};

use gn_paths::PathPart;

/// What `get_path_info` can be asked.
#[derive(Clone, Copy)]
pub(crate) enum PathInfo {
    /// `file`, `name`, `extension` and `dir`: a part of the text as it is given.
    Part(PathPart),
    /// `out_dir`: the obj directory of the path's directory.
    OutDir,
    /// `gen_dir`: the gen directory of the path's directory.
    GenDir,
    /// `abspath`: the path.
    AbsPath,
}

/// What `get_label_info` can be asked.
#[derive(Clone, Copy)]
pub(crate) enum LabelInfo {
    /// `name`.
    Name,
    /// `dir`: the directory, without a final slash.
    Directory,
    /// `target_out_dir`: the obj directory of the label's directory.
    TargetOutDir,
    /// `root_out_dir`: the output directory of the label's toolchain.
    RootOutDir,
    /// `target_gen_dir`: the gen directory of the label's directory.
    TargetGenDir,
    /// `root_gen_dir`: the directory of generated files of the label's toolchain.
    RootGenDir,
    /// `label_no_toolchain`.
    NoToolchain,
    /// `label_with_toolchain`, also where that is the default one.
    WithToolchain,
    /// `toolchain`.
    Toolchain,
}

impl PathInfo {
    /// What this name asks of a path.
    #[tactic(auto, unfolding(crate::specs::Names::path_info_of))]
    pub(crate) fn named(name: &[u8]) -> Option<PathInfo>
        ensures { result ≡ path_info_of name.now }
    {
        if name == b"file".as_slice() {
            Some(PathInfo::Part(PathPart::File))
        } else if name == b"name".as_slice() {
            Some(PathInfo::Part(PathPart::Name))
        } else if name == b"extension".as_slice() {
            Some(PathInfo::Part(PathPart::Extension))
        } else if name == b"dir".as_slice() {
            Some(PathInfo::Part(PathPart::Dir))
        } else if name == b"out_dir".as_slice() {
            Some(PathInfo::OutDir)
        } else if name == b"gen_dir".as_slice() {
            Some(PathInfo::GenDir)
        } else if name == b"abspath".as_slice() {
            Some(PathInfo::AbsPath)
        } else {
            None
        }
    }
}

impl LabelInfo {
    /// What this name asks of a label.
    #[tactic(auto, unfolding(crate::specs::Names::label_info_of))]
    pub(crate) fn named(name: &[u8]) -> Option<LabelInfo>
        ensures { result ≡ label_info_of name.now }
    {
        if name == b"name".as_slice() {
            Some(LabelInfo::Name)
        } else if name == b"dir".as_slice() {
            Some(LabelInfo::Directory)
        } else if name == b"target_out_dir".as_slice() {
            Some(LabelInfo::TargetOutDir)
        } else if name == b"root_out_dir".as_slice() {
            Some(LabelInfo::RootOutDir)
        } else if name == b"target_gen_dir".as_slice() {
            Some(LabelInfo::TargetGenDir)
        } else if name == b"root_gen_dir".as_slice() {
            Some(LabelInfo::RootGenDir)
        } else if name == b"label_no_toolchain".as_slice() {
            Some(LabelInfo::NoToolchain)
        } else if name == b"label_with_toolchain".as_slice() {
            Some(LabelInfo::WithToolchain)
        } else if name == b"toolchain".as_slice() {
            Some(LabelInfo::Toolchain)
        } else {
            None
        }
    }
}
