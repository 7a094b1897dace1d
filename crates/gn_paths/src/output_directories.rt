// The directories of objects and of generated files that stand for a directory.

ghost use Rattle.std.specs.Prelude.{◌≡◌, ◌++◌, ◌∷◌, [], IfOk, OnOk};
ghost use Rattle.std.specs.List.{filter};
ghost use Rattle.gn_paths.specs.Components.{trail};
ghost use Rattle.gn_paths.specs.Normal.{IsNormal};
ghost use Rattle.gn_paths.specs.Directory.{leads_down, IsOutputName, output_directory, obj_directory_of, gen_directory_of};
ghost use Rattle.gn_paths.specs.Rebase.{IsTrail, parts};

use crate::components::{leads_down, without_final_slash};
use crate::path::Path;
use crate::rebasing::{split_first, trail_of};
use crate::resolving::append_piece;
use crate::text::Text;
use std::alloc::{AllocError, Global};

/// The directory of objects that stands for `directory` below the output directory `out`: `//out/obj/a` for `//a`,
/// `//out/obj/usr` for the system directory `/usr`, `//out/obj` for `//` and `/`. It has no final slash, and empty,
/// `.` and `..` components of a system directory fall away.
pub fn obj_directory(alloc: Global, out: &Path, directory: &Path) -> Result<Path, AllocError>
    ensures { IfOk result (λ d. d ≡ obj_directory_of out.now directory.now) }
{
    let text = output_text(alloc, b"obj", out, directory)?;
    Ok(Path::from_normal(Text::from_vec(text)))
}

/// The directory of generated files that stands for `directory` below the output directory `out`, as `obj_directory`
/// is that of objects: `//out/gen/a` for `//a`.
pub fn gen_directory(alloc: Global, out: &Path, directory: &Path) -> Result<Path, AllocError>
    ensures { IfOk result (λ d. d ≡ gen_directory_of out.now directory.now) }
{
    let text = output_text(alloc, b"gen", out, directory)?;
    Ok(Path::from_normal(Text::from_vec(text)))
}

// The directory below the output directory takes no more bytes (`//`, `/obj` and `/` of the three).
fn most_bytes(out: &Path, directory: &Path) -> usize {
    out.as_bytes()
        .len()
        .saturating_add(directory.as_bytes().len())
        .saturating_add(8)
}

fn output_text(
    alloc: Global,
    name: &[u8],
    out: &Path,
    directory: &Path,
) -> Result<Vec<u8>, AllocError>
    requires { IsOutputName name.now }
    ensures value { IfOk result (λ text. text.items ≡ output_directory name.now out.now directory.now) }
    ensures normal { IfOk result (λ text. IsNormal text.items) }
{
    let mut text = Vec::with_capacity(alloc, most_bytes(out, directory))?;
    text.extend_from_slice(without_final_slash(out.as_bytes()))?;
    append_piece(&mut text, name)?;
    append_down(&mut text, trail_of(directory.as_bytes()))?;
    Ok(text)
}

// Puts the components that lead down at the end, each behind a slash.
fn append_down(text: &mut Vec<u8>, path: &[u8]) -> Result<(), AllocError>
    requires { IsTrail path.now }
    ensures { OnOk result (text.new.items ≡ text.old.items ++ trail (filter leads_down (parts path.now))) }
{
    let mut rest = path;
    'components: loop {
        if rest.is_empty() {
            return Ok(());
        }
        let (first, more) = split_first(rest);
        append_if_down(text, first)?;
        rest = more;
    }
}

#[tactic(auto, using(crate::proofs::OutputLemmas::trail_one, crate::proofs::OutputLemmas::append_none))]
fn append_if_down(text: &mut Vec<u8>, component: &[u8]) -> Result<(), AllocError>
    ensures { OnOk result (text.new.items ≡ text.old.items ++ trail (filter leads_down (component.now ∷ []))) }
{
    if leads_down(component) {
        append_piece(text, component)?;
    }
    Ok(())
}
