// Names that one place alone may use: a fault at each use of a name but the first one.

ghost use Rattle.std.specs.Prelude.{◌≡◌, ◌++◌, ◌∷◌, [], ◌||◌, List, ℕ, None, IfOk, OnOk, map, if◌then◌else◌};
ghost use Rattle.std.specs.List.{filter};
ghost use Rattle.std.specs.Str.{bytes_eq};
ghost use Rattle.gn_file_faults.specs.Uses.{is_before, is_earlier, earlier, first_from, first_in, is_again_in, again_faults, use_fault, meant};

use gn_faults::{Code, Fault, Stage};
use gn_paths::{Place, Text, Texts};
use indexmap::IndexMap;
use std::alloc::{AllocError, Global};

/// A place that uses a name which one place alone may use.
#[derive(Clone, Copy)]
pub(crate) struct NameUse<'a> {
    /// The name.
    pub(crate) name: &'a Text,
    /// The toolchain of the execution; the empty text for the default one.
    pub(crate) toolchain: &'a [u8],
    /// The place.
    pub(crate) place: &'a Place,
    /// What tells it from uses that are else alike: the lesser number stands first.
    pub(crate) number: usize,
    /// Whether something else has the name.
    pub(crate) is_taken: bool,
}

// Whether a use stands before another.
fn is_before(one: &NameUse<'_>, other: &NameUse<'_>) -> bool
    ensures { result ≡ is_before (meant one.now) (meant other.now) }
{
    let toolchains = one.toolchain.cmp(other.toolchain);
    let places = one.place.cmp(other.place);
    toolchains
        .then(places.then(one.number.cmp(&other.number)))
        .is_lt()
}

// Whether a use stands before those of its name so far.
fn is_first<'a>(firsts: &IndexMap<&'a Text, NameUse<'a>>, one: &NameUse<'a>) -> bool
    ensures { result ≡ is_earlier (first_in firsts.now one.now.name.now) (meant one.now) }
{
    match firsts.get(&one.name) {
        Some(first) => is_before(one, first),
        None => true,
    }
}

// Puts a use down, where it stands before those of its name so far.
fn put_first<'a>(
    firsts: &mut IndexMap<&'a Text, NameUse<'a>>,
    one: &NameUse<'a>,
) -> Result<(), AllocError>
    ensures { OnOk result ((name : List ℕ) → first_in firsts.new name
        ≡ (if bytes_eq one.now.name.now name then earlier (first_in firsts.old name) (meant one.now) else first_in firsts.old name)) }
{
    if is_first(firsts, one) {
        firsts.insert(one.name, *one)?;
    }
    Ok(())
}

// The first use of each name.
fn firsts_of<'a>(
    alloc: Global,
    uses: &[NameUse<'a>],
) -> Result<IndexMap<&'a Text, NameUse<'a>>, AllocError>
    ensures { IfOk result (λ firsts. (name : List ℕ) → first_in firsts name ≡ first_from name None (map meant uses.now)) }
{
    let mut firsts = IndexMap::new(alloc);
    for one in uses {
        put_first(&mut firsts, one)?;
    }
    Ok(firsts)
}

// Whether a use is one too many: its name is taken, or it stands behind the first one of its name.
fn is_again<'a>(firsts: &IndexMap<&'a Text, NameUse<'a>>, one: &NameUse<'a>) -> bool
    ensures { result ≡ is_again_in firsts.now (meant one.now) }
{
    if one.is_taken {
        return true;
    }
    match firsts.get(&one.name) {
        Some(first) => is_before(first, one),
        None => false,
    }
}

// The fault of a use.
fn use_fault(alloc: Global, code: Code, one: &NameUse<'_>) -> Result<Fault, AllocError>
    ensures { IfOk result (λ f. f ≡ use_fault code (meant one.now)) }
{
    let mut detail = Texts::new(alloc);
    detail.push(one.name.copy(alloc)?)?;
    let place = one.place.copy(alloc)?;
    Ok(Fault {
        stage: Stage::Graph,
        place: Some(place),
        toolchain: Text::from_bytes(alloc, one.toolchain)?,
        code,
        detail,
    })
}

// Puts the fault of a use behind the others.
fn push_fault(
    alloc: Global,
    faults: &mut Vec<Fault>,
    code: Code,
    one: &NameUse<'_>,
) -> Result<(), AllocError>
    ensures { OnOk result (faults.new.items ≡ faults.old.items ++ use_fault code (meant one.now) ∷ []) }
{
    faults.push(use_fault(alloc, code, one)?)?;
    Ok(())
}

// Puts the faults of the uses that are one too many behind the others, by the first use of each name.
fn push_again<'a>(
    alloc: Global,
    faults: &mut Vec<Fault>,
    code: Code,
    firsts: &IndexMap<&'a Text, NameUse<'a>>,
    uses: &[NameUse<'a>],
) -> Result<(), AllocError>
    ensures { OnOk result (faults.new.items ≡ faults.old.items ++ map (use_fault code) (filter (is_again_in firsts.now) (map meant uses.now))) }
{
    for one in uses {
        if is_again(firsts, one) {
            push_fault(alloc, faults, code, one)?;
        }
    }
    Ok(())
}

/// Puts the faults of the uses that are one too many behind the others, in their order: each whose name is taken, and each but the
/// first one of a name. It looks each name up among the names.
pub(crate) fn add_again(
    alloc: Global,
    faults: &mut Vec<Fault>,
    code: Code,
    uses: &[NameUse<'_>],
) -> Result<(), AllocError>
    ensures { OnOk result (faults.new.items ≡ faults.old.items ++ again_faults code (map meant uses.now)) }
{
    let firsts = firsts_of(alloc, uses)?;
    push_again(alloc, faults, code, &firsts, uses)
}
