// The walked labels that may be placed next, in label order.

ghost use Rattle.std.specs.Prelude.{◌≡◌, ℕ, ◌<◌, ◌∷◌, [], length, IfOk, OnOk, IfSome, IfNone, true, false, cond, nat_eq, ◌&&◌};
ghost use Rattle.std.specs.BTreeMap.{get};
ghost use Rattle.std.specs.BTreeSet.{contains};
ghost use Rattle.std.specs.Ordering.{is_eq, is_gt, nat_cmp};
ghost use Rattle.gn_chains.specs.declared.candidates.Candidate.{Candidate as Listed};
ghost use Rattle.gn_chains.specs.Numbers.{among};
ghost use Rattle.gn_chains.specs.Counts.{is_zero, numbers};
ghost use Rattle.gn_chains.specs.Candidates.{candidate_at, AreCandidates, IsOffered, IsTaken};

use crate::counts::{Counts, is_zero};
use gn_labels::{Label, LabelKey, keys_are_in_label_order};
use gn_paths::Text;
use std::alloc::{AllocError, Global};
use std::collections::BTreeSet;

// A walked label all of whose dependents are placed: where it stands in label order, and its number.
#[derive(Drop, PartialEq, Eq, PartialOrd, Ord)]
pub(crate) struct Candidate {
    pub(crate) key: LabelKey,
    pub(crate) number: usize,
}

pub(crate) type Candidates = BTreeSet<Candidate>;

// The candidate of a number.
fn candidate_of(
    alloc: Global,
    default: &Text,
    walked: &[Label],
    number: usize,
) -> Result<Candidate, AllocError>
    requires { number < length walked.now }
    ensures { IfOk result (λ c. c ≡ candidate_at default.now walked.now number) }
{
    let label = walked[number].copy(alloc)?;
    Ok(Candidate {
        key: LabelKey::new(label, default),
        number,
    })
}

// Puts a number with the candidates.
fn put(
    alloc: Global,
    default: &Text,
    walked: &[Label],
    candidates: &mut Candidates,
    number: usize,
) -> Result<(), AllocError>
    requires { number < length walked.now }
    ensures { OnOk result (IsOffered ⟦<Candidate as Ord>⟧.cmp default.now walked.now (λ q. nat_eq q number) candidates.old candidates.new) }
{
    keys_are_in_label_order();
    let candidate = candidate_of(alloc, default, walked, number)?;
    candidates.insert(candidate)?;
    Ok(())
}

// Puts a number with the candidates if nothing that isn't placed depends on it.
fn offer_one(
    alloc: Global,
    default: &Text,
    walked: &[Label],
    counts: &Counts,
    candidates: &mut Candidates,
    number: usize,
) -> Result<(), AllocError>
    requires { number < length walked.now }
    ensures { OnOk result (IsOffered ⟦<Candidate as Ord>⟧.cmp default.now walked.now
        (λ q. nat_eq q number && is_zero (get nat_cmp counts.now q)) candidates.old candidates.new) }
{
    if is_zero(counts, number) {
        put(alloc, default, walked, candidates, number)?;
    }
    Ok(())
}

// Puts those of the numbers with the candidates on which nothing depends that isn't placed.
pub(crate) fn offer(
    alloc: Global,
    default: &Text,
    walked: &[Label],
    counts: &Counts,
    candidates: &mut Candidates,
    list: &[usize],
) -> Result<(), AllocError>
    requires { (q : ℕ) → among list.now q ≡ true → q < length walked.now }
    ensures { OnOk result (IsOffered ⟦<Candidate as Ord>⟧.cmp default.now walked.now
        (λ q. among list.now q && is_zero (get nat_cmp counts.now q)) candidates.old candidates.new) }
{
    for number in list {
        offer_one(alloc, default, walked, counts, candidates, *number)?;
    }
    Ok(())
}

// The same of all numbers.
pub(crate) fn offer_all(
    alloc: Global,
    default: &Text,
    walked: &[Label],
    counts: &Counts,
    candidates: &mut Candidates,
) -> Result<(), AllocError>
    ensures { OnOk result (IsOffered ⟦<Candidate as Ord>⟧.cmp default.now walked.now
        (λ q. among (numbers (length walked.now)) q && is_zero (get nat_cmp counts.now q)) candidates.old candidates.new) }
{
    for number in 0..walked.len() {
        offer_one(alloc, default, walked, counts, candidates, number)?;
    }
    Ok(())
}

// The first of the candidates, which is taken out.
fn first_of(candidates: &mut Candidates) -> Option<Candidate>
    ensures none { IfNone result (candidates.old.keys ≡ []) }
    ensures keys { IfSome result (λ c. candidates.old.keys ≡ c ∷ candidates.new.keys) }
    ensures member { IfSome result (λ c. contains ⟦<Candidate as Ord>⟧.cmp candidates.old c ≡ true) }
    ensures least { IfSome result (λ c. (d : Listed) → contains ⟦<Candidate as Ord>⟧.cmp candidates.old d ≡ true
        → is_gt (⟦<Candidate as Ord>⟧.cmp c d) ≡ false) }
    ensures rest { IfSome result (λ c. (d : Listed) → contains ⟦<Candidate as Ord>⟧.cmp candidates.new d
        ≡ cond (is_eq (⟦<Candidate as Ord>⟧.cmp c d)) false (contains ⟦<Candidate as Ord>⟧.cmp candidates.old d)) }
{
    candidates.pop_first()
}

// Takes the first of the candidates out.
pub(crate) fn take_first(candidates: &mut Candidates) -> Option<usize>
    ensures { IsTaken ⟦<Candidate as Ord>⟧.cmp candidates.old candidates.new result }
{
    match first_of(candidates) {
        None => None,
        Some(first) => Some(first.number),
    }
}
