//! How many atoms another one may become, as far as symbols go: those with few candidates are mapped first.
ghost use Rattle.std.specs.Prelude.{◌≡◌, ℕ, ◌<◌, ◌++◌, true, false, count_by, IfOk};
ghost use Rattle.spl_terms.specs.declared.term.Term.{Term};
ghost use Rattle.spl_truth.specs.Redundancy.{MapsApart};
ghost use Rattle.subsume.specs.Candidates.{may_become_atom};
ghost use Rattle.subsume.specs.Placing.{plain, to_map};

use crate::atoms::AtomToMap;
use spl_terms::Atom;
use std::alloc::AllocError;
use unify::{all_cover, covers};

/// Whether an instance of the atom may be the same as the other one, as far as symbols go.
fn may_become(atom: &Atom, other: &Atom) -> bool
    ensures { result ≡ may_become_atom atom.now other.now }
{
    match (atom, other) {
        (Atom::Holds(predicate, args), Atom::Holds(other, others)) => {
            predicate.same(*other) && all_cover(args.as_slice(), others.as_slice())
        }
        (Atom::Equal(left, right), Atom::Equal(to_left, to_right)) => {
            covers(left, to_left) && covers(right, to_right)
                || covers(left, to_right) && covers(right, to_left)
        }
        _ => false,
    }
}

/// How many of the targets the atom may become.
fn candidates(atom: &Atom, targets: &[Atom]) -> usize
    ensures { result ≡ count_by (may_become_atom atom.now) targets.now }
{
    targets
        .iter()
        .filter(|target| may_become(atom, target))
        .count()
}

/// Adds the atoms, to be mapped to the targets, whose first has this number among all atoms of their clause. It answers
/// false where an atom has no candidate, so that the atoms can't be mapped. The only error is want of memory.
pub(crate) fn add_atoms<'a>(
    atoms: &'a [Atom],
    targets: &'a [Atom],
    first: usize,
    list: &mut Vec<AtomToMap<'a>>,
) -> Result<bool, AllocError>
    ensures added { IfOk result (λ yes. yes ≡ true
        → plain list.new.items ≡ plain list.old.items ++ to_map atoms.now targets.now first) }
    ensures none { IfOk result (λ yes. yes ≡ false → (g : ℕ → Term) → MapsApart g atoms.now targets.now → ⊥) }
{
    for atom in atoms {
        let candidates = candidates(atom, targets);
        if candidates == 0 {
            return Ok(false);
        }
        list.push(AtomToMap {
            atom,
            targets,
            first,
            candidates,
            symbols: atom.symbols(),
        })?;
    }
    Ok(true)
}
