//! Two premises whose variables are kept apart.
ghost use Rattle.std.specs.Prelude.{◌≡◌, IfSome};
ghost use Rattle.spl_terms.specs.InOrder.{IsInOrder, variables};
ghost use Rattle.calculus.specs.Inferences.{clause_of};
ghost use Rattle.superposition.specs.Pairs.{IsPair};

use calculus::Kept;

/// Two premises, how many variables the first one has, and how many both have.
#[derive(Clone, Copy, Debug)]
pub(crate) struct Pair<'a> {
    /// The first premise.
    pub(crate) p: &'a Kept,
    /// The second one, whose variables are raised.
    pub(crate) q: &'a Kept,
    /// By how many they are raised.
    pub(crate) first: u32,
    /// How many variables both have.
    pub(crate) both: u32,
}

impl<'a> Pair<'a> {
    /// The premises with these numbers of variables; none where both have more than a number can say.
    pub(crate) fn new(p: &'a Kept, first: u32, q: &'a Kept, second: u32) -> Option<Pair<'a>>
        requires p_in_order { IsInOrder (clause_of p.now) }
        requires q_in_order { IsInOrder (clause_of q.now) }
        requires first { first ≡ variables (clause_of p.now) }
        requires second { second ≡ variables (clause_of q.now) }
        ensures { IfSome result (λ pair. (pair.p.now ≡ p.now) × (pair.q.now ≡ q.now) × IsPair pair) }
    {
        let both = first.checked_add(second)?;
        Some(Pair { p, q, first, both })
    }
}
