//! Sets of assumptions as ascending lists.
ghost use Rattle.std.specs.Prelude.{◌≡◌, ◌↔◌, IsTrue, ◌∷◌, ◌<◌, ◌^◌, ◌||◌, ◌&&◌, not, List, [], length, slice_get, IfOk, Some};
ghost use Rattle.dep_sets.specs.declared.deps.Assumption.{Assumption};
ghost use Rattle.dep_sets.specs.Assumptions.{IsAscending, contains_assumption, deepest_place, is_before, is_same_assumption, united, without_assumption};

use std::alloc::{AllocError, Global};
use std::marker::Model;

/// One side of a split: the clause with the number `split` (from 1) was split, and its side `side` (from 1) is assumed.
#[derive(Clone, Copy, PartialEq, Eq, Debug)]
pub struct Assumption {
    /// The number of the clause that was split, from 1.
    pub split: u32,
    /// The side that is assumed, from 1: 1 is the left part, 2 the right part.
    pub side: u32,
}

impl Assumption {
    /// Whether both are the same side of the same split.
    fn is_same(self, other: Assumption) -> bool
        ensures { result ≡ is_same_assumption self other }
    {
        self.split == other.split && self.side == other.side
    }

    /// Whether this one stands before the other in the order by split and then by side.
    fn is_before(self, other: Assumption) -> bool
        ensures { result ≡ is_before self other }
    {
        self.split < other.split || (self.split == other.split && self.side < other.side)
    }
}

/// A set of fewer than 2^32 assumptions, seen as the list of them in ascending order, by split and then by side.
#[derive(Debug, Drop)]
pub struct Deps {
    items: Vec<Assumption>,
}

impl Model for Deps {
    ghost use Rattle.std.specs.Prelude.{◌<◌, ◌^◌, List, length};
    ghost use Rattle.dep_sets.specs.declared.deps.Assumption.{Assumption};
    ghost use Rattle.dep_sets.specs.Assumptions.{IsAscending};

    ghost Value = { List Assumption };

    ghost view = { λ deps. deps.items.items };

    ghost invariant = { λ deps. IsAscending deps.items.items × (length deps.items.items < 2 ^ 32) };
}

impl Deps {
    /// The empty set; it takes no memory.
    pub fn none(alloc: Global) -> Deps
        ensures { result ≡ [] }
    {
        Deps {
            items: Vec::new(alloc),
        }
    }

    /// The assumptions, in ascending order.
    pub fn as_slice(&self) -> &[Assumption]
        ensures { result.now ≡ self.now }
    {
        self.items.as_slice()
    }

    /// Whether the set has no assumption.
    pub fn is_empty(&self) -> bool
        ensures { IsTrue result ↔ (self.now ≡ []) }
    {
        self.items.is_empty()
    }

    /// The set of this assumption alone.
    ///
    /// # Errors
    ///
    /// Only where there is no memory.
    pub fn one(alloc: Global, assumption: Assumption) -> Result<Deps, AllocError>
        ensures { IfOk result (λ deps. deps ≡ assumption ∷ []) }
    {
        let items = vec![in alloc; assumption]?;
        Ok(Deps { items })
    }

    /// The set of what is in this set or in the other.
    ///
    /// # Errors
    ///
    /// Only where there is no memory, or no set that is large enough: 2^32 assumptions are too many.
    #[tactic(auto, using(crate::proofs::Sets::set_laws))]
    pub fn union(&self, other: &Deps) -> Result<Deps, AllocError>
        ensures exact { IfOk result (λ deps. deps ≡ united self.now other.now) }
        ensures members { IfOk result (λ deps. (a : Assumption) →
            contains_assumption deps a ≡ (contains_assumption self.now a || contains_assumption other.now a)) }
    {
        let alloc = *self.items.allocator();
        let items = merged(alloc, self.items.as_slice(), other.items.as_slice())?;
        if items.len() > u32::MAX as usize {
            return Err(AllocError);
        }
        Ok(Deps { items })
    }

    /// The set without this assumption, which need not be in it.
    ///
    /// # Errors
    ///
    /// Only where there is no memory.
    #[tactic(auto, using(crate::proofs::Sets::set_laws))]
    pub fn without(&self, assumption: Assumption) -> Result<Deps, AllocError>
        ensures exact { IfOk result (λ deps. deps ≡ without_assumption assumption self.now) }
        ensures members { IfOk result (λ deps. (a : Assumption) →
            contains_assumption deps a ≡ (not (is_same_assumption assumption a) && contains_assumption self.now a)) }
    {
        let alloc = *self.items.allocator();
        let left = self.items.len() - usize::from(self.contains(assumption));
        let mut items = Vec::with_capacity(alloc, left)?;
        for item in &self.items {
            if !assumption.is_same(*item) {
                items.push(*item)?;
            }
        }
        Ok(Deps { items })
    }

    /// The same set once more.
    ///
    /// # Errors
    ///
    /// Only where there is no memory.
    pub fn copy(&self) -> Result<Deps, AllocError>
        ensures { IfOk result (λ deps. deps ≡ self.now) }
    {
        let alloc = *self.items.allocator();
        let items = Vec::from_slice(alloc, self.items.as_slice())?;
        Ok(Deps { items })
    }

    /// Whether the assumption is in the set.
    pub fn contains(&self, assumption: Assumption) -> bool
        ensures { result ≡ contains_assumption self.now assumption }
    {
        self.items.iter().any(|item| assumption.is_same(*item))
    }

    /// How many assumptions are in the set.
    pub fn count(&self) -> u32
        ensures { result ≡ length self.now }
    {
        self.items.len() as u32
    }

    /// The assumption at place `i` of the ascending order, from 0.
    pub fn at(&self, i: u32) -> Assumption
        requires { i < length self.now }
        ensures { slice_get self.now i ≡ Some result }
    {
        self.items[i as usize]
    }

    /// The last place of the path, from 0, whose assumption is in the set; `None` exactly where the
    /// set has none of them.
    pub fn deepest(&self, path: &[Assumption]) -> Option<usize>
        ensures { result ≡ deepest_place self.now path.now }
    {
        for place in (0..path.len()).rev() {
            if self.contains(path[place]) {
                return Some(place);
            }
        }
        None
    }

    /// The order and the size of the list that contracts see: a law, which does nothing when it runs.
    pub fn law(&self)
        ensures ascending { IsAscending self.now }
        ensures few { length self.now < 2 ^ 32 }
    {
        let _items = &self.items;
    }
}

/// What is in one of two ascending lists, in ascending order, each once.
fn merged(
    alloc: Global,
    left: &[Assumption],
    right: &[Assumption],
) -> Result<Vec<Assumption>, AllocError>
    requires left { IsAscending left.now }
    requires right { IsAscending right.now }
    ensures { IfOk result (λ items. items.items ≡ united left.now right.now) }
{
    let mut items = Vec::with_capacity(alloc, left.len() + right.len())?;
    let (mut i, mut j) = (0, 0);
    while i < left.len() && j < right.len() {
        let (a, b) = (left[i], right[j]);
        if a.is_before(b) {
            items.push(a)?;
            i += 1;
        } else {
            items.push(b)?;
            i += usize::from(a.is_same(b));
            j += 1;
        }
    }
    items.extend_from_slice(&left[i..])?;
    items.extend_from_slice(&right[j..])?;
    items.shrink_to_fit();
    Ok(items)
}
