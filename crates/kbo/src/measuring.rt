//! The measures of occurrences of atoms in a clause, and which of two is greater.
ghost use Rattle.std.specs.Prelude.{◌≡◌, ◌≤◌, ◌&&◌};
ghost use Rattle.std.specs.List.{list_any, list_all};
ghost use Rattle.spl_terms.specs.Terms.{term_symbols};
ghost use Rattle.spl_terms.specs.Clauses.{atom_symbols};
ghost use Rattle.spl_truth.specs.Orders.{is_greater};
ghost use Rattle.spl_truth.specs.Multisets.{multiplicity, minus, is_greater_multiset};
ghost use Rattle.spl_truth.specs.Places.{members};
ghost use Rattle.kbo.specs.Views.{term_of};
ghost use Rattle.kbo.specs.Measures.{copies, exceeds, prevails, measure_of, has_greater, is_settled, tells_apart};

use crate::comparing::{compare_views, same_view};
use crate::order::Order;
use crate::view::View;
use spl_terms::{Atom, Part};

/// An atom of a clause with the part in which it stands.
#[derive(Clone, Copy, Debug)]
pub(crate) struct Occurrence<'a> {
    /// The part of the clause.
    pub(crate) part: Part,
    /// The atom.
    pub(crate) atom: &'a Atom,
}

fn copies(part: Part) -> u8
    ensures { result ≡ copies part }
{
    match part {
        Part::Succedent => 1,
        _ => 2,
    }
}

// Which measure is greater where each has copies of one member: by how these stand, and by which has more of them.
fn prevails(order: Order, more: bool) -> bool
    ensures { result ≡ prevails order more }
{
    match order {
        Order::Greater => true,
        Order::Equal => more,
        _ => false,
    }
}

fn times_among(view: View, atom: &Atom) -> u8
    ensures value { result ≡ multiplicity (term_of view.entry) (members atom.now) }
    ensures bound { result ≤ 2 }
{
    match atom {
        Atom::Holds(predicate, args) => {
            u8::from(same_view(view, View::App(*predicate, args.as_slice())))
        }
        Atom::Equal(left, right) => {
            u8::from(same_view(view, View::of(left))) + u8::from(same_view(view, View::of(right)))
        }
    }
}

impl<'a> Occurrence<'a> {
    fn multiplicity(self, view: View) -> u8
        ensures { result ≡ multiplicity (term_of view.entry) (measure_of self.entry) }
    {
        copies(self.part) * times_among(view, self.atom)
    }

    // Whether the term stands more often in this measure than in the other one.
    fn exceeds(self, other: Occurrence, view: View) -> bool
        ensures { result ≡ exceeds (measure_of self.entry) (measure_of other.entry) (term_of view.entry) }
    {
        self.multiplicity(view) > other.multiplicity(view)
    }

    // Whether this member is greater than the term and stands more often in this measure than in the other one.
    fn beats_by(self, other: Occurrence, member: View, view: View) -> bool
        requires size { term_symbols (term_of member) ≤ 4294967295 }
        requires view_size { term_symbols (term_of view) ≤ 4294967295 }
        ensures { result ≡ (exceeds (measure_of self.entry) (measure_of other.entry) (term_of member.entry)
            && is_greater (term_of member.entry) (term_of view.entry)) }
    {
        match compare_views(member, view) {
            Order::Greater => self.exceeds(other, member),
            _ => false,
        }
    }

    // Whether some member of this measure without the other one is greater than the term.
    fn beats(self, other: Occurrence, view: View) -> bool
        requires size { atom_symbols self.atom.now ≤ 4294967295 }
        requires view_size { term_symbols (term_of view) ≤ 4294967295 }
        ensures { result ≡ has_greater (measure_of self.entry) (measure_of other.entry) (term_of view.entry) }
    {
        match self.atom {
            Atom::Holds(predicate, args) => {
                self.beats_by(other, View::App(*predicate, args.as_slice()), view)
            }
            Atom::Equal(left, right) => {
                self.beats_by(other, View::of(left), view)
                    || self.beats_by(other, View::of(right), view)
            }
        }
    }

    // Whether the term, if it stands more often in the other measure, is less than a member of this one without the other.
    fn settles(self, other: Occurrence, view: View) -> bool
        requires size { atom_symbols self.atom.now ≤ 4294967295 }
        requires view_size { term_symbols (term_of view) ≤ 4294967295 }
        ensures { result ≡ is_settled (measure_of self.entry) (measure_of other.entry) (term_of view.entry) }
    {
        !other.exceeds(self, view) || self.beats(other, view)
    }

    fn settles_all(self, other: Occurrence) -> bool
        requires size { atom_symbols self.atom.now ≤ 4294967295 }
        requires other_size { atom_symbols other.atom.now ≤ 4294967295 }
        ensures { result ≡ list_all (λ n. has_greater (measure_of self.entry) (measure_of other.entry) n)
            (minus (measure_of other.entry) (measure_of self.entry)) }
    {
        match other.atom {
            Atom::Holds(predicate, args) => {
                self.settles(other, View::App(*predicate, args.as_slice()))
            }
            Atom::Equal(left, right) => {
                self.settles(other, View::of(left)) && self.settles(other, View::of(right))
            }
        }
    }

    // Whether the term doesn't stand equally often in both measures.
    fn tells_apart(self, other: Occurrence, view: View) -> bool
        ensures { result ≡ tells_apart (measure_of self.entry) (measure_of other.entry) (term_of view.entry) }
    {
        self.multiplicity(view) != other.multiplicity(view)
    }

    // Whether a member of one of the atoms doesn't stand equally often in both measures.
    fn differs_at(self, other: Occurrence, atom: &Atom) -> bool
        ensures { result ≡ list_any (λ t. tells_apart (measure_of self.entry) (measure_of other.entry) t) (members atom.now) }
    {
        match atom {
            Atom::Holds(predicate, args) => {
                self.tells_apart(other, View::App(*predicate, args.as_slice()))
            }
            Atom::Equal(left, right) => {
                self.tells_apart(other, View::of(left)) || self.tells_apart(other, View::of(right))
            }
        }
    }

    // The comparison of two measures, member by member.
    fn outweighs(self, other: Occurrence) -> bool
        requires size { atom_symbols self.atom.now ≤ 4294967295 }
        requires other_size { atom_symbols other.atom.now ≤ 4294967295 }
        ensures { result ≡ is_greater_multiset (measure_of self.entry) (measure_of other.entry) }
    {
        self.settles_all(other)
            && (self.differs_at(other, self.atom) || self.differs_at(other, other.atom))
    }

    /// Whether the measure of this occurrence is greater than that of the other one (Dershowitz and Manna 1979). Two
    /// predicate atoms are compared once.
    pub(crate) fn is_greater(self, other: Occurrence) -> bool
        requires size { atom_symbols self.atom.now ≤ 4294967295 }
        requires other_size { atom_symbols other.atom.now ≤ 4294967295 }
        ensures { result ≡ is_greater_multiset (measure_of self.entry) (measure_of other.entry) }
    {
        match (self.atom, other.atom) {
            (Atom::Holds(predicate, args), Atom::Holds(second, others)) => {
                let view = View::App(*predicate, args.as_slice());
                let order = compare_views(view, View::App(*second, others.as_slice()));
                prevails(order, copies(self.part) > copies(other.part))
            }
            _ => self.outweighs(other),
        }
    }
}
