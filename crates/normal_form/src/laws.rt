//! The laws of the clause normal form.

ghost use Rattle.normal_form.specs.Law.{ClausesAreCounted, ClausesStand};

/// The clauses of a list of formulas stand for it in every finite structure.
#[tactic(auto, using(crate::proofs::Standing::the_law))]
pub fn clauses_stand()
    ensures { ClausesStand }
{}

/// A form gives as many clauses as are counted.
#[tactic(auto, using(crate::proofs::Choosing::counted))]
pub fn clauses_are_counted()
    ensures { ClausesAreCounted }
{}
