//! The laws of the computed unifier: where the rules lead, and that it is most general.
ghost use Rattle.spl_truth.specs.Unifiers.{ForTermsBelow, LeadsToSolution, IsUnifierOrNone};

/// The law that the rules for lists of equations, taken step by step from the one equation and no binding, lead to the
/// bindings that are computed, or to none where none are, and nowhere else.
#[tactic(auto, using(crate::proofs::Unifiers::steps))]
pub fn steps_lead_to_unifier()
    ensures { ForTermsBelow LeadsToSolution }
{}

/// The law that the entries that are computed make both terms one, that each unifier is an instance of them, and that
/// there are none exactly where there is no unifier (Robinson 1965).
#[tactic(auto, using(crate::proofs::Unifiers::most_general))]
pub fn unifier_is_most_general()
    ensures { ForTermsBelow IsUnifierOrNone }
{}
