//! The law that no unifier is lost.
ghost use Rattle.calculus.specs.Found.{ResolventsAreFound, ParamodulantsAreFound, ReflectionsAreFound, EqualityFactoringsAreFound};

use spl_truth::laws;

/// The law that each unifier of eligible places, of clauses in order, gives an inference: its restrictions to the premises
/// have an entry for each variable, and the rule applies with them (Weidenbach 2001, the section on superposition).
#[tactic(auto, using(crate::specs::LiftingLaws::resolve_there, crate::proofs::Superposing::superpose_there, crate::proofs::Own::reflection_there, crate::proofs::Own::equality_factoring_there))]
pub fn no_unifier_is_lost()
    ensures resolution { ResolventsAreFound }
    ensures superposition { ParamodulantsAreFound }
    ensures reflection { ReflectionsAreFound }
    ensures equality_factoring { EqualityFactoringsAreFound }
{
    laws::unifier_is_most_general();
}
