//! Laws of hiding: each is a function that does nothing when it runs, and whose contract is the law.
ghost use Rattle.std.specs.Prelude.{List};
ghost use Rattle.proof_steps.specs.declared.step.Statement.{Statement};
ghost use Rattle.calculus.specs.declared.note.HideNote.{HideNote};
ghost use Rattle.calculus.specs.Notes.{IsJustified};
ghost use Rattle.justification.specs.Hiding.{AreStatedInOrder, HasFollowing, HasFollowingFurther};
ghost use Rattle.justification.specs.Composing.{AreComposed, CanCompose};

/// The law that what a justified note hides follows from its reasons: each ground instance of the hidden clause is true
/// under each assignment under which finitely many ground instances of the reasons, and axioms of equality, are true.
#[tactic(auto, using(crate::proofs::Sound::hidden_follows))]
pub fn hidden_follows()
    ensures { (note : HideNote) (earlier : List Statement) → IsJustified note earlier → HasFollowing note earlier }
{}

/// The law that a reason may be replaced by the reasons for which it was hidden itself: what the first note hides follows
/// from its other reasons and those of the second note.
#[tactic(auto, using(crate::proofs::Composed::hidden_follows_further))]
pub fn hidden_follows_further()
    ensures { (note other : HideNote) (earlier : List Statement) → IsJustified note earlier → IsJustified other earlier → HasFollowingFurther note other earlier }
{}

/// The law that notes compose: where a justified note hides a reason of another one, there is a justified note that hides
/// what that one hides, by its other reasons and those of the first. The note that hides the reason has no edits here, its
/// reason isn't the clause that the other one hides, and the reason that is replaced is no equation of the other one.
#[tactic(auto, using(crate::proofs::Composing::notes_compose))]
pub fn notes_compose()
    ensures { (note other : HideNote) (earlier : List Statement) → AreStatedInOrder earlier → IsJustified note earlier
        → IsJustified other earlier → CanCompose note other → AreComposed note other earlier }
{}
