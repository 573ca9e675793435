//! What stands first in a problem.

ghost use Rattle.std.specs.Prelude.{◌≡◌};
ghost use Rattle.dfg_terms.specs.Reading.{Gives};
ghost use Rattle.dfg_lists.specs.Lists.{head_at};

use dfg_terms::{InputError, identifier, mark, word};
use dfg_tokens::{Cursor, Mark, Word};

/// The head, `begin_problem(id).`, whose name may be a reserved word. The fault is Unexpected at the first token that
/// doesn't fit.
#[tactic(auto, unfolding(crate::specs::Lists::head_at))]
pub fn problem_head(tokens: &mut Cursor<'_>) -> Result<(), InputError>
    ensures { Gives (λ _. tokens.new) result (head_at tokens.old) }
{
    word(Word::BeginProblem, tokens)?;
    mark(Mark::OpenParenthesis, tokens)?;
    identifier(tokens)?;
    mark(Mark::CloseParenthesis, tokens)?;
    mark(Mark::Dot, tokens)
}
