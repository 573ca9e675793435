//! Which of two clauses is chosen first.
ghost use Rattle.std.specs.Prelude.{◌≡◌};
ghost use Rattle.std.specs.declared.option.Option.{Option};
ghost use Rattle.spl_truth.specs.Picking.{is_fifth, preferred, better};

/// A clause that may be chosen next.
#[derive(Clone, Copy, Debug, PartialEq, Eq)]
pub struct Candidate {
    /// The number of the clause, from 1.
    pub number: u32,
    /// How many symbols the clause has.
    pub symbols: u64,
}

/// Whether the next choice goes by age, after so many choices: each fifth does.
pub fn is_fifth(chosen: usize) -> bool
    ensures { result ≡ is_fifth chosen }
{
    chosen % 5 == 4
}

fn preferred(by_age: bool, a: Candidate, b: Candidate) -> Candidate
    ensures { result ≡ preferred by_age a b }
{
    let older = b.number < a.number;
    let lighter = b.symbols < a.symbols || b.symbols == a.symbols && older;
    let second = if by_age { older } else { lighter };
    if second { b } else { a }
}

/// The better one of the best candidate so far and another one: the older one, or the lighter one and of equally
/// light ones the older one.
pub fn better(by_age: bool, best: Option<Candidate>, other: Candidate) -> Option<Candidate>
    ensures { result ≡ better by_age best other }
{
    match best {
        None => Some(other),
        Some(best) => Some(preferred(by_age, best, other)),
    }
}
