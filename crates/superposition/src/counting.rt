//! How many symbols instances have by what variables stand for through bindings, where nothing is built.
ghost use Rattle.std.specs.Prelude.{◌≤◌, min, sum_by};
ghost use Rattle.std.specs.Bool.{OnTrue};
ghost use Rattle.spl_terms.specs.Terms.{term_symbols, replace};
ghost use Rattle.spl_terms.specs.Clauses.{atom_symbols, replace_in_atom};
ghost use Rattle.spl_truth.specs.Truth.{entry};
ghost use Rattle.unify.specs.Bindings.{IsTriangular};
ghost use Rattle.superposition.specs.Sizes.{entries_from};

use spl_terms::{Atom, Term};
use unify::Bindings;

// ---- symbols of instances

/// How many symbols what the variable stands for has at least, up to the limit.
fn entry_symbols<'a>(
    bindings: &Bindings<'a>,
    from: u32,
    past: u32,
    variable: u32,
    limit: u64,
) -> u64
    requires { IsTriangular bindings.now.0 bindings.now.1 }
    ensures { result ≤ min (term_symbols (entry (entries_from from past bindings.now.1) variable)) limit }
{
    if variable >= past.saturating_sub(from) {
        return 0;
    }
    bindings.entry_symbols(from + variable, limit)
}

/// How many symbols the instance of the term has at least, up to the limit.
#[cycle(counting)]
pub(crate) fn symbols_up_to<'a>(
    bindings: &Bindings<'a>,
    from: u32,
    past: u32,
    term: &Term,
    limit: u64,
) -> u64
    requires { IsTriangular bindings.now.0 bindings.now.1 }
    ensures { result ≤ min (term_symbols (replace (entry (entries_from from past bindings.now.1)) term.now)) limit }
{
    if limit == 0 {
        return 0;
    }
    match term {
        Term::Var(variable) => entry_symbols(bindings, from, past, *variable, limit),
        Term::App(_, args) => {
            symbols_in_up_to(bindings, from, past, args.as_slice(), limit - 1) + 1
        }
    }
}

/// It stops at the first term with which the limit is reached.
#[cycle(counting)]
fn symbols_in_up_to<'a>(
    bindings: &Bindings<'a>,
    from: u32,
    past: u32,
    terms: &[Term],
    limit: u64,
) -> u64
    requires { IsTriangular bindings.now.0 bindings.now.1 }
    ensures { result ≤ min
        (sum_by (λ t. term_symbols (replace (entry (entries_from from past bindings.now.1)) t)) terms.now) limit }
{
    let mut count: u64 = 0;
    for term in terms {
        if count >= limit {
            return limit;
        }
        count += symbols_up_to(bindings, from, past, term, limit - count);
    }
    count
}

// ---- atoms

/// Whether the instance of the atom has 1,000,000 symbols or more.
#[tactic(auto, using(crate::proofs::Counted::size_laws))]
pub(crate) fn is_vast<'a>(bindings: &Bindings<'a>, from: u32, past: u32, atom: &Atom) -> bool
    requires { IsTriangular bindings.now.0 bindings.now.1 }
    ensures { OnTrue result (1000000
        ≤ atom_symbols (replace_in_atom (entry (entries_from from past bindings.now.1)) atom.now)) }
{
    let limit = 999_999;
    match atom {
        Atom::Holds(_, args) => {
            symbols_in_up_to(bindings, from, past, args.as_slice(), limit) >= limit
        }
        Atom::Equal(left, right) => {
            let count = symbols_up_to(bindings, from, past, left, limit);
            count + symbols_up_to(bindings, from, past, right, limit) >= limit
        }
    }
}

/// How many symbols the instance of the atom has at least, up to the limit.
fn atom_symbols_up_to<'a>(
    bindings: &Bindings<'a>,
    from: u32,
    past: u32,
    atom: &Atom,
    limit: u64,
) -> u64
    requires { IsTriangular bindings.now.0 bindings.now.1 }
    ensures { result ≤ limit }
{
    if limit == 0 {
        return 0;
    }
    match atom {
        Atom::Holds(_, args) => {
            symbols_in_up_to(bindings, from, past, args.as_slice(), limit - 1) + 1
        }
        Atom::Equal(left, right) => {
            let count = symbols_up_to(bindings, from, past, left, limit - 1);
            count + symbols_up_to(bindings, from, past, right, limit - 1 - count) + 1
        }
    }
}

/// How many symbols the instances of the atoms have together at least, up to the limit.
pub(crate) fn symbols_of_atoms<'a>(
    bindings: &Bindings<'a>,
    from: u32,
    past: u32,
    atoms: &[Atom],
    limit: u64,
) -> u64
    requires { IsTriangular bindings.now.0 bindings.now.1 }
    ensures { result ≤ limit }
{
    let mut count: u64 = 0;
    for atom in atoms {
        if count >= limit {
            return limit;
        }
        count += atom_symbols_up_to(bindings, from, past, atom, limit - count);
    }
    count
}
