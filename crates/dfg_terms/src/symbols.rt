//! Symbols by their names, in the places where they may stand.

ghost use Rattle.std.specs.Prelude.{◌≡◌};
ghost use Rattle.dfg_terms.specs.Reading.{Gives};
ghost use Rattle.dfg_terms.specs.Symbols.{lookup, misfit, fitting, symbol_named, checked_arity};

use crate::fault::{FaultKind, InputError, ReadFault};
use crate::marks::spelled_name;
use dfg_tokens::Token;
use spl_symbols::Signature;
use spl_terms::{Kind, Symbol};

/// Where a symbol stands.
#[derive(Clone, Copy, Debug, PartialEq, Eq)]
pub enum Place {
    /// In a term.
    Term,
    /// At the head of an atom.
    Atom,
    /// At the head of an atom of a constraint, which is of a sort.
    Constraint,
    /// At the head of an atom of an antecedent, which is of no sort.
    Antecedent,
}

/// A declared symbol with its number of arguments.
#[derive(Clone, Copy, Debug)]
pub struct Found {
    /// The symbol.
    pub symbol: Symbol,
    /// How many arguments it takes.
    pub arity: u32,
}

/// The declared symbol of this name, with its number of arguments.
#[tactic(auto, unfolding(crate::specs::Symbols::lookup), using(crate::specs::LookupLaws::looked_up))]
pub fn lookup(symbols: &Signature, name: &str) -> Option<Found>
    ensures { result ≡ lookup name.now symbols.now }
{
    match symbols.find(name) {
        Some(symbol) => Some(Found {
            symbol,
            arity: symbols.arity(symbol),
        }),
        None => None,
    }
}

/// What is wrong with a symbol of this kind in this place.
fn misfit(place: Place, kind: Kind) -> Option<FaultKind>
    ensures { result ≡ misfit place kind }
{
    match (place, kind) {
        (Place::Term, Kind::Function)
        | (Place::Atom, Kind::Predicate | Kind::Sort)
        | (Place::Constraint, Kind::Sort)
        | (Place::Antecedent, Kind::Predicate) => None,
        (Place::Constraint, Kind::Predicate) | (Place::Antecedent, Kind::Sort) => {
            Some(FaultKind::Unexpected)
        }
        _ => Some(FaultKind::Undeclared),
    }
}

/// The symbol, if there is one and it fits its place.
fn fitting(place: Place, at: usize, found: Option<Found>) -> Result<Found, InputError>
    ensures { Gives (λ x. x) result (fitting place at found) }
{
    match found {
        None => Err(InputError::Fault(ReadFault {
            at,
            kind: FaultKind::Undeclared,
        })),
        Some(found) => match misfit(place, found.symbol.kind) {
            None => Ok(found),
            Some(kind) => Err(InputError::Fault(ReadFault { at, kind })),
        },
    }
}

/// The symbol that the name stands for in its place.
#[tactic(auto, unfolding(crate::specs::Symbols::symbol_named))]
pub fn symbol_named(
    bytes: &[u8],
    symbols: &Signature,
    place: Place,
    token: Token,
) -> Result<Found, InputError>
    ensures { Gives (λ x. x) result (symbol_named bytes.now symbols.now place token) }
{
    let name = spelled_name(bytes, token)?;
    fitting(place, token.at as usize, lookup(symbols, name))
}

/// The symbol has as many arguments as were read.
#[tactic(auto, unfolding(crate::specs::Symbols::checked_arity))]
pub fn check_arity(at: usize, found: Found, count: usize) -> Result<(), InputError>
    ensures { Gives (λ x. x) result (checked_arity at found count) }
{
    if found.arity as usize == count {
        return Ok(());
    }
    Err(InputError::Fault(ReadFault {
        at,
        kind: FaultKind::Arity {
            declared: found.arity,
            found: count.min(4294967295) as u32,
        },
    }))
}
