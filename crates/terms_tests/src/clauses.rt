//! Clauses: their size and its limit, repeated atoms, order, and variants.
use clause_texts::{Row, atoms, clause, symbol};
use spl_terms::{
    Atom, Clause, ClauseBuilder, Items, Part, PushError, Term, order_of, same_clause, symbols_of,
    variant,
};
use std::alloc::{AllocError, Global};

/// P of so many variables.
fn wide(alloc: Global, count: usize) -> Result<Atom, AllocError> {
    let mut terms = Items::with_room(alloc, count)?;
    for _ in 0..count {
        terms.push(Term::Var(9))?;
    }
    Ok(Atom::Holds(symbol(b'P'), terms))
}

/// `P(..) ->` with so many variables.
fn wide_clause(alloc: Global, count: usize) -> Result<Clause, AllocError> {
    let mut made = Clause::new(alloc);
    made.antecedent.push(wide(alloc, count)?)?;
    Ok(made)
}

/// How many symbols a refusal names; 0 where the call succeeded.
pub fn refused<T: Drop>(answer: Result<T, PushError>) -> Result<u64, AllocError> {
    match answer {
        Ok(_) => Ok(0),
        Err(PushError::Big { symbols }) => Ok(symbols),
        Err(PushError::Memory) => Err(AllocError),
    }
}

/// What `push_atom` of P of so many variables answers to a clause of 4,096 symbols, which then has one atom.
fn pushed(alloc: Global, count: usize) -> Result<u64, AllocError> {
    let mut full = wide_clause(alloc, 4095)?;
    let atom = wide(alloc, count)?;
    if atom.is_of_sort() {
        return Err(AllocError);
    }
    let answer = full.push_atom(Part::Antecedent, atom);
    let atoms = full.part(Part::Antecedent).len() as u64;
    Ok(refused(answer)?.wrapping_mul(atoms))
}

/// What a builder's `push` of P of so many variables answers where the clause has 4,096 symbols.
fn built_on(alloc: Global, count: usize) -> Result<u64, AllocError> {
    let mut full = ClauseBuilder::new(alloc);
    let begun = refused(full.push(Part::Succedent, wide(alloc, 4095)?))?;
    let more = refused(full.push(Part::Succedent, wide(alloc, count)?))?;
    Ok(begun.wrapping_add(more))
}

/// `push ARGUMENTS SYMBOLS`: what a clause of 4,096 symbols answers to an atom with so many arguments: how many symbols
/// there would be, or 0 where the atom is there already.
pub fn push(alloc: Global, row: &Row) -> Result<bool, AllocError> {
    let count = row.number(1) as usize;
    let wanted = row.number(2) as u64;
    Ok(pushed(alloc, count)? == wanted && built_on(alloc, count)? == wanted)
}

/// Whether a clause has so many symbols, with and without the limit.
fn has_symbols(alloc: Global, count: usize, symbols: u64) -> Result<bool, AllocError> {
    let given = wide_clause(alloc, count)?;
    let plain = symbols_of(&given) == symbols;
    let ordered = symbols_of(&given.into_ordered(alloc)?) == symbols;
    Ok(plain && ordered)
}

/// `number ARGUMENTS SYMBOLS ANSWER`: the symbols of a clause, and how many the calls that number its variables refuse.
pub fn numbered(alloc: Global, row: &Row) -> Result<bool, AllocError> {
    let count = row.number(1) as usize;
    let wanted = row.number(3) as u64;
    let copied = refused(wide_clause(alloc, count)?.numbered(alloc))?;
    let moved = refused(wide_clause(alloc, count)?.into_numbered(alloc))?;
    Ok(copied == wanted && moved == wanted && has_symbols(alloc, count, row.number(2) as u64)?)
}

/// The clause whose succedent has these atoms, by a builder.
fn built(alloc: Global, given: &[Atom]) -> Result<Clause, AllocError> {
    let mut builder = ClauseBuilder::new(alloc);
    for atom in given {
        refused(builder.push(Part::Succedent, atom.copy(alloc)?))?;
    }
    Ok(builder.finish())
}

/// The clause whose succedent has these atoms, pushed one by one.
fn plain(alloc: Global, given: &[Atom]) -> Result<Clause, AllocError> {
    let mut made = Clause::new(alloc);
    for atom in given {
        refused(made.push_atom(Part::Succedent, atom.copy(alloc)?))?;
    }
    Ok(made)
}

/// `distinct ATOMS COUNT`: how many atoms are left of these, by both calls.
pub fn distinct(alloc: Global, row: &Row) -> Result<bool, AllocError> {
    let given = atoms(alloc, row.text(1))?;
    let built = built(alloc, given.as_slice())?;
    let plain = plain(alloc, given.as_slice())?;
    Ok(same_clause(&built, &plain) && built.succedent.len() == row.number(2) as usize)
}

/// Whether the variables of these digits are those.
fn are_numbers(found: &[u32], digits: &str) -> bool {
    let mut rest = digits.bytes();
    for number in found {
        if rest.next().unwrap_or(0) as u32 != number.wrapping_add(48) {
            return false;
        }
    }
    rest.next().is_none()
}

/// `ordered CLAUSE CLAUSE VARIABLES`: the clause in order by both calls, and the numbers that its variables had.
pub fn ordered(alloc: Global, row: &Row) -> Result<bool, AllocError> {
    let given = clause(alloc, row.text(1))?;
    let wanted = clause(alloc, row.text(2))?;
    let numbers = order_of(alloc, &given)?;
    let right = are_numbers(numbers.as_slice(), row.text(3));
    let Ok(copied) = given.copy(alloc)?.numbered(alloc) else {
        return Ok(false);
    };
    let Ok(moved) = given.into_numbered(alloc) else {
        return Ok(false);
    };
    Ok(right && same_clause(&copied, &wanted) && same_clause(&moved, &wanted))
}

/// `variant CLAUSE CLAUSE yes|no`
pub fn variants(alloc: Global, row: &Row) -> Result<bool, AllocError> {
    let first = clause(alloc, row.text(1))?;
    let second = clause(alloc, row.text(2))?;
    let wanted = row.says(3);
    Ok(variant(&first, &second) == wanted && variant(&second, &first) == wanted)
}
