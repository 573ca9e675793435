//! How clauses are parted, and the negations of their atoms.
use clause_parts::{in_order, negation, part_of_side, split_of};
use clause_texts::{Row, clause, is_clause};
use std::alloc::{AllocError, Global};

/// `parts CLAUSE LEFT RIGHT yes|no`, or `parts CLAUSE none`: the parts, and whether the left one is without variables.
pub fn parts(alloc: Global, row: &Row) -> Result<bool, AllocError> {
    let Some(parts) = split_of(alloc, &clause(alloc, row.text(1))?)? else {
        return Ok(row.has_none(2));
    };
    let ground = parts.left_ground == row.says(4);
    let left = is_clause(alloc, Some(parts.left), row.text(2))?;
    let right = is_clause(alloc, Some(parts.right), row.text(3))?;
    Ok(ground && left && right)
}

/// `side NUMBER CLAUSE CLAUSE|none`: the part of a side, from 1, as it stands.
pub fn side(alloc: Global, row: &Row) -> Result<bool, AllocError> {
    let made = part_of_side(alloc, row.number(1), &clause(alloc, row.text(2))?)?;
    is_clause(alloc, made, row.text(3))
}

/// `negation NUMBER CLAUSE CLAUSE|none`: the negation of the atom of this number, from 0.
pub fn negated(alloc: Global, row: &Row) -> Result<bool, AllocError> {
    let made = negation(alloc, row.number(1), &clause(alloc, row.text(2))?)?;
    is_clause(alloc, made, row.text(3))
}

/// `in_order CLAUSE CLAUSE`: the clause in order.
pub fn ordered(alloc: Global, row: &Row) -> Result<bool, AllocError> {
    let made = in_order(alloc, clause(alloc, row.text(1))?)?;
    is_clause(alloc, Some(made), row.text(2))
}
