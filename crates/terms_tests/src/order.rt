//! The order on terms, and the maximal and eligible places.
use clause_texts::{Row, clause, number, part, symbol, term};
use kbo::{Order, View, compare, compare_views, eligible, maximal};
use spl_terms::{Clause, Part, Term, symbols_of};
use std::alloc::{AllocError, Global};

/// How the terms stand, by both calls; nothing where they differ or the terms are too large.
fn standing(term: &Term, other: &Term) -> Option<Order> {
    if term.symbols() > 4_294_967_295 || other.symbols() > 4_294_967_295 {
        return None;
    }
    let order = compare(term, other);
    if order == compare_views(View::of(term), View::of(other)) {
        Some(order)
    } else {
        None
    }
}

fn turned(order: Order) -> Order {
    match order {
        Order::Greater => Order::Less,
        Order::Less => Order::Greater,
        _ => order,
    }
}

/// The order of a name.
fn named(name: &str) -> Order {
    match name {
        "greater" => Order::Greater,
        "less" => Order::Less,
        "equal" => Order::Equal,
        _ => Order::Incomparable,
    }
}

/// `order TERM TERM STANDS`: whether the first stands so to the second, the second the other way round, and each to
/// itself as equal.
pub fn order(alloc: Global, row: &Row) -> Result<bool, AllocError> {
    let first = term(alloc, row.text(1))?;
    let second = term(alloc, row.text(2))?;
    let wanted = named(row.text(3));
    Ok(
        standing(&first, &second) == Some(wanted)
            && standing(&second, &first) == Some(turned(wanted))
            && standing(&first, &first) == Some(Order::Equal),
    )
}

/// The term of a symbol over the constant.
fn topped(alloc: Global, letter: u8, constant: &str) -> Result<Term, AllocError> {
    let mut made = term(alloc, constant)?;
    if let Term::App(head, _) = &mut made {
        *head = symbol(letter);
    }
    Ok(made)
}

/// `heads LETTER LETTER`: whether the first over `a` is greater than the second over `b`.
pub fn heads(alloc: Global, row: &Row) -> Result<bool, AllocError> {
    let first = row.text(1).bytes().next().unwrap_or(0);
    let second = row.text(2).bytes().next().unwrap_or(0);
    let first = topped(alloc, first, "ga")?;
    let second = topped(alloc, second, "gb")?;
    Ok(standing(&first, &second) == Some(Order::Greater))
}

/// `maximal CLAUSE PART PLACE yes|no`: whether the place is maximal, and eligible where none is selected.
pub fn maximal_place(alloc: Global, row: &Row) -> Result<bool, AllocError> {
    let given = clause(alloc, row.text(1))?;
    if symbols_of(&given) > 4_294_967_295 {
        return Ok(false);
    }
    let (part, place) = (part(row.text(2)), row.number(3) as usize);
    let found = maximal(&given, part, place);
    Ok(found == row.says(4) && found == eligible(&given, None, part, place))
}

/// Whether the place is the only one of the part that is eligible, or none is where another part is named.
fn is_only(given: &Clause, selected: Option<usize>, part: Part, wanted: Option<usize>) -> bool {
    if symbols_of(given) > 4_294_967_295 {
        return false;
    }
    for place in 0..given.part(part).len() {
        if eligible(given, selected, part, place) != (Some(place) == wanted) {
            return false;
        }
    }
    true
}

/// `eligible CLAUSE SELECTED|none PART PLACE`: whether this place alone is eligible.
pub fn eligible_place(alloc: Global, row: &Row) -> Result<bool, AllocError> {
    let given = clause(alloc, row.text(1))?;
    let selected = if row.has_none(2) {
        None
    } else {
        Some(number(row.text(2)) as usize)
    };
    let (wanted, place) = (part(row.text(3)), row.number(4) as usize);
    for part in [Part::Constraint, Part::Antecedent, Part::Succedent] {
        let here = if part == wanted { Some(place) } else { None };
        if !is_only(&given, selected, part, here) {
            return Ok(false);
        }
    }
    Ok(true)
}
