//! Lists, sets of assumptions, and signatures.
use clause_texts::Row;
use dep_sets::{Assumption, Deps};
use dfg_tokens::is_name;
use spl_symbols::{DeclareError, Signature};
use spl_terms::{Items, Kind, Symbol};
use std::alloc::{AllocError, Global};

fn changed(alloc: Global) -> Result<Items<u32>, AllocError> {
    let mut numbers = Items::from_slice(alloc, [1, 2, 3].as_slice())?;
    numbers.push_all(Items::from_vec(Vec::from_array(alloc, [4, 5])?))?;
    for number in numbers.as_mut_slice() {
        *number ^= 1;
    }
    Ok(numbers)
}

/// `lists`: what is pushed, changed and taken from a list.
pub fn lists(alloc: Global) -> Result<bool, AllocError> {
    let mut numbers = changed(alloc)?;
    let last = numbers.pop();
    Ok(
        last == Some(4)
            && numbers.into_vec().as_slice() == [0, 3, 2, 5].as_slice()
            && Items::<u32>::new(alloc).is_empty(),
    )
}

fn at(split: u32, side: u32) -> Assumption {
    Assumption { split, side }
}

/// The set of these, joined one by one.
fn joined(alloc: Global, items: &[Assumption]) -> Result<Deps, AllocError> {
    let mut deps = Deps::none(alloc);
    for item in items {
        deps = deps.union(&Deps::one(alloc, *item)?)?;
    }
    Ok(deps)
}

/// `sets`: what is joined, left out and copied, and the deepest assumption on a path.
pub fn sets(alloc: Global) -> Result<bool, AllocError> {
    let deps = joined(alloc, &[at(7, 1), at(2, 2), at(7, 1), at(2, 1)])?;
    let fewer = deps.without(at(2, 1))?;
    let copied = deps.copy()?;
    Ok(
        deps.as_slice() == [at(2, 1), at(2, 2), at(7, 1)].as_slice()
            && fewer.as_slice() == [at(2, 2), at(7, 1)].as_slice()
            && deps.without(at(2, 3))?.count() == 3
            && copied.as_slice() == deps.as_slice()
            && deps.deepest(&[at(2, 1), at(7, 1), at(9, 1)]) == Some(1)
            && deps.deepest(&[at(1, 1), at(3, 1), at(9, 1)]).is_none(),
    )
}

/// Declares `c0`, `c1`, and so on; whether each could be declared.
fn declare(alloc: Global, signature: &mut Signature, count: u32) -> Result<bool, AllocError> {
    for i in 0..count {
        let name = format!(in alloc; "c{i}")?;
        if !is_name(name.as_str().as_bytes()) {
            return Ok(false);
        }
        if signature
            .declare(alloc, name.as_str(), i % 3, Kind::Function)
            .is_err()
        {
            return Ok(false);
        }
    }
    Ok(true)
}

/// Whether the last of the symbols is found by its name, with its name and how many arguments it takes.
fn has_last(signature: &Signature) -> bool {
    let last = Symbol {
        number: 65_535,
        kind: Kind::Function,
    };
    signature.count() == 65_536
        && signature.find("c65535") == Some(last)
        && last.number < signature.count()
        && signature.name(last) == "c65535"
        && signature.arity(last) == 0
        && signature.find("C1").is_none()
}

/// `signature`: as many symbols as there may be, one more, and a name that is declared.
pub fn signature(alloc: Global) -> Result<bool, AllocError> {
    let mut signature = Signature::new(alloc);
    if !declare(alloc, &mut signature, 65_536)? || !has_last(&signature) {
        return Ok(false);
    }
    let more = signature.declare(alloc, "one_more", 0, Kind::Sort);
    let again = signature.declare(alloc, "c65535", 0, Kind::Sort);
    Ok(
        matches!(more, Err(DeclareError::Full))
            && matches!(again, Err(DeclareError::Again { first }) if first.number == 65_535),
    )
}

/// A row without further words.
pub fn alone(alloc: Global, row: &Row) -> Result<bool, AllocError> {
    match row.text(0) {
        "lists" => lists(alloc),
        "sets" => sets(alloc),
        "signature" => signature(alloc),
        _ => Ok(false),
    }
}
