//! Clauses that subsume others, and the index by which they are found.
use crate::inferences::ordered;
use crate::unifiers::is_answer;
use clause_texts::{Row, clause};
use std::alloc::{AllocError, Global};
use subsume::{FeatureIndex, subsumes};

/// `subsumes CLAUSE CLAUSE TERMS|none`: the entries by which the first clause subsumes the second.
pub fn subsumed(alloc: Global, row: &Row) -> Result<bool, AllocError> {
    let first = ordered(alloc, row.text(1))?;
    let second = ordered(alloc, row.text(2))?;
    let found = subsumes(alloc, &first, &second)?;
    is_answer(alloc, &found, row.text(3))
}

/// How many candidates the index has for the clause, all with the key 7; none where one has another key.
fn count_of_sevens(
    index: &FeatureIndex,
    text: &str,
    alloc: Global,
) -> Result<Option<usize>, AllocError> {
    let keys = index.candidates(&clause(alloc, text)?)?;
    if keys.iter().all(|key| *key == 7) {
        Ok(Some(keys.len()))
    } else {
        Ok(None)
    }
}

/// `candidates CLAUSE CLAUSE N`: in an index with the first clause and the key 7, inserted twice, the second clause has so
/// many candidates, 1 or 0; once it is removed, none, and it can't be removed again.
pub fn candidates(alloc: Global, row: &Row) -> Result<bool, AllocError> {
    let held = clause(alloc, row.text(1))?;
    let mut index = FeatureIndex::new(alloc);
    index.insert(&held, 7)?;
    index.insert(&held, 7)?;
    let before = count_of_sevens(&index, row.text(2), alloc)?;
    let other = index.remove(&held, 8);
    let removed = index.remove(&held, 7);
    let again = index.remove(&held, 7);
    let after = count_of_sevens(&index, row.text(2), alloc)?;
    let wanted = row.number(3) as usize;
    Ok(before == Some(wanted) && after == Some(0) && !other && removed && !again)
}
