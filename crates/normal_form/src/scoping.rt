//! The Skolem terms of one quantifier, and their arguments.

ghost use Rattle.std.specs.Prelude.{◌≡◌, [], ◌∷◌, ◌++◌, ◌+◌, Bool, ℕ, true, false, if◌then◌else◌, OnOk, IfOk};
ghost use Rattle.std.specs.List.{filter};
ghost use Rattle.spl_terms.specs.Terms.{term_variables};
ghost use Rattle.formulas.specs.Negations.{signed_form};
ghost use Rattle.formulas.specs.Bindings.{bindings, is_member, numbers_from};
ghost use Rattle.normal_form.specs.Blocks.{term_in, scope_in, is_universal, place_below, existential_block};
ghost use Rattle.normal_form.specs.Walking.{AreFresh, standing_in, arguments_in};
ghost use Rattle.normal_form.specs.Marking.{is_marked, HasOwnNumbers, AreMarked, MarksMore};

use crate::scope::{Block, SkolemTerms, term_of};
use crate::variables::add_variables;
use formulas::Formula;
use spl_terms::Items;
use std::alloc::{AllocError, Global};
use std::collections::{HashMap, HashSet};

/// The numbers, each once, in order of first occurrence.
fn distinct(alloc: Global, numbers: &[u32]) -> Result<Items<u32>, AllocError>
    ensures { IfOk result (λ kept. (u : ℕ) → is_member u kept ≡ is_member u numbers.now) }
{
    let mut seen = HashSet::new(alloc);
    let mut kept = Items::new(alloc);
    for number in numbers {
        if seen.insert(*number)? {
            kept.push(*number)?;
        }
    }
    Ok(kept)
}

/// Marks the numbers: each is its own value in the map.
fn mark_all(marks: &mut HashMap<u64, u32>, numbers: &[u32]) -> Result<(), AllocError>
    ensures { OnOk result (MarksMore marks.old marks.new numbers.now) }
{
    for number in numbers {
        marks.insert(*number as u64, *number)?;
    }
    Ok(())
}

/// Marks the variables of the term that stands for a variable.
fn mark_standing(
    marks: &mut HashMap<u64, u32>,
    blocks: &[Block],
    variable: u32,
) -> Result<(), AllocError>
    ensures { OnOk result (MarksMore marks.old marks.new (term_variables (term_in blocks.now variable))) }
{
    match term_of(blocks, variable) {
        None => mark_all(marks, &[variable]),
        Some((terms, _)) => mark_all(marks, terms.args.as_slice()),
    }
}

/// The variables that stand in a part once the Skolem terms are in place.
fn standing(
    alloc: Global,
    blocks: &[Block],
    part: &Formula,
) -> Result<HashMap<u64, u32>, AllocError>
    ensures { IfOk result (λ marks. AreMarked marks (standing_in blocks.now part.now)) }
{
    let mut occurring = Items::new(alloc);
    add_variables(part, &mut occurring)?;
    let variables = distinct(alloc, occurring.as_slice())?;
    let mut marks = HashMap::new(alloc);
    for variable in variables.as_slice() {
        mark_standing(&mut marks, blocks, *variable)?;
    }
    Ok(marks)
}

/// Appends the number where it is marked.
fn add_marked(
    marks: &HashMap<u64, u32>,
    number: u64,
    found: &mut Items<u32>,
) -> Result<(), AllocError>
    requires { HasOwnNumbers marks.now }
    ensures { OnOk result (found.new ≡ found.old ++ filter (is_marked marks.now) (number ∷ [])) }
{
    match marks.get(&number) {
        None => Ok(()),
        Some(variable) => found.push(*variable),
    }
}

/// Appends the universal variables of a block that are marked.
fn add_arguments(
    block: &Block,
    marks: &HashMap<u64, u32>,
    found: &mut Items<u32>,
) -> Result<(), AllocError>
    requires { HasOwnNumbers marks.now }
    ensures { OnOk result (found.new ≡ found.old
        ++ filter (is_marked marks.now) (if is_universal block.now then numbers_from block.now.first block.now.count else [])) }
{
    if block.skolems.is_some() {
        return Ok(());
    }
    for place in 0..block.count {
        add_marked(marks, block.first as u64 + place as u64, found)?;
    }
    Ok(())
}

/// The universal variables of the blocks, the outermost first, that are marked.
fn arguments_among(
    alloc: Global,
    blocks: &[Block],
    marks: &HashMap<u64, u32>,
) -> Result<Items<u32>, AllocError>
    requires { HasOwnNumbers marks.now }
    ensures { IfOk result (λ found. found ≡ filter (is_marked marks.now) (scope_in blocks.now)) }
{
    let mut found = Items::new(alloc);
    for block in blocks {
        add_arguments(block, marks, &mut found)?;
    }
    Ok(found)
}

/// The universal variables of the blocks, the outermost first, that stand in the part.
fn skolem_arguments(
    alloc: Global,
    blocks: &[Block],
    part: &Formula,
) -> Result<Items<u32>, AllocError>
    ensures { IfOk result (λ found. found ≡ arguments_in blocks.now part.now) }
{
    let marks = standing(alloc, blocks, part)?;
    arguments_among(alloc, blocks, &marks)
}

/// The block of an existential quantifier, with its Skolem terms; the only error is want of memory.
///
/// No variable of the quantifier, and none that is bound in its part, is one of the blocks', and none is bound twice.
pub fn skolem_block(
    alloc: Global,
    blocks: &[Block],
    first: u32,
    count: u32,
    part: &Formula,
    next: u32,
) -> Result<Block, AllocError>
    requires { AreFresh blocks.now (numbers_from first count ++ bindings part.now) }
    ensures { IfOk result (λ b. (sign : Bool) → b ≡ existential_block first count (signed_form part.now sign) (place_below blocks.now next)) }
{
    let args = skolem_arguments(alloc, blocks, part)?;
    Ok(Block {
        first,
        count,
        skolems: Some(SkolemTerms { next, args }),
    })
}
