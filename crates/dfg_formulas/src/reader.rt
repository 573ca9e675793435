//! Formulas and clauses.

ghost use Rattle.std.specs.Prelude.{◌≡◌, ◌+◌, [], length, IfOk, OnOk};
ghost use Rattle.formulas.specs.declared.tree.Tree as tree;
ghost use Rattle.dfg_terms.specs.Reading.{Gives, commas};
ghost use Rattle.dfg_formulas.specs.Formulas.{adding_part, negation_at, several_at, pair_of, pair_at, quantified_at, inside_at, connected_at, connected_if, atom_at, formula_by, too_deep, formula_at};
ghost use Rattle.dfg_formulas.specs.Shapes.{parts};
ghost use Rattle.dfg_formulas.specs.Grammar.{binding_count, IsFormulaIn, EachFormulaIsRead};

use crate::build::{constant, joined, quantified};
use crate::items::{items, number_after};
use crate::shape::{Connective, Head, Shape, may_begin, next_head, parts};
use dfg_terms::{
    Context, FaultKind, InputError, Limit, Place, Scope, Variables, atom, mark, next_is_mark,
    refused, unexpected,
};
use dfg_tokens::{Cursor, Mark};
use formulas::Formula;
use spl_symbols::Signature;
use spl_terms::Items;
use std::alloc::{AllocError, Global};

/// What formulas are read in.
#[derive(Clone, Copy)]
pub struct Text<'c, 't> {
    /// The text, of which names are looked up.
    pub bytes: &'t [u8],
    /// The declared symbols.
    pub symbols: &'c Signature,
}

/// What may stand in a place.
#[derive(Clone, Copy, Debug)]
pub struct Level {
    /// The shape of the formula.
    pub shape: Shape,
    /// How deep it may nest: 1 for an atom without arguments.
    pub depth: u32,
}

/// Nesting goes no deeper than here.
#[tactic(auto, unfolding(crate::specs::Formulas::too_deep))]
fn too_deep(shape: Shape, tokens: &mut Cursor<'_>) -> Result<(Formula, u32), InputError>
    ensures { Gives (λ x. ((x.0, x.1), tokens.new)) result (too_deep shape tokens.old) }
{
    if may_begin(shape, next_head(tokens)) {
        Err(refused(FaultKind::LimitReached(Limit::Depth), tokens))
    } else {
        Err(unexpected(tokens))
    }
}

/// An atom whose terms may nest so deep.
#[tactic(auto, unfolding(crate::specs::Formulas::atom_at))]
pub fn atomic(
    alloc: Global,
    text: &Text<'_, '_>,
    scope: &Scope<'_>,
    depth: u32,
    next: u32,
    tokens: &mut Cursor<'_>,
) -> Result<(Formula, u32), InputError>
    ensures { Gives (λ x. ((x.0, x.1), tokens.new)) result
        (atom_at text.now.bytes.now text.now.symbols.now depth scope.now next tokens.old) }
{
    let context = Context {
        bytes: text.bytes,
        symbols: text.symbols,
        variables: Variables::Named(scope),
    };
    let atom = atom(alloc, &context, Place::Atom, depth, tokens)?;
    Ok((Formula::atom(atom), next))
}

/// The formula of two parts under this connective; another one than `implied` and `equiv` is `implies`.
fn paired(
    alloc: Global,
    connective: Connective,
    first: Formula,
    second: Formula,
) -> Result<Formula, AllocError>
    ensures { IfOk result (λ f. f ≡ pair_of connective first second) }
{
    match connective {
        Connective::Implied => Formula::implication(alloc, second, first),
        Connective::Equiv => Formula::equivalence(alloc, first, second),
        _ => Formula::implication(alloc, first, second),
    }
}

/// A formula of this shape that may nest so deep: what is read, and the number of the next binding.
#[cycle(formula)]
#[tactic(auto, unfolding(crate::specs::Formulas::formula_at))]
fn formula_within<'t>(
    alloc: Global,
    text: &Text<'_, 't>,
    scope: &mut Scope<'t>,
    level: Level,
    next: u32,
    tokens: &mut Cursor<'_>,
) -> Result<(Formula, u32), InputError>
    ensures given { Gives (λ x. ((x.0, x.1), tokens.new)) result
        (formula_at text.now.bytes.now text.now.symbols.now level.depth level.shape scope.old next tokens.old) }
    ensures same { OnOk result (scope.new ≡ scope.old) }
{
    let Level { shape, depth } = level;
    if depth == 0 {
        return too_deep(shape, tokens);
    }
    match next_head(tokens) {
        Head::Constant(value) => {
            tokens.advance();
            Ok((constant(value), next))
        }
        Head::Atom => atomic(alloc, text, scope, depth - 1, next, tokens),
        Head::Nothing => Err(unexpected(tokens)),
        Head::Connected(connective) => {
            let level = Level {
                shape,
                depth: depth - 1,
            };
            from_connective(alloc, text, scope, connective, level, next, tokens)
        }
    }
}

/// A formula of this shape, at its connective, whose parts may nest so deep.
#[cycle(formula)]
fn from_connective<'t>(
    alloc: Global,
    text: &Text<'_, 't>,
    scope: &mut Scope<'t>,
    connective: Connective,
    level: Level,
    next: u32,
    tokens: &mut Cursor<'_>,
) -> Result<(Formula, u32), InputError>
    ensures given { Gives (λ x. ((x.0, x.1), tokens.new)) result
        (connected_if text.now.bytes.now text.now.symbols.now connective (parts level.shape connective)
        (formula_at text.now.bytes.now text.now.symbols.now level.depth) scope.old next tokens.old) }
    ensures same { OnOk result (scope.new ≡ scope.old) }
{
    match parts(level.shape, connective) {
        None => Err(unexpected(tokens)),
        Some(shape) => {
            tokens.advance();
            let level = Level {
                shape,
                depth: level.depth,
            };
            connected(alloc, text, scope, connective, level, next, tokens)
        }
    }
}

/// What stands behind a connective, whose parts are so.
#[cycle(formula)]
#[tactic(auto, unfolding(crate::specs::Formulas::connected_at))]
fn connected<'t>(
    alloc: Global,
    text: &Text<'_, 't>,
    scope: &mut Scope<'t>,
    connective: Connective,
    level: Level,
    next: u32,
    tokens: &mut Cursor<'_>,
) -> Result<(Formula, u32), InputError>
    ensures given { Gives (λ x. ((x.0, x.1), tokens.new)) result
        (connected_at text.now.bytes.now text.now.symbols.now connective
        (formula_at text.now.bytes.now text.now.symbols.now level.depth level.shape) scope.old next tokens.old) }
    ensures same { OnOk result (scope.new ≡ scope.old) }
{
    mark(Mark::OpenParenthesis, tokens)?;
    let (formula, next) = inside(alloc, text, scope, connective, level, next, tokens)?;
    mark(Mark::CloseParenthesis, tokens)?;
    Ok((formula, next))
}

/// What stands in the parentheses of a connective, whose parts are so.
#[cycle(formula)]
fn inside<'t>(
    alloc: Global,
    text: &Text<'_, 't>,
    scope: &mut Scope<'t>,
    connective: Connective,
    level: Level,
    next: u32,
    tokens: &mut Cursor<'_>,
) -> Result<(Formula, u32), InputError>
    ensures given { Gives (λ x. ((x.0, x.1), tokens.new)) result
        (inside_at text.now.bytes.now text.now.symbols.now connective
        (formula_at text.now.bytes.now text.now.symbols.now level.depth level.shape) scope.old next tokens.old) }
    ensures same { OnOk result (scope.new ≡ scope.old) }
{
    match connective {
        Connective::Not => negation(alloc, text, scope, level, next, tokens),
        Connective::And => several(alloc, text, scope, true, level, next, tokens),
        Connective::Or => several(alloc, text, scope, false, level, next, tokens),
        Connective::Implies | Connective::Implied | Connective::Equiv => {
            pair(alloc, text, scope, connective, level, next, tokens)
        }
        Connective::Forall => quantification(alloc, text, scope, true, level, next, tokens),
        Connective::Exists => quantification(alloc, text, scope, false, level, next, tokens),
    }
}

/// One part.
#[cycle(formula)]
#[tactic(auto, unfolding(crate::specs::Formulas::negation_at))]
fn negation<'t>(
    alloc: Global,
    text: &Text<'_, 't>,
    scope: &mut Scope<'t>,
    level: Level,
    next: u32,
    tokens: &mut Cursor<'_>,
) -> Result<(Formula, u32), InputError>
    ensures given { Gives (λ x. ((x.0, x.1), tokens.new)) result
        (negation_at (formula_at text.now.bytes.now text.now.symbols.now level.depth level.shape) scope.old next tokens.old) }
    ensures same { OnOk result (scope.new ≡ scope.old) }
{
    let (part, next) = formula_within(alloc, text, scope, level, next, tokens)?;
    Ok((Formula::negation(alloc, part)?, next))
}

/// One or more parts.
#[cycle(formula)]
#[tactic(auto, unfolding(crate::specs::Formulas::several_at))]
fn several<'t>(
    alloc: Global,
    text: &Text<'_, 't>,
    scope: &mut Scope<'t>,
    all: bool,
    level: Level,
    next: u32,
    tokens: &mut Cursor<'_>,
) -> Result<(Formula, u32), InputError>
    ensures given { Gives (λ x. ((x.0, x.1), tokens.new)) result
        (several_at text.now.bytes.now all (formula_at text.now.bytes.now text.now.symbols.now level.depth level.shape) scope.old next tokens.old) }
    ensures same { OnOk result (scope.new ≡ scope.old) }
{
    let (found, next) = several_parts(alloc, text, scope, level, next, tokens)?;
    Ok((joined(all, found), next))
}

/// Parts with commas between them.
#[cycle(formula)]
#[tactic(auto, using(dfg_terms::specs::RoundLaws::rounds))]
fn several_parts<'t>(
    alloc: Global,
    text: &Text<'_, 't>,
    scope: &mut Scope<'t>,
    level: Level,
    next: u32,
    tokens: &mut Cursor<'_>,
) -> Result<(Items<Formula>, u32), InputError>
    ensures given { Gives (λ x. ((x.0, x.1), tokens.new)) result
        (commas (adding_part (formula_at text.now.bytes.now text.now.symbols.now level.depth level.shape) scope.old)
        (length text.now.bytes.now) ([], next) tokens.old) }
    ensures same { OnOk result (scope.new ≡ scope.old) }
{
    let mut found = Items::new(alloc);
    let mut number = next;
    for _ in 0..text.bytes.len() {
        let (part, after) = formula_within(alloc, text, scope, level, number, tokens)?;
        found.push(part)?;
        number = after;
        if !next_is_mark(Mark::Comma, tokens) {
            return Ok((found, number));
        }
        tokens.advance();
    }
    Err(unexpected(tokens))
}

/// Two parts under this connective.
#[cycle(formula)]
#[tactic(auto, unfolding(crate::specs::Formulas::pair_at))]
fn pair<'t>(
    alloc: Global,
    text: &Text<'_, 't>,
    scope: &mut Scope<'t>,
    connective: Connective,
    level: Level,
    next: u32,
    tokens: &mut Cursor<'_>,
) -> Result<(Formula, u32), InputError>
    ensures given { Gives (λ x. ((x.0, x.1), tokens.new)) result
        (pair_at connective (formula_at text.now.bytes.now text.now.symbols.now level.depth level.shape) scope.old next tokens.old) }
    ensures same { OnOk result (scope.new ≡ scope.old) }
{
    let (first, next) = formula_within(alloc, text, scope, level, next, tokens)?;
    mark(Mark::Comma, tokens)?;
    let (second, next) = formula_within(alloc, text, scope, level, next, tokens)?;
    Ok((paired(alloc, connective, first, second)?, next))
}

/// Variables in brackets, and one part, in which they are bound.
#[cycle(formula)]
#[tactic(auto, unfolding(crate::specs::Formulas::quantified_at))]
fn quantification<'t>(
    alloc: Global,
    text: &Text<'_, 't>,
    scope: &mut Scope<'t>,
    all: bool,
    level: Level,
    next: u32,
    tokens: &mut Cursor<'_>,
) -> Result<(Formula, u32), InputError>
    ensures given { Gives (λ x. ((x.0, x.1), tokens.new)) result
        (quantified_at text.now.bytes.now text.now.symbols.now all
        (formula_at text.now.bytes.now text.now.symbols.now level.depth level.shape) scope.old next tokens.old) }
    ensures same { OnOk result (scope.new ≡ scope.old) }
{
    let before = scope.len();
    mark(Mark::OpenBracket, tokens)?;
    let (count, sorts) = items(alloc, text, scope, next, tokens)?;
    mark(Mark::CloseBracket, tokens)?;
    mark(Mark::Comma, tokens)?;
    let inner = number_after(next, count)?;
    let (part, after) = formula_within(alloc, text, scope, level, inner, tokens)?;
    scope.leave(before);
    let formula = quantified(alloc, all, next, count as u32, sorts, part)?;
    Ok((formula, after))
}

/// A formula that may stand in the place, or the first fault; beside it the number of the binding that comes next.
///
/// The bindings of the formula are numbered from `next` on, in the order of the text. The scope has the bindings that are
/// in force around it, and has them again afterwards; after an error it may have more.
///
/// The grammar stands apart from reading, as a relation between tokens and formulas (`IsFormulaIn`): what is read is
/// written by the tokens, and each formula that they write, with no parenthesis behind it, is read. The tokens are no more
/// than the bytes of the text. An error is the first fault from left to right, or want of memory.
pub fn formula<'t>(
    alloc: Global,
    text: &Text<'_, 't>,
    scope: &mut Scope<'t>,
    level: Level,
    next: u32,
    tokens: &mut Cursor<'_>,
) -> Result<(Formula, u32), InputError>
    ensures exact { Gives (λ x. ((x.0, x.1), tokens.new)) result
        (formula_at text.now.bytes.now text.now.symbols.now level.depth level.shape scope.old next tokens.old) }
    ensures same { OnOk result (scope.new ≡ scope.old) }
    ensures written { IfOk result (λ x. IsFormulaIn text.now level scope.old next x.0 tokens.old tokens.new) }
    ensures numbered { IfOk result (λ x. x.1 ≡ next + binding_count x.0) }
    ensures every { EachFormulaIsRead text.now level scope.old next result tokens.old tokens.new }
{
    text.symbols.names_are_identifiers();
    formula_within(alloc, text, scope, level, next, tokens)
}
