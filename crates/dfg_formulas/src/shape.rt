//! Which words may stand in which shape of formula.

ghost use Rattle.std.specs.Prelude.{◌≡◌};
ghost use Rattle.dfg_formulas.specs.Shapes.{parts, word_head, head_of, next_head, may_begin};

use dfg_tokens::{Cursor, TokenKind, Word};

/// What a formula may be.
#[derive(Clone, Copy, Debug, PartialEq, Eq)]
pub enum Shape {
    /// Any formula.
    Formula,
    /// A clause: a body, or a `forall` of one.
    Clause,
    /// An `or` of literals, or a literal.
    Body,
    /// An unsigned literal, or its negation.
    Literal,
    /// `true`, `false` or an atom.
    Unsigned,
}

/// A word with parts in parentheses behind it.
#[derive(Clone, Copy, Debug, PartialEq, Eq)]
pub enum Connective {
    /// `not(F)`.
    Not,
    /// `and(F,..)`.
    And,
    /// `or(F,..)`.
    Or,
    /// `implies(F,G)`.
    Implies,
    /// `implied(F,G)`: G implies F.
    Implied,
    /// `equiv(F,G)`.
    Equiv,
    /// `forall([v,..],F)`.
    Forall,
    /// `exists([v,..],F)`.
    Exists,
}

/// What a token begins.
#[derive(Clone, Copy, Debug)]
pub enum Head {
    /// `true` or `false`.
    Constant(bool),
    /// A formula with parts.
    Connected(Connective),
    /// An atom, if its name is declared.
    Atom,
    /// No formula.
    Nothing,
}

/// The shape of the parts of the connective, if it may stand in this shape.
pub fn parts(shape: Shape, connective: Connective) -> Option<Shape>
    ensures { result ≡ parts shape connective }
{
    match (shape, connective) {
        (Shape::Formula, _) => Some(Shape::Formula),
        (Shape::Clause, Connective::Forall) => Some(Shape::Body),
        (Shape::Clause | Shape::Body, Connective::Or) => Some(Shape::Literal),
        (Shape::Clause | Shape::Body | Shape::Literal, Connective::Not) => Some(Shape::Unsigned),
        _ => None,
    }
}

/// What the identifier begins.
fn word_head(word: Word) -> Head
    ensures { result ≡ word_head word }
{
    match word {
        Word::True => Head::Constant(true),
        Word::False => Head::Constant(false),
        Word::Not => Head::Connected(Connective::Not),
        Word::And => Head::Connected(Connective::And),
        Word::Or => Head::Connected(Connective::Or),
        Word::Implies => Head::Connected(Connective::Implies),
        Word::Implied => Head::Connected(Connective::Implied),
        Word::Equiv => Head::Connected(Connective::Equiv),
        Word::Forall => Head::Connected(Connective::Forall),
        Word::Exists => Head::Connected(Connective::Exists),
        _ => Head::Atom,
    }
}

/// What the token begins.
fn head_of(kind: TokenKind) -> Head
    ensures { result ≡ head_of kind }
{
    match kind {
        TokenKind::Word(word) => word_head(word),
        _ => Head::Nothing,
    }
}

/// What the next token begins.
#[tactic(auto, unfolding(crate::specs::Shapes::next_head))]
pub fn next_head(tokens: &Cursor<'_>) -> Head
    ensures { result ≡ next_head tokens.now }
{
    match tokens.next() {
        None => Head::Nothing,
        Some(first) => head_of(first.kind),
    }
}

/// Whether a formula of this shape may begin so.
pub fn may_begin(shape: Shape, head: Head) -> bool
    ensures { result ≡ may_begin shape head }
{
    match head {
        Head::Constant(_) | Head::Atom => true,
        Head::Connected(connective) => parts(shape, connective).is_some(),
        Head::Nothing => false,
    }
}
