//! What stands at the front of the bytes: one token, or white space or a comment.

ghost use Rattle.std.specs.Prelude.{true, false, ◌≡◌, ◌+◌, ◌<◌, ◌≤◌, length, drop, IfSome};
ghost use Rattle.std.specs.List.{position_or_len};
ghost use Rattle.dfg_tokens.specs.Tokens.{is_space, is_letter, mark_of, byte_of, ends_name, ends_line, ends_text, text_length, piece_at, text_at, name_at, mark_or_stray, IsWithin, IsWarned};

use crate::word::{Word, word_of};

/// A mark of the grammar.
#[derive(Clone, Copy, PartialEq, Eq, Debug)]
pub enum Mark {
    /// `(`.
    OpenParenthesis,
    /// `)`.
    CloseParenthesis,
    /// `[`.
    OpenBracket,
    /// `]`.
    CloseBracket,
    /// `,`.
    Comma,
    /// `.`.
    Dot,
}

/// What a token is.
#[derive(Clone, Copy, PartialEq, Eq, Debug)]
pub enum TokenKind {
    /// An identifier: the longest run of ASCII letters, digits and `_`.
    Word(Word),
    /// A text: `{*`, any bytes, and the first `*}` after them.
    Text,
    /// A mark.
    Mark(Mark),
    /// A byte that begins no token, and also the `{` of a text that is never closed.
    Stray(u8),
    /// The end of the input.
    End,
}

/// What stands at the front: a token, or white space or a comment where there is no kind.
#[derive(Clone, Copy, Debug)]
pub struct Piece {
    /// The token's kind; none for white space and comments.
    pub kind: Option<TokenKind>,
    /// How many bytes it takes.
    pub len: usize,
}

/// The byte that spells the mark.
pub fn mark_byte(mark: Mark) -> u8
    ensures { result ≡ byte_of mark }
{
    match mark {
        Mark::OpenParenthesis => b'(',
        Mark::CloseParenthesis => b')',
        Mark::OpenBracket => b'[',
        Mark::CloseBracket => b']',
        Mark::Comma => b',',
        Mark::Dot => b'.',
    }
}

/// The mark that the byte spells, if it spells one.
fn mark_of(byte: u8) -> Option<Mark>
    ensures { result ≡ mark_of byte }
{
    if byte == b'(' {
        Some(Mark::OpenParenthesis)
    } else if byte == b')' {
        Some(Mark::CloseParenthesis)
    } else if byte == b'[' {
        Some(Mark::OpenBracket)
    } else if byte == b']' {
        Some(Mark::CloseBracket)
    } else if byte == b',' {
        Some(Mark::Comma)
    } else if byte == b'.' {
        Some(Mark::Dot)
    } else {
        None
    }
}

/// Whether the byte is white space.
fn is_space(byte: u8) -> bool
    ensures { result ≡ is_space byte }
{
    byte == b' ' || byte == b'\t' || byte == b'\r' || byte == b'\n'
}

/// Whether the byte may stand in an identifier.
pub fn is_letter(byte: u8) -> bool
    ensures { result ≡ is_letter byte }
{
    b'a' <= byte && byte <= b'z'
        || b'A' <= byte && byte <= b'Z'
        || b'0' <= byte && byte <= b'9'
        || byte == b'_'
}

/// How many bytes stand before the end of the identifier.
fn name_len(bytes: &[u8]) -> usize
    ensures is { result ≡ position_or_len ends_name bytes.now }
    ensures within { result ≤ length bytes.now }
{
    for (i, byte) in bytes.iter().enumerate() {
        if !is_letter(*byte) {
            return i;
        }
    }
    bytes.len()
}

/// How many bytes stand before the end of the line.
fn comment_len(bytes: &[u8]) -> usize
    ensures is { result ≡ position_or_len ends_line bytes.now }
    ensures within { result ≤ length bytes.now }
{
    for (i, byte) in bytes.iter().enumerate() {
        if *byte == b'\n' {
            return i;
        }
    }
    bytes.len()
}

/// Whether `*}` begins with this byte.
fn is_closed(first: u8, after: &[u8]) -> bool
    ensures { result ≡ ends_text first after.now }
{
    match after {
        [] => false,
        [second, ..] => first == b'*' && *second == b'}',
    }
}

/// How many bytes stand before the first `*}`.
fn before_closing(bytes: &[u8]) -> Option<usize>
    ensures is { result ≡ text_length bytes.now }
    ensures within { IfSome result (λ n. n + 2 ≤ length bytes.now) }
{
    let mut rest = bytes;
    let mut count: usize = 0;
    while let [first, after @ ..] = rest {
        if is_closed(*first, after) {
            return Some(count);
        }
        count += 1;
        rest = after;
    }
    None
}

/// The piece at a `{`, with the bytes after it. Where `may_close` is false it is known that no `*}` follows, and
/// nothing is searched.
#[tactic(auto, unfolding(crate::specs::Tokens::text_at), using(crate::proofs::Texts::unclosed_text))]
fn text_piece(rest: &[u8], may_close: bool) -> Piece
    requires { may_close ≡ false → text_length rest.now ≡ None }
    ensures is { result ≡ text_at rest.now }
    ensures within { (0 < result.len) × (result.len ≤ length rest.now + 1) }
{
    let open = Piece {
        kind: Some(TokenKind::Stray(b'{')),
        len: 1,
    };
    if !may_close {
        return open;
    }
    match rest {
        [b'*', inner @ ..] => match before_closing(inner) {
            Some(count) => Piece {
                kind: Some(TokenKind::Text),
                len: count + 4,
            },
            None => open,
        },
        _ => open,
    }
}

/// The identifier at the front.
#[tactic(auto, unfolding(crate::specs::Tokens::name_at))]
fn name_piece(bytes: &[u8]) -> Piece
    ensures is { result ≡ name_at bytes.now }
    ensures within { IsWithin result bytes.now }
{
    match bytes {
        [] => Piece { kind: None, len: 0 },
        [_, rest @ ..] => {
            let len = name_len(rest) + 1;
            Piece {
                kind: Some(TokenKind::Word(word_of(&bytes[..len]))),
                len,
            }
        }
    }
}

/// The piece at a byte that is no white space, no letter and begins neither a comment nor a text.
fn mark_or_stray(byte: u8) -> Piece
    ensures { result ≡ mark_or_stray byte (mark_of byte) }
{
    match mark_of(byte) {
        Some(mark) => Piece {
            kind: Some(TokenKind::Mark(mark)),
            len: 1,
        },
        None => Piece {
            kind: Some(TokenKind::Stray(byte)),
            len: 1,
        },
    }
}

/// The piece at the front. Where `may_close` is false it is known that no `*}` follows the first byte.
#[tactic(auto, unfolding(crate::specs::Tokens::piece_at))]
pub fn first_piece(bytes: &[u8], may_close: bool) -> Piece
    requires { IsWarned may_close bytes.now }
    ensures is { result ≡ piece_at bytes.now }
    ensures within { IsWithin result bytes.now }
{
    match bytes {
        [] => Piece { kind: None, len: 0 },
        [first, rest @ ..] => {
            let first = *first;
            if is_space(first) {
                Piece { kind: None, len: 1 }
            } else if first == b'%' {
                Piece {
                    kind: None,
                    len: comment_len(rest) + 1,
                }
            } else if is_letter(first) {
                name_piece(bytes)
            } else if first == b'{' {
                text_piece(rest, may_close)
            } else {
                mark_or_stray(first)
            }
        }
    }
}

/// Whether a `*}` may still follow after this piece: false once a text was found to be never closed, so that a run of
/// opened texts is read in time proportional to its length.
#[tactic(auto, using(crate::proofs::Texts::warned_drop))]
pub fn may_still_close(may_close: bool, bytes: &[u8], next: Piece) -> bool
    requires piece { next ≡ piece_at bytes.now }
    requires warned { IsWarned may_close bytes.now }
    ensures { IsWarned result (drop next.len bytes.now) }
{
    may_close && !is_unclosed(bytes, next)
}

/// Whether the piece at the front is the `{` of a text that is never closed.
#[tactic(auto, using(crate::proofs::Texts::text_unclosed))]
fn is_unclosed(bytes: &[u8], next: Piece) -> bool
    requires { next ≡ piece_at bytes.now }
    ensures { result ≡ true → (text_length (drop 2 bytes.now) ≡ None) × (next.len ≡ 1) }
{
    match bytes {
        [b'{', b'*', ..] => next.len == 1,
        _ => false,
    }
}
