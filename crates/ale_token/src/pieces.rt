//! What begins at a place of a text.
ghost use Rattle.std.specs.Prelude.{◌≡◌, ◌+◌, ◌≤◌, ◌<◌, ◌∷◌, IsTrue, drop, length, codes};
ghost use Rattle.ale_token.specs.Pieces.{begins, closed, comment, ends_here, mark_at, piece, token_at, EndsWithin};
ghost use Rattle.ale_token.specs.declared.pieces.Piece.TheVariants.{Gap, Word};

use crate::character::{is_digit, is_layout, is_other, starts_atom, starts_variable};
use crate::spans::{
    comment_length, double_quoted_length, line_length, name_length, number_length, quoted_length,
};
use crate::symbols::symbol_length;
use crate::token::Kind;

/// What begins at a place. The number counts the characters after the first.
#[derive(Clone, Copy, Debug)]
pub enum Piece {
    /// Layout or a comment.
    Gap(usize),
    /// A token.
    Word(Kind, usize),
    /// No token, no layout and no comment.
    Bad,
}

/// What begins at the start.
#[tactic(auto, unfolding(crate::specs::Pieces::piece))]
pub(crate) fn piece_at(chars: &[char]) -> Piece
    ensures value { result ≡ piece chars.now }
    ensures within { EndsWithin (length chars.now) result }
{
    let [c, rest @ ..] = chars else {
        return Piece::Bad;
    };
    if is_layout(*c) {
        Piece::Gap(0)
    } else if *c == '%' {
        Piece::Gap(line_length(rest))
    } else if opens_comment(chars) {
        comment_at(chars)
    } else {
        token_at(*c, rest, chars)
    }
}

/// Whether `/*` stands at the start.
fn opens_comment(chars: &[char]) -> bool
    ensures value { result ≡ begins (codes "/*") chars.now }
    ensures within { IsTrue result → 2 ≤ length chars.now }
{
    match chars {
        ['/', '*', ..] => true,
        _ => false,
    }
}

/// The comment whose `/*` stands at the start.
fn comment_at(chars: &[char]) -> Piece
    requires { 2 ≤ length chars.now }
    ensures value { result ≡ closed (λ n. Gap (n + 1)) (comment (drop 2 chars.now)) }
    ensures within { EndsWithin (length chars.now) result }
{
    match comment_length(&chars[2..]) {
        Some(count) => Piece::Gap(count + 1),
        None => Piece::Bad,
    }
}

/// The token that reaches so far, or none.
fn closed(kind: Kind, length: Option<usize>) -> Piece
    ensures { result ≡ closed (Word kind) length }
{
    match length {
        Some(count) => Piece::Word(kind, count),
        None => Piece::Bad,
    }
}

/// Whether a `.` before this ends a declaration.
fn ends_here(chars: &[char]) -> bool
    ensures { result ≡ ends_here chars.now }
{
    match chars {
        [] => true,
        [c, ..] => is_layout(*c) || *c == '%',
    }
}

/// The token that begins with `c`, before `rest`; both together are `chars`.
fn token_at(c: char, rest: &[char], chars: &[char]) -> Piece
    requires { chars.now ≡ c ∷ rest.now }
    ensures value { result ≡ token_at c rest.now }
    ensures within { EndsWithin (length chars.now) result }
{
    if starts_atom(c) {
        Piece::Word(Kind::Atom, name_length(rest))
    } else if c == '\'' {
        closed(Kind::Quoted, quoted_length(rest))
    } else if starts_variable(c) {
        Piece::Word(Kind::Variable, name_length(rest))
    } else if is_digit(c) {
        Piece::Word(Kind::Number, number_length(rest))
    } else if c == '.' && ends_here(rest) {
        Piece::Word(Kind::End, 0)
    } else {
        mark_at(c, rest, chars)
    }
}

/// The symbol, or the other token, that begins with `c`, before `rest`; both together are `chars`.
fn mark_at(c: char, rest: &[char], chars: &[char]) -> Piece
    requires { chars.now ≡ c ∷ rest.now }
    ensures value { result ≡ mark_at c rest.now }
    ensures within { EndsWithin (length chars.now) result }
{
    let symbol = symbol_length(chars);
    if symbol > 0 {
        Piece::Word(Kind::Symbol, symbol - 1)
    } else if is_other(c) {
        Piece::Word(Kind::Other, 0)
    } else if c == '"' {
        closed(Kind::Other, double_quoted_length(rest))
    } else {
        Piece::Bad
    }
}
