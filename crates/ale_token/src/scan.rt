//! The tokens of a text.
ghost use Rattle.std.specs.Prelude.{◌≡◌, ◌↔◌, ◌+◌, ◌^◌, ◌<◌, ℕ, suc, List, length, take, drop, Ok, Err, IfOk, IfErr};
ghost use Rattle.std.specs.List.{All};
ghost use Rattle.std.specs.Str.{chars};
ghost use Rattle.ale_token.specs.Answers.{Gives};
ghost use Rattle.ale_token.specs.Tokens.{byte_length, tokens_of, Reads, BadAt, ReadOrBad, IsRefusal, ReadInOneWay, BadAtOnePlace, NotBoth};
ghost use Rattle.ale_token.specs.Places.{Stands, InOrder};
ghost use Rattle.ale_token.specs.declared.token.Token.{Token};
ghost use Rattle.ale_token.specs.declared.token.TokenError.TheVariants.{BadToken};

use crate::pieces::{Piece, piece_at};
use crate::token::{Token, TokenError};
use std::alloc::Global;

/// The tokens of a text, in order. The places are bytes of the text, from 0.
///
/// # Errors
///
/// `BadToken(p)` exactly where no token begins at `p` and all before `p` is tokens, layout and comments, and
/// `NoMemory` where memory runs out; never `NoEnd`.
pub fn tokens(alloc: Global, text: &str) -> Result<Vec<Token>, TokenError>
    ensures exact { Gives (λ v. v.items) result (tokens_of (chars text.now)) }
    ensures found { IfOk result (λ v. Reads 0 (chars text.now) v.items) }
    ensures only { (ts : List Token) → Reads 0 (chars text.now) ts → Gives (λ v. v.items) result (Ok ts) }
    ensures cause { IfErr result (IsRefusal (chars text.now)) }
    ensures refused { (p : ℕ) → BadAt 0 (chars text.now) p → Gives {A = Token} (λ v. v.items) result (Err (BadToken p)) }
    ensures stand { IfOk result (λ v. All (Stands text.now) v.items) }
    ensures in_order { IfOk result (λ v. InOrder 0 v.items) }
{
    let characters: Vec<char> = text.chars().collect(alloc)?;
    scan(alloc, characters.as_slice())
}

/// Each text either has tokens, in one way, or is bad at one place; and the function that `tokens` carries out
/// gives just this.
pub fn one_reading()
    ensures same { ReadInOneWay }
    ensures place { BadAtOnePlace }
    ensures apart { NotBoth }
    ensures either { (cs : List ℕ) → ReadOrBad 0 cs }
    ensures reads { (cs : List ℕ) (ts : List Token) → Reads 0 cs ts ↔ tokens_of cs ≡ Ok ts }
    ensures bad { (cs : List ℕ) (p : ℕ) → BadAt 0 cs p ↔ tokens_of cs ≡ Err (BadToken p) }
{}

/// The tokens of a text whose characters are these.
fn scan(alloc: Global, chars: &[char]) -> Result<Vec<Token>, TokenError>
    requires { byte_length chars.now < 2 ^ 64 }
    ensures { Gives (λ v. v.items) result (tokens_of chars.now) }
{
    let mut read = Vec::new(alloc);
    let mut place = 0;
    let mut rest = chars;
    while !rest.is_empty() {
        match piece_at(rest) {
            Piece::Gap(count) => (place, rest) = past(place, rest, count),
            Piece::Word(kind, count) => {
                let (to, after) = past(place, rest, count);
                read.push(Token {
                    kind,
                    from: place,
                    to,
                })?;
                place = to;
                rest = after;
            }
            Piece::Bad => return Err(TokenError::BadToken(place)),
        }
    }
    Ok(read)
}

/// The place after the first character and `count` more, and what follows there.
fn past(place: usize, chars: &[char], count: usize) -> (usize, &[char])
    requires within { count < length chars.now }
    requires fits { place + byte_length chars.now < 2 ^ 64 }
    ensures place { result.0 ≡ place + byte_length (take (suc count) chars.now) }
    ensures rest { result.1.now ≡ drop (suc count) chars.now }
    ensures shorter { length result.1.now < length chars.now }
    ensures all { result.0 + byte_length result.1.now ≡ place + byte_length chars.now }
{
    let (passed, rest) = chars.split_at(count + 1);
    (place + byte_length(passed), rest)
}

/// How many bytes these characters take.
fn byte_length(chars: &[char]) -> usize
    requires { byte_length chars.now < 2 ^ 64 }
    ensures { result ≡ byte_length chars.now }
{
    let mut bytes = 0;
    for c in chars {
        bytes += c.len_utf8();
    }
    bytes
}
