//! How far the characters of a token or of a comment reach.
ghost use Rattle.std.specs.Prelude.{◌≡◌, ◌≤◌, length, codes, IfSome, IsTrue};
ghost use Rattle.unicode_ident.specs.Ident.{is_xid_continue};
ghost use Rattle.ale_token.specs.Pieces.{begins, span, is_digit, is_in_line, up_to, comment, quoted};

use crate::character::is_digit;
use unicode_ident::is_xid_continue;

/// How many characters at the start may continue a name.
pub(crate) fn name_length(chars: &[char]) -> usize
    ensures value { result ≡ span is_xid_continue chars.now }
    ensures within { result ≤ length chars.now }
{
    for (i, c) in chars.iter().enumerate() {
        if !is_xid_continue(*c) {
            return i;
        }
    }
    chars.len()
}

/// How many characters at the start are ASCII digits.
pub(crate) fn number_length(chars: &[char]) -> usize
    ensures value { result ≡ span is_digit chars.now }
    ensures within { result ≤ length chars.now }
{
    for (i, c) in chars.iter().enumerate() {
        if !is_digit(*c) {
            return i;
        }
    }
    chars.len()
}

/// How many characters stand before the next line feed, or before the end.
pub(crate) fn line_length(chars: &[char]) -> usize
    ensures value { result ≡ span is_in_line chars.now }
    ensures within { result ≤ length chars.now }
{
    for (i, c) in chars.iter().enumerate() {
        if *c == '\n' {
            return i;
        }
    }
    chars.len()
}

/// How many characters reach to the end of the next double quote.
pub(crate) fn double_quoted_length(chars: &[char]) -> Option<usize>
    ensures value { result ≡ up_to 34 chars.now }
    ensures within { IfSome result (λ n. n ≤ length chars.now) }
{
    for (i, c) in chars.iter().enumerate() {
        if *c == '"' {
            return Some(i + 1);
        }
    }
    None
}

/// How many characters reach to the end of the next `*/`.
pub(crate) fn comment_length(chars: &[char]) -> Option<usize>
    ensures value { result ≡ comment chars.now }
    ensures within { IfSome result (λ n. n ≤ length chars.now) }
{
    let mut count = 0;
    let mut rest = chars;
    while let [_, after @ ..] = rest {
        if closes_comment(rest) {
            return Some(count + 2);
        }
        count += 1;
        rest = after;
    }
    None
}

/// Whether `*/` stands at the start.
pub(crate) fn closes_comment(chars: &[char]) -> bool
    ensures value { result ≡ begins (codes "*/") chars.now }
    ensures within { IsTrue result → 2 ≤ length chars.now }
{
    matches!(chars, ['*', '/', ..])
}

/// Whether a single quote stands at the start.
pub(crate) fn is_doubled(chars: &[char]) -> bool
    ensures value { result ≡ begins (codes "'") chars.now }
    ensures within { IsTrue result → 1 ≤ length chars.now }
{
    matches!(chars, ['\'', ..])
}

/// How many characters reach to the end of the quote that closes a name. Two quotes do not close it.
pub(crate) fn quoted_length(chars: &[char]) -> Option<usize>
    ensures value { result ≡ quoted chars.now }
    ensures within { IfSome result (λ n. n ≤ length chars.now) }
{
    let mut count = 0;
    let mut rest = chars;
    while let [c, after @ ..] = rest {
        if *c != '\'' {
            count += 1;
            rest = after;
        } else if is_doubled(after) {
            count += 2;
            rest = &after[1..];
        } else {
            return Some(count + 1);
        }
    }
    None
}
