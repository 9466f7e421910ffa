//! Files that are cut into their declarations or commands.
ghost use Rattle.std.specs.Prelude.{◌≡◌, ◌<◌, ℕ, List, true, false, IfOk, IfErr};
ghost use Rattle.std.specs.List.{All};
ghost use Rattle.std.specs.Str.{chars, is_utf8};
ghost use Rattle.std.specs.Str.Lossy.{utf8_valid_len};
ghost use Rattle.ale_token.specs.Tokens.{tokens_of};
ghost use Rattle.ale_token.specs.Places.{Stands};
ghost use Rattle.ale_token.specs.Declarations.{declarations_of, IsDeclaration};
ghost use Rattle.ale_load.specs.declared.file_error.FileError.TheVariants.{NotText};
ghost use Rattle.ale_load.specs.Files.{file_limit, token_fault, unread, cut_of, tokens_cut};
ghost use Rattle.ale_load.specs.Results.{CutGives};
ghost use Rattle.ale_load.specs.Views.{parts_in};

use crate::file_error::FileError;
use ale_token::{Token, TokenError, cut_declarations, tokens};
use std::alloc::Global;

/// The most bytes that a file may have.
pub const FILE_LIMIT: usize = 4_194_304;

// A text that is cut: its tokens, and the range of them that each part has.
#[derive(Drop)]
pub(crate) struct Parts<'a> {
    pub(crate) text: &'a str,
    pub(crate) tokens: Vec<Token>,
    pub(crate) ranges: Vec<(usize, usize)>,
}

// The text that the bytes are.
fn text_in(bytes: &[u8]) -> Result<&str, FileError>
    ensures text { IfOk result (λ s. s.now ≡ bytes.now) }
    ensures utf8 { IfOk result (λ _. is_utf8 bytes.now ≡ true) }
    ensures not_text { IfErr result (λ e. e ≡ NotText (utf8_valid_len bytes.now)) }
    ensures other { IfErr result (λ _. is_utf8 bytes.now ≡ false) }
{
    match str::from_utf8(bytes) {
        Ok(text) => Ok(text),
        Err(error) => Err(FileError::NotText(error.valid_up_to())),
    }
}

// Why a file with such tokens is not cut.
fn token_fault(error: TokenError) -> FileError
    ensures { result ≡ token_fault error }
{
    match error {
        TokenError::NoMemory => FileError::NoMemory,
        error => FileError::Unread(error),
    }
}

// The tokens of the text.
fn tokens_in(alloc: Global, text: &str) -> Result<Vec<Token>, FileError>
    ensures exact { CutGives (λ v. v.items) result (unread (tokens_of (chars text.now))) }
    ensures stand { IfOk result (λ v. All (Stands text.now) v.items) }
{
    match tokens(alloc, text) {
        Ok(tokens) => Ok(tokens),
        Err(error) => Err(token_fault(error)),
    }
}

// The ranges of tokens between the ends.
fn ranges_in(alloc: Global, tokens: &[Token]) -> Result<Vec<(usize, usize)>, FileError>
    ensures exact { CutGives {B = List (ℕ × ℕ)} (λ v. v.items) result (unread (declarations_of tokens.now)) }
    ensures each { IfOk result (λ v. All {X = ℕ × ℕ} (IsDeclaration tokens.now) v.items) }
{
    match cut_declarations(alloc, tokens) {
        Ok(ranges) => Ok(ranges),
        Err(error) => Err(token_fault(error)),
    }
}

// The parts of the text.
fn parts_of<'a>(alloc: Global, text: &'a str) -> Result<Parts<'a>, FileError>
    ensures exact { CutGives parts_in result (tokens_cut text.now) }
    ensures stand { IfOk result (λ p. All (Stands p.text.now) p.tokens.items) }
    ensures each { IfOk result (λ p. All {X = ℕ × ℕ} (IsDeclaration p.tokens.items) p.ranges.items) }
{
    let tokens = tokens_in(alloc, text)?;
    let ranges = ranges_in(alloc, tokens.as_slice())?;
    Ok(Parts {
        text,
        tokens,
        ranges,
    })
}

// The parts of the file with these bytes.
pub(crate) fn cut<'a>(alloc: Global, bytes: &'a [u8]) -> Result<Parts<'a>, FileError>
    ensures exact { CutGives parts_in result (cut_of bytes.now) }
    ensures stand { IfOk result (λ p. All (Stands p.text.now) p.tokens.items) }
    ensures each { IfOk result (λ p. All {X = ℕ × ℕ} (IsDeclaration p.tokens.items) p.ranges.items) }
{
    if bytes.len() > FILE_LIMIT {
        return Err(FileError::TooLong);
    }
    let text = text_in(bytes)?;
    parts_of(alloc, text)
}
