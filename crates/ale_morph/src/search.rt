//! The search for a way in which the left side of a line fits a word, with a stack on the heap: a side may have as
//! many pieces as a file can hold.

ghost use Rattle.std.specs.Prelude.{◌≡◌, false, IfOk, [], option_map};
ghost use Rattle.ale_morph.specs.Search.{fill, text_in};
ghost use Rattle.ale_morph.specs.Stack.{as_step, from_top, go_behind, go_slot, resume, step, fillings, top_first};

use crate::line::Piece;
use crate::prefix::{behind, behind_letters};
use crate::stack::{OpenSlot, back, text_of};
use crate::status::Status;
use std::alloc::{AllocError, Global};
use std::marker::Model;

// Where a search stands.
#[derive(Drop)]
struct Search<'a> {
    stack: Vec<OpenSlot<'a>>,
    pieces: &'a [Piece],
    rest: &'a [char],
}

impl<'a> Model for Search<'a> {
    ghost use Rattle.ale_morph.specs.Stack.{State, top_first};

    ghost Value = { State };

    ghost view = { λ s. record { stack = top_first s.stack.items; pieces = s.pieces.now; rest = s.rest.now } };
}

impl<'a> Search<'a> {
    // Goes on with the next longer text.
    fn resume(&mut self) -> Result<Status, AllocError>
        ensures { IfOk result (λ s. as_step s self.new ≡ from_top (resume false self.old.stack)) }
    {
        match back(&mut self.stack) {
            None => Ok(Status::Fails),
            Some(longer) => {
                self.pieces = longer.others();
                self.rest = longer.left();
                self.stack.push(longer)?;
                Ok(Status::Goes)
            }
        }
    }

    // Goes on with the other pieces, where something is left for them.
    fn go_behind(
        &mut self,
        others: &'a [Piece],
        left: Option<&'a [char]>,
    ) -> Result<Status, AllocError>
        ensures { IfOk result (λ s. as_step s self.new ≡ go_behind self.old.stack others.now (option_map (λ t. t.now) left.entry)) }
    {
        match left {
            None => self.resume(),
            Some(rest) => {
                self.pieces = others;
                self.rest = rest;
                Ok(Status::Goes)
            }
        }
    }

    // Goes on with the pieces behind a slot, where it has a text; else opens it.
    fn go_slot(&mut self, slot: u32, others: &'a [Piece]) -> Result<Status, AllocError>
        ensures { IfOk result (λ s. as_step s self.new ≡ go_slot self.old.stack slot others.now self.old.rest (text_in (fillings self.old.stack) slot)) }
    {
        match text_of(self.stack.as_slice(), slot) {
            Some(text) => self.go_behind(others, behind(text, self.rest)),
            None => {
                self.stack.push(OpenSlot::of(slot, others, self.rest))?;
                self.resume()
            }
        }
    }

    // One piece more.
    fn step(&mut self) -> Result<Status, AllocError>
        ensures { IfOk result (λ s. as_step s self.new ≡ step self.old) }
    {
        match self.pieces {
            [] if self.rest.is_empty() => Ok(Status::Found),
            [] => self.resume(),
            [Piece::Letters(letters), others @ ..] => self.go_behind(
                others,
                behind_letters(letters, self.rest),
            ),
            [Piece::Slot(slot), others @ ..] => self.go_slot(*slot, others),
        }
    }
}

// The open slots with the texts with which the side spells the word, where there are such.
pub(crate) fn fit<'a>(
    alloc: Global,
    side: &'a [Piece],
    word: &'a [char],
) -> Result<Option<Vec<OpenSlot<'a>>>, AllocError>
    ensures { IfOk result (λ way. option_map (λ v. fillings (top_first v.items)) way ≡ fill [] side.now word.now) }
{
    let mut search = Search {
        stack: Vec::new(alloc),
        pieces: side,
        rest: word,
    };
    let mut status = Status::Goes;
    while let Status::Goes = status {
        status = search.step()?;
    }
    match status {
        Status::Found => Ok(Some(search.stack)),
        _ => Ok(None),
    }
}
