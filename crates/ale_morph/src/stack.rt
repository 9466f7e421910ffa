//! Open slots: the stack of a search.

ghost use Rattle.std.specs.Prelude.{◌≡◌, false, [], option_map};
ghost use Rattle.ale_morph.specs.Search.{text_in};
ghost use Rattle.ale_morph.specs.Stack.{opened, grown, longer, put_on, resume, fillings, top_first};

use crate::bound::stands;
use crate::line::Piece;
use std::marker::Model;

// A slot that was free, and the text that is tried for it.
#[derive(Drop)]
pub(crate) struct OpenSlot<'a> {
    slot: u32,
    // Whether it stands nowhere in the pieces behind it.
    once: bool,
    others: &'a [Piece],
    // The characters from its place on.
    rest: &'a [char],
    // How many of them are its text.
    taken: usize,
}

impl<'a> Model for OpenSlot<'a> {
    ghost use Rattle.std.specs.Prelude.{◌≤◌, take, drop, length};
    ghost use Rattle.ale_morph.specs.Stack.{Open};

    ghost Value = { Open };

    ghost view = { λ o. record { slot = o.slot; once = o.once; others = o.others.now; text = take o.taken o.rest.now; left = drop o.taken o.rest.now } };

    ghost invariant = { λ o. o.taken ≤ length o.rest.now };
}

impl<'a> OpenSlot<'a> {
    // The slot before it has a text.
    pub fn of(slot: u32, others: &'a [Piece], rest: &'a [char]) -> OpenSlot<'a>
        ensures { result ≡ opened slot others.now rest.now }
    {
        OpenSlot {
            slot,
            once: !stands(slot, others),
            others,
            rest,
            taken: 0,
        }
    }

    // The pieces behind it.
    pub fn others(&self) -> &'a [Piece]
        ensures { result.now ≡ self.now.others }
    {
        self.others
    }

    // Its text.
    pub fn text(&self) -> &'a [char]
        ensures { result.now ≡ self.now.text }
    {
        &self.rest[..self.taken]
    }

    // The characters behind its text.
    pub fn left(&self) -> &'a [char]
        ensures { result.now ≡ self.now.left }
    {
        &self.rest[self.taken..]
    }

    // With one character more, if there is one.
    fn grown(&self) -> Option<OpenSlot<'a>>
        ensures { result ≡ grown self.now self.now.left }
    {
        if self.taken == self.rest.len() {
            return None;
        }
        Some(OpenSlot {
            slot: self.slot,
            once: self.once,
            others: self.others,
            rest: self.rest,
            taken: self.taken + 1,
        })
    }

    // The longer text to try, where the pieces behind it failed, and if hopeless, at every later place too.
    fn longer(&self, hopeless: bool) -> Option<OpenSlot<'a>>
        ensures { result ≡ longer hopeless self.now }
    {
        if hopeless && self.once {
            return None;
        }
        self.grown()
    }
}

// The text of the slot, where it is open.
pub(crate) fn text_of<'a>(stack: &[OpenSlot<'a>], slot: u32) -> Option<&'a [char]>
    ensures { option_map (λ t. t.now) result ≡ text_in (fillings (top_first stack.now)) slot }
{
    let mut text = None;
    for open_slot in stack {
        if open_slot.slot == slot {
            text = Some(open_slot.text());
        }
    }
    text
}

// Takes slots off the stack until one has a longer text to try, and gives that one with it; none, where no slot has.
pub(crate) fn back<'a>(stack: &mut Vec<OpenSlot<'a>>) -> Option<OpenSlot<'a>>
    ensures { put_on result (top_first stack.new.items) [] ≡ resume false (top_first stack.old.items) }
{
    let mut hopeless = false;
    while let Some(last) = stack.pop() {
        if let Some(longer) = last.longer(hopeless) {
            return Some(longer);
        }
        hopeless = last.once;
    }
    None
}
