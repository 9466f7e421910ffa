ghost use Rattle.std.specs.Prelude.{
  ◌≡◌,
  ℕ,
  ◌+◌,
  ◌*◌,
  ◌<◌,
  ◌≤◌,
  ◌==◌,
  ◌&&◌,
  ◌||◌,
  ◌⊎◌,
  ◌/◌,
  ◌%◌,
  ◌↔◌,
  false,
  IfOk,
  IfSome,
  IfNone,
  IsTrue,
  slice_index,
  vec_len,
  bit_or,
};
ghost use Rattle.std.specs.Int.{bit_at};
ghost use Rattle.ale_relation.specs.Rows.{
  row_width,
  holds,
  count_below,
  both_hold,
  both_but,
  HasNone,
  HasSome,
  IsFirst,
};

use std::alloc::{AllocError, Global};
use std::marker::Model;

/// The bits of a word.
const WORD: usize = 64;

/// A relation on the numbers below a size, at most 65,536: for each number a row of bits, of which
/// bit `b` says whether the number stands to `b`.
#[derive(Debug, Drop)]
pub struct Relation {
    size: usize,
    /// How many words make a row.
    width: usize,
    words: Vec<u64>,
}

impl Model for Relation {
    ghost use Rattle.std.specs.Prelude.{◌≡◌, ◌*◌, ◌≤◌, length};
    ghost use Rattle.ale_relation.specs.Rows.{Rows, row_width};

    ghost Value = { Rows };

    ghost view = { λ r. record { size = r.size; words = r.words.items } };

    ghost invariant = { λ r. record {
      small : r.size ≤ 65536;
      wide : r.width ≡ row_width r.size;
      whole : length r.words.items ≡ r.size * r.width;
    } };
}

impl Relation {
    /// The relation on the numbers below `size` in which nothing stands to anything.
    ///
    /// It takes a bit for each pair, in whole words. The error is want of memory.
    pub fn new(alloc: Global, size: usize) -> Result<Relation, AllocError>
        requires { size ≤ 65536 }
        ensures size { IfOk result (λ r. r.size ≡ size) }
        ensures empty { IfOk result
            (λ r. (a b : ℕ) → a < size → b < size → holds r a b ≡ false) }
    {
        let width = size.div_ceil(WORD);
        let words = vec![in alloc; 0; size * width]?;
        Ok(Relation { size, width, words })
    }

    /// The number below which all the numbers of the relation are.
    pub fn size(&self) -> usize
        ensures { result ≡ self.now.size }
    {
        self.size
    }

    /// Whether `a` stands to `b`.
    pub fn holds(&self, a: usize, b: usize) -> bool
        requires a_in { a < self.now.size }
        requires b_in { b < self.now.size }
        ensures { result ≡ holds self.now a b }
    {
        (self.words[a * self.width + b / WORD] >> (b % WORD)) & 1 == 1
    }

    /// Lets `a` stand to `b`, and changes nothing else.
    pub fn add(&mut self, a: usize, b: usize)
        requires a_in { a < self.old.size }
        requires b_in { b < self.old.size }
        ensures size { self.new.size ≡ self.old.size }
        ensures adds { (x y : ℕ) → x < self.old.size → y < self.old.size →
            holds self.new x y ≡ ((x == a && y == b) || holds self.old x y) }
    {
        let place = a * self.width + b / WORD;
        self.words[place] |= 1 << (b % WORD);
    }

    /// How many numbers `a` stands to.
    pub fn count(&self, a: usize) -> usize
        requires { a < self.now.size }
        ensures { result ≡ count_below (λ b. holds self.now a b) self.now.size }
    {
        let mut count = 0;
        for b in 0..self.size {
            if self.holds(a, b) {
                count += 1;
            }
        }
        count
    }

    /// The first number to which both `a` and `b` stand.
    ///
    /// It takes a step for each word of a row, and for each bit of the words in which both rows have a bit.
    pub fn first_common(&self, a: usize, b: usize) -> Option<usize>
        requires a_in { a < self.now.size }
        requires b_in { b < self.now.size }
        ensures some { IfSome result (λ k. IsFirst (both_hold self.now a b) 0 self.now.size k) }
        ensures none { IfNone result (HasNone (both_hold self.now a b) 0 self.now.size) }
    {
        for place in 0..self.width {
            if self.word(a, place) & self.word(b, place) != 0 {
                let found = self.first_common_in(a, b, place);
                if found.is_some() {
                    return found;
                }
            }
        }
        None
    }

    /// Whether `a` and `b` stand to a number to which `c` does not.
    ///
    /// It takes a step for each word of a row, and for each bit of the words in which there is such a number.
    pub fn has_common_outside(&self, a: usize, b: usize, c: usize) -> bool
        requires a_in { a < self.now.size }
        requires b_in { b < self.now.size }
        requires c_in { c < self.now.size }
        ensures { IsTrue result ↔ HasSome (both_but self.now a b c) 0 self.now.size }
    {
        for place in 0..self.width {
            let common = self.word(a, place) & self.word(b, place);
            if common & self.word(c, place) != common && self.has_outside_in(a, b, c, place) {
                return true;
            }
        }
        false
    }

    /// The word of a row at a place.
    fn word(&self, a: usize, place: usize) -> u64
        requires a_in { a < self.now.size }
        requires place_in { place < row_width self.now.size }
        ensures { (k : ℕ) → k / 64 ≡ place →
            holds self.now a k ≡ (bit_at result (k % 64) == 1) }
    {
        self.words[a * self.width + place]
    }

    /// The first number to which both `a` and `b` stand of those whose bits are in the word at a place.
    fn first_common_in(&self, a: usize, b: usize, place: usize) -> Option<usize>
        requires a_in { a < self.now.size }
        requires b_in { b < self.now.size }
        requires place_in { place < row_width self.now.size }
        ensures some { IfSome result (λ k. IsFirst (both_hold self.now a b) (place * 64) self.now.size k) }
        ensures none { IfNone result
            ((k : ℕ) → k < self.now.size → k / 64 ≡ place → both_hold self.now a b k ≡ false) }
    {
        let size = self.size;
        let start = place * WORD;
        for k in start..size.min(start + WORD) {
            if self.holds(a, k) && self.holds(b, k) {
                return Some(k);
            }
        }
        None
    }

    /// Whether `a` and `b` stand to a number to which `c` does not, of those whose bits are in the word at a place.
    fn has_outside_in(&self, a: usize, b: usize, c: usize, place: usize) -> bool
        requires a_in { a < self.now.size }
        requires b_in { b < self.now.size }
        requires c_in { c < self.now.size }
        requires place_in { place < row_width self.now.size }
        ensures some { IsTrue result → HasSome (both_but self.now a b c) 0 self.now.size }
        ensures none { result ≡ false →
            (k : ℕ) → k < self.now.size → k / 64 ≡ place → both_but self.now a b c k ≡ false }
    {
        let size = self.size;
        let start = place * WORD;
        for k in start..size.min(start + WORD) {
            if self.holds(a, k) && self.holds(b, k) && !self.holds(c, k) {
                return true;
            }
        }
        false
    }

    /// Lets each number that stands to `middle` stand to all that `middle` stands to.
    pub(crate) fn pass_through(&mut self, middle: usize)
        requires { middle < self.old.size }
        ensures size { self.new.size ≡ self.old.size }
        ensures passes { (x y : ℕ) → x < self.old.size → y < self.old.size →
            holds self.new x y
            ≡ (holds self.old x y || (holds self.old x middle && holds self.old middle y)) }
    {
        for row in 0..self.size() {
            if self.holds(row, middle) {
                self.join_row(row, middle);
            }
        }
    }

    /// Lets `to` stand to all that `from` stands to.
    fn join_row(&mut self, to: usize, from: usize)
        requires to_in { to < self.old.size }
        requires from_in { from < self.old.size }
        ensures size { self.new.size ≡ self.old.size }
        ensures joins { (x y : ℕ) → x < self.old.size → y < self.old.size →
            holds self.new x y ≡ (holds self.old x y || (x == to && holds self.old from y)) }
    {
        let width = self.width;
        join_words(&mut self.words, to * width, from * width, width);
    }
}

/// Sets in each of the `count` words at `to` the bits of its fellow among those at `from`.
fn join_words(words: &mut Vec<u64>, to: usize, from: usize, count: usize)
    requires to_fits { to + count ≤ vec_len words.old }
    requires from_fits { from + count ≤ vec_len words.old }
    requires apart { (from + count ≤ to) ⊎ (to ≤ from) }
    ensures len { vec_len words.new ≡ vec_len words.old }
    ensures joined { (k : ℕ) → k < count →
        slice_index words.new.items (to + k)
        ≡ bit_or (slice_index words.old.items (to + k)) (slice_index words.old.items (from + k)) }
    ensures others { (j : ℕ) → (j < to) ⊎ (to + count ≤ j) →
        slice_index words.new.items j ≡ slice_index words.old.items j }
{
    for k in 0..count {
        let bits = words[from + k];
        words[to + k] |= bits;
    }
}
