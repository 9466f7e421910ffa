//! How deep lexemes nest.
ghost use Rattle.std.specs.Prelude.{◌≡◌, ◌<◌, ◌^◌, suc, IfOk, OnOk};
ghost use Rattle.ale_form.specs.Nesting.{nesting_limit, at_start, opened, closed_to, deeper, behind_then, separated, behind_sign, behind, passes};

use crate::level::Level;
use ale_term::{Lexeme, Symbol, add};
use std::alloc::{AllocError, Global};
use std::marker::Model;

/// How deep a place between lexemes is nested.
#[derive(Drop)]
struct Nest {
    /// The levels before the brackets that are still open, innermost last.
    around: Vec<Level>,
    here: Level,
}

impl Model for Nest {
    ghost use Rattle.std.specs.Prelude.{reverse};
    ghost use Rattle.ale_form.specs.Nesting.{Depth};

    ghost Value = { Depth };

    ghost view = { λ n. record { count = n.here.0; level = n.here.1; around = reverse n.around.items } };
}

impl Nest {
    /// Nested in nothing.
    fn at_start(alloc: Global) -> Nest
        ensures { result ≡ at_start }
    {
        Nest {
            around: Vec::new(alloc),
            here: Level::of(0),
        }
    }

    fn count(&self) -> usize
        ensures { result ≡ self.now.count }
    {
        self.here.count()
    }

    fn open(&mut self) -> Result<(), AllocError>
        requires { self.old.count < 2 ^ 32 }
        ensures { OnOk result (self.new ≡ opened self.old) }
    {
        let before = self.here;
        add(&mut self.around, before)?;
        self.here = Level::of(before.count() + 1);
        Ok(())
    }

    fn close(&mut self)
        ensures { self.new ≡ closed_to self.old self.old.around }
    {
        if let Some(before) = self.around.pop() {
            self.here = before;
        }
    }

    fn separate(&mut self)
        ensures { self.new ≡ separated self.old }
    {
        self.here = self.here.separated();
    }

    fn deepen(&mut self)
        requires { self.old.count < 2 ^ 32 }
        ensures { self.new ≡ deeper self.old }
    {
        self.here = self.here.deeper();
    }

    fn pass_then(&mut self)
        requires { self.old.count < 2 ^ 32 }
        ensures { self.new ≡ behind_then self.old }
    {
        self.here = self.here.behind_then();
    }

    /// Goes on after the symbol.
    fn pass_sign(&mut self, symbol: Symbol) -> Result<(), AllocError>
        requires { self.old.count < 2 ^ 32 }
        ensures { OnOk result (self.new ≡ behind_sign symbol self.old) }
    {
        match symbol {
            Symbol::OpenRound | Symbol::OpenSquare => self.open()?,
            Symbol::CloseRound | Symbol::CloseSquare => self.close(),
            Symbol::Colon | Symbol::OtherThan | Symbol::NotProved => self.deepen(),
            Symbol::Then => self.pass_then(),
            Symbol::Comma | Symbol::Semicolon | Symbol::Bar => self.separate(),
            _ => {}
        }
        Ok(())
    }

    /// Goes on after the lexeme.
    fn pass(&mut self, lexeme: &Lexeme) -> Result<(), AllocError>
        requires { self.old.count < 2 ^ 32 }
        ensures { OnOk result (self.new ≡ behind lexeme.now self.old) }
    {
        match lexeme {
            Lexeme::Sign(symbol) => self.pass_sign(*symbol),
            _ => Ok(()),
        }
    }
}

/// The most that a declaration or a command may nest, 200.
pub fn nesting_limit() -> usize
    ensures value { result ≡ nesting_limit }
    ensures small { result < 2 ^ 32 }
{
    200
}

/// Whether the lexemes nest deeper than the limit somewhere.
pub(crate) fn passes(alloc: Global, lexemes: &[Lexeme], limit: usize) -> Result<bool, AllocError>
    requires { limit < 2 ^ 32 }
    ensures { IfOk result (λ b. b ≡ passes limit at_start lexemes.now) }
{
    let mut nest = Nest::at_start(alloc);
    for lexeme in lexemes {
        if nest.count() > limit {
            return Ok(true);
        }
        nest.pass(lexeme)?;
    }
    Ok(nest.count() > limit)
}
