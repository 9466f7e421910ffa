//! What stands before a declaration.
ghost use Rattle.std.specs.Prelude.{◌≡◌};
ghost use Rattle.ale_declaration.specs.Declarations.{declaration_data};
ghost use Rattle.ale_naming.specs.Rounds.{nothing_earlier, after, came_before, with_macro};

use ale_declaration::Declaration;
use ale_vocabulary::Vocabulary;

/// What stands before a declaration: the last macro by its number, and which directives. Macros are numbered in order of first
/// declaration.
#[derive(Clone, Copy)]
pub(crate) struct Earlier {
    pub(crate) last_macro: Option<usize>,
    pub(crate) semantics: bool,
    pub(crate) lex_depth: bool,
    pub(crate) chain_length: bool,
}

/// Whether the macro with this number came before, where the last one is this.
pub(crate) fn came_before(last: Option<usize>, number: Option<usize>) -> bool
    ensures { result ≡ came_before last number }
{
    match (last, number) {
        (Some(last), Some(number)) => number <= last,
        _ => false,
    }
}

/// The last macro, with the one of this number.
fn with_macro(last: Option<usize>, number: Option<usize>) -> Option<usize>
    ensures { result ≡ with_macro last number }
{
    if came_before(last, number) {
        last
    } else {
        number
    }
}

impl Earlier {
    /// Nothing.
    pub(crate) fn nothing() -> Earlier
        ensures { result ≡ nothing_earlier }
    {
        Earlier {
            last_macro: None,
            semantics: false,
            lex_depth: false,
            chain_length: false,
        }
    }

    /// The same with the declaration.
    pub(crate) fn with(self, vocabulary: &Vocabulary, declaration: &Declaration) -> Earlier
        ensures { result ≡ after vocabulary.now (declaration_data declaration.now) self }
    {
        match declaration {
            Declaration::Macro(name, parameters, _) => {
                let number = vocabulary.macro_named(name.as_str(), parameters.as_slice().len());
                Earlier {
                    last_macro: with_macro(self.last_macro, number),
                    ..self
                }
            }
            Declaration::Semantics(_) => Earlier {
                semantics: true,
                ..self
            },
            Declaration::LexDepth(_) => Earlier {
                lex_depth: true,
                ..self
            },
            Declaration::ChainLength(_) => Earlier {
                chain_length: true,
                ..self
            },
            _ => self,
        }
    }
}
