//! The symbols of the language.
ghost use Rattle.std.specs.Prelude.{◌≡◌, ◌≤◌, length, IsTrue};
ghost use Rattle.ale_token.specs.Pieces.{longest, symbols};
ghost use Rattle.ale_token.specs.Symbols.{begins_any, symbols_of_four, symbols_of_three, symbols_of_two, symbols_of_one};

/// The length of the longest symbol at the start, and 0 for none.
#[tactic(auto, using(crate::proofs::Longest::longest_first))]
pub(crate) fn symbol_length(chars: &[char]) -> usize
    ensures value { result ≡ longest symbols chars.now }
    ensures within { result ≤ length chars.now }
{
    if symbol_of_four(chars) {
        4
    } else if symbol_of_three(chars) {
        3
    } else if symbol_of_two(chars) {
        2
    } else if symbol_of_one(chars) {
        1
    } else {
        0
    }
}

/// Whether a symbol of four characters stands at the start.
fn symbol_of_four(chars: &[char]) -> bool
    ensures value { result ≡ begins_any symbols_of_four chars.now }
    ensures within { IsTrue result → 4 ≤ length chars.now }
{
    match chars {
        ['=', '=', '=', '>', ..] => true,
        ['-', '-', '-', '>', ..] => true,
        ['+', '+', '+', '>', ..] => true,
        _ => false,
    }
}

/// Whether a symbol of three characters stands at the start.
fn symbol_of_three(chars: &[char]) -> bool
    ensures value { result ≡ begins_any symbols_of_three chars.now }
    ensures within { IsTrue result → 3 ≤ length chars.now }
{
    match chars {
        ['*', '*', '>', ..] => true,
        ['=', '\\', '=', ..] => true,
        _ => false,
    }
}

/// Whether a symbol of two characters stands at the start.
fn symbol_of_two(chars: &[char]) -> bool
    ensures value { result ≡ begins_any symbols_of_two chars.now }
    ensures within { IsTrue result → 2 ≤ length chars.now }
{
    match chars {
        ['=', '=', ..] => true,
        ['=', '@', ..] => true,
        [':', '-', ..] => true,
        ['-', '>', ..] => true,
        ['\\', '+', ..] => true,
        _ => false,
    }
}

/// Whether a symbol of one character stands at the start.
fn symbol_of_one(chars: &[char]) -> bool
    ensures value { result ≡ begins_any symbols_of_one chars.now }
    ensures within { IsTrue result → 1 ≤ length chars.now }
{
    match chars {
        ['=' | ':' | ',' | ';' | '(' | ')' | '[' | ']', ..] => true,
        ['|' | '@' | '!' | '/' | '>', ..] => true,
        _ => false,
    }
}
