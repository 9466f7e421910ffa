//! Numbers and what their digits stand for.
ghost use Rattle.std.specs.Prelude.{◌≡◌, ◌+◌, ◌*◌, ◌-◌, ◌≤◌, ℕ, List, IsTrue, length, min, option_map};
ghost use Rattle.ale_form.specs.Numbers.{number_at, number_of, held, greatest, are_digits};

use ale_term::Lexeme;
use ale_text::Text;

/// The digits of the number that the lexemes begin with, and those after it.
pub fn number_at(lexemes: &[Lexeme]) -> Option<(&Text, &[Lexeme])>
    ensures { option_map (λ p. (p.0.now, p.1.now)) result ≡ number_at lexemes.now }
{
    match lexemes {
        [Lexeme::Number(digits), behind @ ..] => Some((digits, behind)),
        _ => None,
    }
}

/// The number that the decimal digits stand for, or 4,294,967,295 where it is greater.
pub fn held_number(digits: &Text) -> u32
    ensures { result ≡ held digits.now }
{
    let mut number: u32 = 0;
    for digit in digits.as_str().chars() {
        number = behind_digit(number, digit);
    }
    number
}

/// A number of at most nine digits is held as it is.
pub fn nine_digits()
    ensures { (cs : List ℕ) → IsTrue (are_digits cs) → length cs ≤ 9 → held cs ≡ number_of cs }
{}

/// The number that stands for the digits before and this one, or the greatest.
fn behind_digit(number: u32, digit: char) -> u32
    ensures { result ≡ min (10 * number + (digit - 48)) greatest }
{
    number
        .saturating_mul(10)
        .saturating_add((digit as u32).saturating_sub(48))
}
