//! What a single character is.
ghost use Rattle.std.specs.Prelude.{◌≡◌};
ghost use Rattle.ale_token.specs.Pieces.{is_layout, is_capital, is_digit, starts_atom, starts_variable, is_other};

use unicode_ident::is_xid_start;

/// Whether this is a space, tab, line feed or carriage return.
pub(crate) fn is_layout(c: char) -> bool
    ensures { result ≡ is_layout c }
{
    c == ' ' || c == '\t' || c == '\n' || c == '\r'
}

/// Whether this is one of A to Z.
pub(crate) fn is_capital(c: char) -> bool
    ensures { result ≡ is_capital c }
{
    c >= 'A' && c <= 'Z'
}

/// Whether this is an ASCII digit.
pub(crate) fn is_digit(c: char) -> bool
    ensures { result ≡ is_digit c }
{
    c >= '0' && c <= '9'
}

/// Whether a plain name may begin with this.
pub(crate) fn starts_atom(c: char) -> bool
    ensures { result ≡ starts_atom c }
{
    is_xid_start(c) && !is_capital(c)
}

/// Whether a variable may begin with this.
pub(crate) fn starts_variable(c: char) -> bool
    ensures { result ≡ starts_variable c }
{
    is_capital(c) || c == '_'
}

/// Whether this is a token by itself without being a symbol of the language.
pub(crate) fn is_other(c: char) -> bool
    ensures { result ≡ is_other c }
{
    match c {
        '.' | '+' | '-' | '*' | '\\' | '^' | '<' | '~' => true,
        '?' | '#' | '&' | '$' | '{' | '}' => true,
        _ => false,
    }
}
