//! Prefixes of characters.

ghost use Rattle.std.specs.Prelude.{◌≡◌, [], ◌∷◌, option_map};
ghost use Rattle.ale_morph.specs.Search.{behind};

use ale_text::Text;

// What stands behind the character, where the characters begin with it.
fn behind_one<'a>(first: char, rest: &'a [char]) -> Option<&'a [char]>
    ensures { option_map (λ t. t.now) result ≡ behind (first ∷ []) rest.now }
{
    match rest {
        [next, others @ ..] if *next == first => Some(others),
        _ => None,
    }
}

// What stands behind the letters, where the characters begin with them.
pub(crate) fn behind_letters<'a>(letters: &Text, rest: &'a [char]) -> Option<&'a [char]>
    ensures { option_map (λ t. t.now) result ≡ behind letters.now rest.now }
{
    let mut left = rest;
    for letter in letters.as_str().chars() {
        left = behind_one(letter, left)?;
    }
    Some(left)
}

// What stands behind the prefix, where the characters begin with it.
pub(crate) fn behind<'a>(prefix: &[char], rest: &'a [char]) -> Option<&'a [char]>
    ensures { option_map (λ t. t.now) result ≡ behind prefix.now rest.now }
{
    let mut left = rest;
    for letter in prefix {
        left = behind_one(*letter, left)?;
    }
    Some(left)
}
