ghost use Rattle.std.specs.Prelude.{◌≡◌, ◌||◌};
ghost use Rattle.words.specs.Spelling.{small, digit, is_reserved, starts_small, all_later, good_name};

// Is this one of the words that no name and no label may be?
fn is_reserved(word: &[u8]) -> bool
    ensures { result ≡ is_reserved word.now }
{
    matches!(
        word,
        b"fun"
            | b"call"
            | b"let"
            | b"rec"
            | b"if"
            | b"record"
            | b"with"
            | b"get"
            | b"drop"
            | b"yes"
            | b"no"
    )
}

fn is_small(b: u8) -> bool
    ensures { result ≡ small b }
{
    matches!(b as char, 'a'..='z')
}

fn starts_small(word: &[u8]) -> bool
    ensures { result ≡ starts_small word.now }
{
    word.first().is_some_and(|b| is_small(*b))
}

pub(crate) fn is_digit(b: u8) -> bool
    ensures { result ≡ digit b }
{
    matches!(b as char, '0'..='9')
}

// May each byte stand in a name behind its first letter?
fn all_later(word: &[u8]) -> bool
    ensures { result ≡ all_later word.now }
{
    word.iter().all(|b| is_small(*b) || is_digit(*b))
}

// Is the word a name, or a label: a small letter, then at most 11 small letters or digits, and not reserved?
pub fn is_name(word: &[u8]) -> bool
    ensures { result ≡ good_name word.now }
{
    starts_small(word) && all_later(word) && word.len() <= 12 && !is_reserved(word)
}
