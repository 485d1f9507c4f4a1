ghost use Rattle.std.specs.Prelude.{◌≡◌, ◌∷◌};
ghost use Rattle.words.specs.Sheets.{spaced, words_behind};

// The first of the words that stand in the text one space apart, and what stands behind its space, if there is one.
pub fn split_word(text: &[u8]) -> (&[u8], Option<&[u8]>)
    ensures { spaced text.now ≡ result.0.now ∷ words_behind result.1 }
{
    match text.iter().position(|b| *b as char == ' ') {
        Some(n) => (&text[..n], Some(&text[n + 1..])),
        None => (text, None),
    }
}
