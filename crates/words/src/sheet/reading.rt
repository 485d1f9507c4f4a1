ghost use Rattle.std.specs.Prelude.{◌≡◌, ◌≤◌, true, IfOk, vec_len};
ghost use Rattle.ground.specs.Names.{named, texts};
ghost use Rattle.words.specs.Sheets.{spaced, good_up_to, labels_of, good_sheet, Read};

use crate::sheet::{Sheet, SheetFault};
use crate::spelling::is_name;
use crate::split::split_word;
use ground::name::Name;
use std::alloc::{AllocError, Global};

// How many labels a sheet may have.
const MOST_LABELS: usize = 24;

// Is the word one of those in the text?
fn holds(text: &[u8], word: &[u8]) -> bool
    ensures { result ≡ named (spaced text.now) word.now }
{
    text.split(|b| *b as char == ' ').any(|other| other == word)
}

// Are the words in the text at most 24, each a label, and each there once?
fn are_labels(text: &[u8]) -> bool
    ensures { result ≡ good_up_to 24 (spaced text.now) }
{
    let mut rest = Some(text);
    for _ in 0..MOST_LABELS {
        let Some(words) = rest else {
            return true;
        };
        let (word, later) = split_word(words);
        if !is_name(word) || later.is_some_and(|words| holds(words, word)) {
            return false;
        }
        rest = later;
    }
    rest.is_none()
}

// Is the text that of a sheet?
fn is_sheet(text: &[u8]) -> bool
    ensures { result ≡ good_sheet text.now }
{
    text.is_empty() || are_labels(text)
}

// The labels of a sheet's text, for which the list is reserved at once.
fn labels_of(heap: Global, text: &[u8]) -> Result<Vec<Name>, AllocError>
    requires { good_sheet text.now ≡ true }
    ensures { IfOk result (λ v. (texts v.items ≡ labels_of text.now) × (vec_len v ≤ 24)) }
{
    let mut labels = Vec::with_capacity(heap, MOST_LABELS)?;
    let mut rest = if text.is_empty() { None } else { Some(text) };
    while let Some(words) = rest {
        let (word, later) = split_word(words);
        let Some(name) = Name::of(word) else {
            // a label is short enough to be a name
            unreachable!();
        };
        labels.push_reserved(name);
        rest = later;
    }
    Ok(labels)
}

impl Sheet {
    // The sheet whose labels stand in the text one space apart; an empty text has none.
    pub fn read(heap: Global, text: &[u8]) -> Result<Sheet, SheetFault>
        ensures { Read text.now result }
    {
        if !is_sheet(text) {
            return Err(SheetFault::Bad);
        }
        let labels = labels_of(heap, text)?;
        Ok(Sheet { labels })
    }
}
