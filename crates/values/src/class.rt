// The classes of the variables that were written, as tokens.
ghost use Rattle.std.specs.Prelude.{◌≡◌, [], IfOk, OnOk};
ghost use Rattle.values.specs.Spelling.{with_classes, classed};

use crate::name::{Unsolved, Variable};
use crate::token::Token;
use crate::word::class_words;
use std::alloc::{AllocError, Global};

fn put_classes(tokens: &mut Vec<Token>, unsolved: Unsolved) -> Result<(), AllocError>
    ensures { OnOk result (tokens.new.items ≡ with_classes tokens.old.items unsolved) }
{
    for word in &class_words(unsolved.classes) {
        if let Some(word) = word {
            tokens.extend_from_slice(&[
                Token::Open,
                Token::Word(*word),
                Token::Variable(unsolved),
                Token::Close,
            ])?;
        }
    }
    Ok(())
}

// The classes of the variables, by their order and then by the class.
pub fn class_tokens(heap: Global, names: &[Variable]) -> Result<Vec<Token>, AllocError>
    ensures { IfOk result (λ ts. ts.items ≡ classed [] names.now) }
{
    let mut tokens = Vec::new(heap);
    for v in names {
        put_classes(&mut tokens, v.unsolved)?;
    }
    Ok(tokens)
}
