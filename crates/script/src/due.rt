ghost use Rattle.std.specs.Prelude.{◌≡◌, ◌<◌, length, IfOk};
ghost use Rattle.script.specs.Tokens.{token_of};
ghost use Rattle.script.specs.Here.{text_of, token_here, behind_here};
ghost use Rattle.script.specs.Reads.{wrong, close_at, binder_at, label_at, keyword_at};
ghost use Rattle.script.specs.Settings.{setting_of};
ghost use Rattle.script.specs.Came.{on_tokens, CameName};

use crate::fault::{ReadFault, Reason};
use crate::source::Source;
use crate::token::{Token, token_at, word_of};
use ground::name::Name;
use words::keyword::Keyword;
use words::spelling::is_name;

// The fault of a token that cannot stand where it stands, with `depth` brackets still allowed inside.
pub(crate) fn wrong_token(text: &[u8], token: Token, depth: u8) -> ReadFault
    ensures { result ≡ wrong depth (token_of text.now token) }
{
    match token {
        Token::Open(i) if depth == 0 => Reason::TooDeep.over(i, 1),
        Token::Open(i) | Token::Close(i) => Reason::Unexpected.over(i, 1),
        Token::Word(place) => Reason::Unexpected.at(place),
        Token::End(n) => Reason::Unexpected.over(n, 0),
    }
}

// A closing bracket is due: its byte, and the one behind it.
pub(crate) fn read_close(text: &[u8], at: usize, depth: u8) -> Result<(usize, usize), ReadFault>
    ensures within { IfOk result (λ x. x.0 < length text.now) }
    ensures answer { on_tokens text.now result ≡ close_at depth (token_here text.now at) (behind_here text.now at) }
{
    let (token, next) = token_at(text, at);
    match token {
        Token::Close(i) => Ok((i, next)),
        _ => Err(wrong_token(text, token, depth)),
    }
}

// A name to be bound is due.
pub(crate) fn read_binder(text: &[u8], at: usize, depth: u8) -> Result<(Name, usize), ReadFault>
    ensures { CameName text.now result (binder_at depth (token_here text.now at) (behind_here text.now at)) }
{
    let (token, next) = token_at(text, at);
    let Token::Word(place) = token else {
        return Err(wrong_token(text, token, depth));
    };
    let word = word_of(text, place);
    if !is_name(word) {
        return Err(wrong_token(text, token, depth));
    }
    match Name::of(word) {
        Some(name) => Ok((name, next)),
        None => unreachable!(),
    }
}

// A label is due: its number on the sheet.
pub(crate) fn read_label(source: &Source, at: usize, depth: u8) -> Result<(u8, usize), ReadFault>
    ensures { on_tokens (text_of source.now) result ≡ label_at (setting_of source.now).sheet depth (token_here (text_of source.now) at) (behind_here (text_of source.now) at) }
{
    let (token, next) = token_at(source.text, at);
    let Token::Word(place) = token else {
        return Err(wrong_token(source.text, token, depth));
    };
    let word = word_of(source.text, place);
    if !is_name(word) {
        return Err(wrong_token(source.text, token, depth));
    }
    match source.sheet.position(word) {
        Some(l) => Ok((l as u8, next)),
        None => Err(Reason::UnknownLabel.at(place)),
    }
}

// A keyword is due, which may be that of a record form where these are known.
pub(crate) fn read_keyword(
    source: &Source,
    at: usize,
    depth: u8,
) -> Result<(Keyword, usize), ReadFault>
    ensures { on_tokens (text_of source.now) result ≡ keyword_at source.now.records depth (token_here (text_of source.now) at) (behind_here (text_of source.now) at) }
{
    let (token, next) = token_at(source.text, at);
    let Token::Word(place) = token else {
        return Err(wrong_token(source.text, token, depth));
    };
    match Keyword::of(word_of(source.text, place)) {
        None => Err(Reason::Unexpected.at(place)),
        Some(keyword) if keyword.is_record_form() && !source.records => {
            Err(Reason::NoRecords.at(place))
        }
        Some(keyword) => Ok((keyword, next)),
    }
}
