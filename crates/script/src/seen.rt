ghost use Rattle.std.specs.Prelude.{◌≡◌};
ghost use Rattle.script.specs.Items.{item_of};

use crate::node::Item;
use ground::name::Name;
use words::keyword::Keyword;

// What was read behind a keyword so far, but for its sub-forms: the name bound and the label's number.
#[derive(Clone, Copy)]
pub struct Seen {
    pub binder: Name,
    pub label: u8,
}

// The form that the keyword makes of what was read.
pub(crate) fn item(keyword: Keyword, seen: Seen) -> Item
    ensures { result ≡ item_of keyword seen.binder seen.label }
{
    match keyword {
        Keyword::Fun => Item::Fun(seen.binder),
        Keyword::Call => Item::Call,
        Keyword::Let => Item::Let(seen.binder),
        Keyword::Rec => Item::Rec(seen.binder),
        Keyword::If => Item::If,
        Keyword::Record => Item::Record,
        Keyword::With => Item::With(seen.label),
        Keyword::Get => Item::Get(seen.label),
        Keyword::Drop => Item::Drop(seen.label),
    }
}
