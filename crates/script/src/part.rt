ghost use Rattle.std.specs.Prelude.{◌≡◌, ◌≤◌, length};
ghost use Rattle.script.specs.Parts.{parts_of};

use words::keyword::Keyword;

// What may stand behind a keyword.
#[derive(Clone, Copy)]
pub enum Part {
    // A name that is bound in the body.
    Binder,
    // A label of the sheet.
    Label,
    // A form under the names outside.
    Sub,
    // A form in which the name is bound.
    Body,
}

// What stands behind the keyword, in its order. A table and no closures, since the parts are words of the grammar, which its definitions name too.
pub(crate) fn parts(keyword: Keyword) -> &'static [Part]
    ensures parts { result.now ≡ parts_of keyword }
    ensures few { length result.now ≤ 4 }
{
    match keyword {
        Keyword::Fun | Keyword::Rec => &[Part::Binder, Part::Body],
        Keyword::Call => &[Part::Sub, Part::Sub],
        Keyword::Let => &[Part::Binder, Part::Sub, Part::Body],
        Keyword::If => &[Part::Sub, Part::Sub, Part::Sub],
        Keyword::Record => &[],
        Keyword::With => &[Part::Sub, Part::Label, Part::Sub],
        Keyword::Get | Keyword::Drop => &[Part::Sub, Part::Label],
    }
}
