ghost use Rattle.std.specs.Prelude.{◌≡◌};
ghost use Rattle.words.specs.Keywords.{keyword_of, is_record_form};

// The word that a bracketed form begins with.
#[derive(Clone, Copy, PartialEq, Eq, Debug)]
pub enum Keyword {
    Fun,
    Call,
    Let,
    Rec,
    If,
    Record,
    With,
    Get,
    Drop,
}

impl Keyword {
    // The keyword that the word spells.
    pub fn of(word: &[u8]) -> Option<Keyword>
        ensures { result ≡ keyword_of word.now }
    {
        match word {
            b"fun" => Some(Keyword::Fun),
            b"call" => Some(Keyword::Call),
            b"let" => Some(Keyword::Let),
            b"rec" => Some(Keyword::Rec),
            b"if" => Some(Keyword::If),
            b"record" => Some(Keyword::Record),
            b"with" => Some(Keyword::With),
            b"get" => Some(Keyword::Get),
            b"drop" => Some(Keyword::Drop),
            _ => None,
        }
    }

    // Is the form one of those that need records to be known?
    pub fn is_record_form(self) -> bool
        ensures { result ≡ is_record_form self }
    {
        matches!(
            self,
            Keyword::Record | Keyword::With | Keyword::Get | Keyword::Drop
        )
    }
}
