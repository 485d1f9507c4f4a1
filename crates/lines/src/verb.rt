ghost use Rattle.std.specs.Prelude.{◌≡◌};
ghost use Rattle.lines.specs.Lines.{verb_of};

// What is called, by the first word of a line.
#[derive(Clone, Copy)]
pub(crate) enum Verb {
    Fresh,
    Build,
    Equate,
    Demand,
    Look,
    Tally,
    Mark,
    Keep,
    Back,
    Pile,
}

impl Verb {
    // The verb that the word spells.
    pub(crate) fn of(word: &[u8]) -> Option<Verb>
        ensures { result ≡ verb_of word.now }
    {
        match word {
            b"fresh" => Some(Verb::Fresh),
            b"build" => Some(Verb::Build),
            b"equate" => Some(Verb::Equate),
            b"demand" => Some(Verb::Demand),
            b"look" => Some(Verb::Look),
            b"tally" => Some(Verb::Tally),
            b"mark" => Some(Verb::Mark),
            b"keep" => Some(Verb::Keep),
            b"back" => Some(Verb::Back),
            b"pile" => Some(Verb::Pile),
            _ => None,
        }
    }
}
