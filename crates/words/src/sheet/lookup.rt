ghost use Rattle.std.specs.Prelude.{◌≡◌, ◌<◌, IfSome};
ghost use Rattle.ground.specs.Names.{texts};
ghost use Rattle.words.specs.Sheets.{position};

use crate::sheet::Sheet;
use ground::name::Name;

impl Sheet {
    // The labels by number.
    pub fn labels(&self) -> &[Name]
        ensures { result.now ≡ self.now.labels.items }
    {
        self.labels.as_slice()
    }

    // The number of the label that the word spells.
    pub fn position(&self, word: &[u8]) -> Option<usize>
        ensures answer { result ≡ position (texts self.now.labels.items) word.now }
        ensures small { IfSome result (λ k. k < 24) }
    {
        self.labels().iter().position(|label| label.is(word))
    }
}
