ghost use Rattle.std.specs.Prelude.{◌≡◌, ◌+◌, ◌-◌, ◌<◌, ◌≤◌, ◌∷◌, length, ◌≢◌, slice_index, slice_range};
ghost use Rattle.script.specs.declared.token.Kind.TheVariants.{Space as ASpace, Letter as ALetter};
ghost use Rattle.script.specs.Faults.{span};
ghost use Rattle.script.specs.Tokens.{kind_of, same_kind, run, token_of, first, behind, rest, bytes_at, Within, word as aWord};

use ground::place::Place;

// A bracket, a word or the end of the script, with its place.
#[derive(Clone, Copy)]
pub enum Token {
    Open(usize),
    Close(usize),
    Word(Place),
    End(usize),
}

// What a byte is to the cutting of a script.
#[derive(Clone, Copy, PartialEq, Eq)]
pub enum Kind {
    Space,
    Open,
    Close,
    Letter,
}

fn kind_of(b: u8) -> Kind
    ensures { result ≡ kind_of b }
{
    match b as char {
        ' ' => Kind::Space,
        '(' => Kind::Open,
        ')' => Kind::Close,
        _ => Kind::Letter,
    }
}

fn is_of(b: u8, kind: Kind) -> bool
    ensures { result ≡ same_kind (kind_of b) kind }
{
    kind_of(b) == kind
}

// How many bytes of the kind stand at the front.
fn run(text: &[u8], kind: Kind) -> usize
    ensures value { result ≡ run kind text.now }
    ensures within { result ≤ length text.now }
{
    text.iter().take_while(|b| is_of(**b, kind)).count()
}

// The first byte from `at` on that is no space, or the end.
fn skip_spaces(text: &[u8], at: usize) -> usize
    ensures same { rest text.now result ≡ rest text.now at }
    ensures stops { result < length text.now → kind_of (slice_index text.now result) ≢ ASpace }
{
    at + run(&text[at.min(text.len())..], Kind::Space)
}

// The byte behind the word that begins at `start`.
fn word_end(text: &[u8], start: usize) -> usize
    requires within { start < length text.now }
    requires letter { kind_of (slice_index text.now start) ≡ ALetter }
    ensures after { start ≤ result }
    ensures before { result ≤ length text.now }
    ensures cut { rest text.now start ≡ aWord (span start (result - start)) (slice_range text.now start result) ∷ rest text.now result }
{
    start + run(&text[start..], Kind::Letter)
}

// The first token at the byte `at` or behind it, and the byte behind that.
pub(crate) fn token_at(text: &[u8], at: usize) -> (Token, usize)
    ensures token { token_of text.now result.0 ≡ first (length text.now) (rest text.now at) }
    ensures rest { rest text.now result.1 ≡ behind (rest text.now at) }
    ensures within { Within text.now result.0 }
{
    let start = skip_spaces(text, at);
    if start >= text.len() {
        return (Token::End(text.len()), start);
    }
    match kind_of(text[start]) {
        Kind::Open => (Token::Open(start), start + 1),
        Kind::Close => (Token::Close(start), start + 1),
        Kind::Letter => {
            let end = word_end(text, start);
            let length = end - start;
            (Token::Word(Place { start, length }), end)
        }
        Kind::Space => unreachable!(),
    }
}

// The bytes of a word.
pub(crate) fn word_of(text: &[u8], place: Place) -> &[u8]
    requires { place.start + place.length ≤ length text.now }
    ensures { result.now ≡ bytes_at text.now place }
{
    let start = place.start;
    let end = start + place.length;
    &text[start..end]
}
