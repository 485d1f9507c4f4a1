// Lines to calls.
ghost use Rattle.std.specs.Prelude.{◌≡◌};
ghost use Rattle.words.specs.Sheets.{spaced};
ghost use Rattle.lines.specs.Words.{left};
ghost use Rattle.lines.specs.Lines.{all_codes, labels_from, fresh_of, head_of, build_head, build_of, equate_of, demand_of, pile_of, look_of, choose_of, call_behind, call_of};

use crate::ask::Ask;
use crate::line::{Call, Pile};
use crate::verb::Verb;
use crate::word::{Words, code_number};
use ground::head::Head;
use ground::sort::{Labels, Sort};
use words::number::magnitude;

// The labels that are left on the line. One above 23 is told as 24, which no system knows.
fn labels_left(words: &mut Words) -> Option<Labels>
    ensures { result ≡ labels_from 0 (left words.old) }
{
    let mut set: u32 = 0;
    for word in words {
        set |= 1 << magnitude(word)?.min(24);
    }
    Some(Labels(set))
}

// Are these the numbers of codes?
pub(crate) fn are_codes(text: &[u8]) -> bool
    ensures { result ≡ all_codes (spaced text.now) }
{
    Words::of(text).all(|word| code_number(word).is_some())
}

fn fresh_call(words: &mut Words) -> Option<Ask>
    ensures { result ≡ fresh_of (left words.old) }
{
    match words.next()? {
        b"type" => words.alone(Ask::Fresh(Sort::Type)),
        b"field" => words.alone(Ask::Fresh(Sort::Field)),
        b"row" => labels_left(words).map(|lacked| Ask::Fresh(Sort::Row(lacked))),
        _ => None,
    }
}

fn head_named(word: &[u8]) -> Option<Head>
    ensures { result ≡ head_of word.now }
{
    match word {
        b"whole" => Some(Head::Whole),
        b"tenth" => Some(Head::Tenth),
        b"flag" => Some(Head::Flag),
        b"to" => Some(Head::To),
        b"list" => Some(Head::List),
        b"record" => Some(Head::Record),
        b"absent" => Some(Head::Absent),
        b"has" => Some(Head::Has),
        b"empty" => Some(Head::Empty),
        b"row" => Some(Head::Row),
        _ => None,
    }
}

fn build_head(head: Head, words: &mut Words) -> Option<Ask>
    ensures { result ≡ build_head head (left words.old) }
{
    let mut label = 0;
    if head == Head::Row {
        label = words.next_number()?.min(255) as u8;
    }
    let mut first = None;
    if head.has_first() {
        first = Some(words.next_code()?);
    }
    let mut second = None;
    if head.has_second() {
        second = Some(words.next_code()?);
    }
    let lacked = match head {
        Head::Empty | Head::Row => labels_left(words)?,
        _ => words.alone(Labels(0))?,
    };
    Some(Ask::Build {
        head,
        first,
        second,
        label,
        lacked,
    })
}

fn build_call(words: &mut Words) -> Option<Ask>
    ensures { result ≡ build_of (left words.old) }
{
    let head = head_named(words.next()?)?;
    build_head(head, words)
}

fn equate_call(words: &mut Words) -> Option<Ask>
    ensures { result ≡ equate_of (left words.old) }
{
    let a = words.next_code()?;
    let b = words.next_code()?;
    words.alone(Ask::Equate(a, b))
}

fn demand_call(words: &mut Words) -> Option<Ask>
    ensures { result ≡ demand_of (left words.old) }
{
    let class = words.next_number()?;
    let code = words.next_code()?;
    words.alone(Ask::Demand(class.min(255) as u8, code))
}

fn pile_named(word: &[u8]) -> Option<Pile>
    ensures { result ≡ pile_of word.now }
{
    let (records, classes) = match word {
        b"trees" => (false, false),
        b"rows" => (true, false),
        b"classtrees" => (false, true),
        b"classrows" => (true, true),
        _ => return None,
    };
    Some(Pile { records, classes })
}

fn look_call(words: &mut Words) -> Option<Call>
    ensures { result ≡ look_of (left words.old) }
{
    let code = words.next_code()?;
    words.alone(Call::Look(code))
}

fn pile_call(words: &mut Words) -> Option<Call>
    ensures { result ≡ choose_of (left words.old) }
{
    let pile = pile_named(words.next()?)?;
    let cells = words.next_number()?;
    words.alone(Call::Pile(pile, cells))
}

fn call_behind(verb: Verb, words: &mut Words) -> Option<Call>
    ensures { result ≡ call_behind verb (left words.old) }
{
    match verb {
        Verb::Fresh => fresh_call(words).map(Call::Ask),
        Verb::Build => build_call(words).map(Call::Ask),
        Verb::Equate => equate_call(words).map(Call::Ask),
        Verb::Demand => demand_call(words).map(Call::Ask),
        Verb::Look => look_call(words),
        Verb::Tally => words.alone(Call::Tally),
        Verb::Mark => words.alone(Call::Mark),
        Verb::Keep => words.alone(Call::Keep),
        Verb::Back => words.alone(Call::Back),
        Verb::Pile => pile_call(words),
    }
}

// The call that the words of the line say.
pub fn call_of(line: &[u8]) -> Option<Call>
    ensures { result ≡ call_of (spaced line.now) }
{
    let mut words = Words::of(line);
    let verb = Verb::of(words.next()?)?;
    call_behind(verb, &mut words)
}
