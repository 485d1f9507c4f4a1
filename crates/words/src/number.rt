ghost use Rattle.std.specs.Prelude.{◌≡◌, ◌≤◌, true};
ghost use Rattle.words.specs.Numbers.{digits, capped, limit, sign, whole_of, tenths_of, unsigned, number_of, Writes};

use crate::spelling::is_digit;

// A number of a script, by its value in tenths: without a point, and with one.
#[derive(Clone, Copy, PartialEq, Eq, Debug)]
pub enum Number {
    Whole(i32),
    Tenths(i32),
}

// A number that is out of range.
#[derive(Clone, Copy, PartialEq, Eq, Debug)]
pub struct TooLarge;

// The value of a word of digits, which may be of any length; above 100,000 it is told as 100,000, far out of every range.
pub fn magnitude(word: &[u8]) -> Option<u32>
    ensures value { result ≡ capped (digits word.now) }
    ensures cap { capped result ≡ result }
{
    if word.is_empty() {
        return None;
    }
    let mut n: u32 = 0;
    for b in word {
        if !is_digit(*b) {
            return None;
        }
        n = (n * 10 + (*b - b'0') as u32).min(100_000);
    }
    Some(n)
}

// The largest size in range: there is one number more below zero.
fn largest(minus: bool) -> u32
    ensures { result ≡ limit minus }
{
    if minus { 32_768 } else { 32_767 }
}

fn signed(minus: bool, n: u32) -> i32
    requires { n ≤ 327680 }
    ensures { result ≡ sign minus n }
{
    if minus { -(n as i32) } else { n as i32 }
}

// The number of this size without a point.
fn whole(minus: bool, n: Option<u32>) -> Option<Result<Number, TooLarge>>
    requires { capped n ≡ n }
    ensures { result ≡ whole_of minus n }
{
    let n = n?;
    if n > largest(minus) {
        return Some(Err(TooLarge));
    }
    Some(Ok(Number::Whole(signed(minus, n * 10))))
}

// The number of this size and the digit behind its point.
fn tenths(minus: bool, n: Option<u32>, last: u8) -> Option<Result<Number, TooLarge>>
    requires { capped n ≡ n }
    ensures { result ≡ tenths_of minus n last }
{
    let n = n?;
    if !is_digit(last) {
        return None;
    }
    let size = n * 10 + (last - b'0') as u32;
    if size > largest(minus) {
        return Some(Err(TooLarge));
    }
    Some(Ok(Number::Tenths(signed(minus, size))))
}

// The number that the word is behind its sign.
fn behind_sign(minus: bool, word: &[u8]) -> Option<Result<Number, TooLarge>>
    ensures { result ≡ unsigned minus word.now }
{
    match word {
        [front @ .., point, last] if *point as char == '.' => {
            tenths(minus, magnitude(front), *last)
        }
        _ => whole(minus, magnitude(word)),
    }
}

fn numbered(word: &[u8]) -> Option<Result<Number, TooLarge>>
    ensures { result ≡ number_of word.now }
{
    match word {
        [sign, size @ ..] if *sign as char == '-' => behind_sign(true, size),
        _ => behind_sign(false, word),
    }
}

impl Number {
    // The number that the word is, if it is one: an optional minus, digits, and for tenths a point and one more digit.
    pub fn of(word: &[u8]) -> Option<Result<Number, TooLarge>>
        ensures value { result ≡ number_of word.now }
        ensures rule { Writes word.now result }
    {
        numbered(word)
    }
}
