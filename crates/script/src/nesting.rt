ghost use Rattle.std.specs.Prelude.{◌≡◌, ◌+◌, ◌^◌, ◌<◌, ◌≤◌};
ghost use Rattle.script.specs.Nesting.{opened, nesting_of};

// How many brackets are open behind the byte.
fn behind(count: usize, b: u8) -> usize
    requires { count + 1 < 2 ^ 64 }
    ensures value { result ≡ opened count b }
    ensures step { result ≤ count + 1 }
{
    match b as char {
        '(' => count + 1,
        ')' => count.saturating_sub(1),
        _ => count,
    }
}

// How deep the brackets of a text nest: the most that are open at one place.
pub fn nesting(text: &[u8]) -> usize
    ensures { result ≡ nesting_of 0 0 text.now }
{
    let mut count: usize = 0;
    let mut most: usize = 0;
    for b in text {
        count = behind(count, *b);
        most = most.max(count);
    }
    most
}
