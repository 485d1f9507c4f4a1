// The text as lines.
ghost use Rattle.std.specs.Prelude.{◌≡◌, ◌+◌, ◌-◌, ◌≤◌, length, drop};
ghost use Rattle.std.specs.Iterator.{at_most};
ghost use Rattle.lines.specs.Texts.{line_length, Reads};

// How many bytes the first line has.
pub fn line_length(text: &[u8]) -> usize
    ensures value { result ≡ line_length text.now }
    ensures within { result ≤ length text.now }
{
    text.iter().position(|b| *b == b'\n').unwrap_or(text.len())
}

// What stands behind a line of `n` bytes and its end; nothing where the text has no more.
pub fn behind_line(text: &[u8], n: usize) -> &[u8]
    ensures rest { result.now ≡ drop (n + 1) text.now }
    ensures shorter { length result.now ≡ length text.now - (n + 1) }
{
    &text[n.saturating_add(1).min(text.len())..]
}

// What is still to be read of a text, and the number of the line before it.
#[derive(Clone, Copy)]
pub struct Lines<'a> {
    pub rest: &'a [u8],
    pub number: usize,
}

impl<'a> Iterator for Lines<'a> {
    type Item = &'a [u8];

    ghost next_gives = { Reads };

    ghost remaining = { λ s. at_most (length s.rest.now) };

    fn next(&mut self) -> Option<&'a [u8]> {
        if self.rest.is_empty() {
            return None;
        }
        let n = line_length(self.rest);
        let line = &self.rest[..n];
        self.rest = behind_line(self.rest, n);
        self.number = self.number.saturating_add(1);
        Some(line)
    }
}
