// What a line says.
ghost use Rattle.std.specs.Prelude.{◌≡◌};
ghost use Rattle.std.specs.Option.{option_map};
ghost use Rattle.lines.specs.Readings.{behind, is_blank, is_remark, Says};

use crate::line::Line;
use crate::parse::{are_codes, call_of};

// What stands behind the word and one space; nothing where the line is the word alone.
fn behind<'a>(line: &'a [u8], word: &[u8]) -> Option<&'a [u8]>
    ensures { option_map (λ x. x.now) result ≡ behind word.now line.now }
{
    match line.strip_prefix(word)? {
        [] => Some(&[]),
        [b' ', rest @ ..] => Some(rest),
        _ => None,
    }
}

fn is_blank(line: &[u8]) -> bool
    ensures { result ≡ is_blank line.now }
{
    line.iter().all(|b| *b == b' ')
}

// Is this a remark?
fn is_remark(line: &[u8]) -> bool
    ensures { result ≡ is_remark line.now }
{
    matches!(line, [b'#', ..])
}

// Blank lines and remarks are passed over.
pub fn line_of(line: &[u8]) -> Line<'_>
    ensures { Says line.now result }
{
    if is_remark(line) || is_blank(line) {
        return Line::Blank;
    }
    if let Some(rest) = behind(line, b"read") {
        return Line::Read(rest);
    }
    if let Some(rest) = behind(line, b"sheet") {
        return Line::Sheet(rest);
    }
    if let Some(rest) = behind(line, b"type") {
        return if are_codes(rest) {
            Line::Type(rest)
        } else {
            Line::Unknown
        };
    }
    match call_of(line) {
        Some(call) => Line::Call(call),
        None => Line::Unknown,
    }
}
