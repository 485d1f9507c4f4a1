// Answers as lines, for programs and for people.
use crate::desk::{Answer, Desk};
use crate::mode::Mode;
use crate::refused::Refused;
use crate::spell::spell;
use ground::place::Place;
use lines::line::{Call, Line, Pile};
use std::io;
use std::io::Write;

// The answer to the call that stands on the line of this number.
#[derive(Clone, Copy)]
pub(crate) struct Shown<'a> {
    pub(crate) number: usize,
    pub(crate) line: Line<'a>,
    pub(crate) answer: Result<Answer, Refused>,
    pub(crate) desk: &'a Desk,
}

impl Shown<'_> {
    // Nothing to a blank line.
    pub(crate) fn write<W: Write>(&self, out: &mut W, mode: Mode) -> io::Result<()> {
        if let Line::Blank = self.line {
            return Ok(());
        }
        match mode {
            Mode::People => self.write_words(out),
            Mode::Plain => self.write_plain(out),
            Mode::Form => self.write_form(out),
        }
    }

    fn write_plain<W: Write>(&self, out: &mut W) -> io::Result<()> {
        match self.answer {
            Ok(Answer::Done) => writeln!(out, "ok"),
            Ok(Answer::Nothing) => writeln!(out, "none"),
            Ok(Answer::Unknown) => {
                let number = self.number;
                writeln!(out, "unknown {number}")
            }
            Ok(Answer::Script(forms, depth)) => writeln!(out, "ok {forms} {depth}"),
            Err(refused) => {
                let fault = refused.number();
                let layer = refused.layer();
                let Place { start, length } = refused.place();
                writeln!(out, "fault {fault} {start} {length} {layer}")
            }
        }
    }

    fn write_form<W: Write>(&self, out: &mut W) -> io::Result<()> {
        let Ok(Answer::Script(forms, depth)) = self.answer else {
            return self.write_plain(out);
        };
        write!(out, "ok {forms} {depth} ")?;
        spell(out, self.desk.nodes(), self.desk.labels())?;
        writeln!(out)
    }

    fn write_words<W: Write>(&self, out: &mut W) -> io::Result<()> {
        let number = self.number;
        write!(out, "line {number}: ")?;
        match self.answer {
            Ok(Answer::Done) => self.write_settled(out),
            Ok(Answer::Nothing) => self.write_missing(out),
            Ok(Answer::Unknown) => writeln!(out, "this is no call"),
            Ok(Answer::Script(forms, depth)) => {
                let noun = if forms == 1 { "form" } else { "forms" };
                write!(out, "{forms} {noun}, {depth} deep: ")?;
                spell(out, self.desk.nodes(), self.desk.labels())?;
                writeln!(out)
            }
            Err(refused) => self.write_refused(out, refused),
        }
    }

    fn write_refused<W: Write>(&self, out: &mut W, refused: Refused) -> io::Result<()> {
        let fault = refused.number();
        let layer = refused.layer();
        writeln!(out, "refused with {fault} by layer {layer}: {refused}")?;
        match self.line {
            Line::Read(text) => write_marked(out, text, refused.place()),
            _ => Ok(()),
        }
    }

    fn write_settled<W: Write>(&self, out: &mut W) -> io::Result<()> {
        match self.line {
            Line::Call(Call::Pile(pile, _)) => write_pile(out, pile),
            Line::Sheet(_) => writeln!(out, "the labels are set"),
            _ => writeln!(out, "done"),
        }
    }

    // What the line stands in need of.
    fn write_missing<W: Write>(&self, out: &mut W) -> io::Result<()> {
        match self.line {
            Line::Read(_) | Line::Sheet(_) => writeln!(
                out,
                "there is no pile with a sheet to read for"
            ),
            _ => writeln!(out, "there is no pile without a sheet to ask"),
        }
    }
}

fn write_pile<W: Write>(out: &mut W, pile: Pile) -> io::Result<()> {
    match (pile.records, pile.classes) {
        (true, true) => writeln!(out, "records and classes are known"),
        (true, false) => writeln!(out, "records are known, classes are not"),
        (false, true) => writeln!(out, "classes are known, records are not"),
        (false, false) => writeln!(out, "neither records nor classes are known"),
    }
}

// The byte as many times.
fn write_repeated<W: Write>(out: &mut W, byte: u8, times: usize) -> io::Result<()> {
    let bytes = [byte; 64];
    for _ in 0..times / 64 {
        out.write_all(&bytes)?;
    }
    out.write_all(&bytes[..times % 64])
}

// The script, a byte that does not print as a question mark, and marks under the place.
fn write_marked<W: Write>(out: &mut W, text: &[u8], place: Place) -> io::Result<()> {
    out.write_all(b"  ")?;
    for (i, run) in text.split(|b| !matches!(b, b' '..=b'~')).enumerate() {
        if i > 0 {
            out.write_all(b"?")?;
        }
        out.write_all(run)?;
    }
    out.write_all(b"\n  ")?;
    write_repeated(out, b' ', place.start)?;
    write_repeated(out, b'^', place.length.max(1))?;
    out.write_all(b"\n")
}
