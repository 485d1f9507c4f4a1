// Reads calls from standard input, one a line, and answers each. With `--plain` an answer is one line for programs; with `--form` the
// form of each script that was read stands behind it.
#![tactic(auto)]

mod bare;
mod desk;
mod mode;
mod refused;
mod show;
mod spell;
mod tenths;

use crate::bare::bare;
use crate::desk::{Answer, Desk};
use crate::mode::Mode;
use crate::show::Shown;
use lines::line::{Call, Line};
use lines::lines::Lines;
use lines::reading::line_of;
use std::io::{BufWriter, Read, Write};
use std::{env, io};

fn mode_of(rt: &HostRuntime) -> io::Result<Mode> {
    let mut mode = Mode::People;
    for word in env::args(rt)? {
        match word.as_str() {
            "--plain" => mode = Mode::Plain,
            "--form" => mode = Mode::Form,
            _ => {}
        }
    }
    Ok(mode)
}

fn run(rt: &HostRuntime, mode: Mode, text: &[u8]) -> io::Result<()> {
    let heap = rt.alloc();
    let mut desk = Desk::new(heap)?;
    let mut out = BufWriter::new(heap, rt.stdout())?;
    let mut lines = Lines {
        rest: text,
        number: 0,
    };
    while let Some(text) = lines.next() {
        let line = line_of(text);
        let answer = desk.hear(heap, line)?;
        let shown = Shown {
            number: lines.number,
            line,
            answer,
            desk: &desk,
        };
        shown.write(&mut out, mode)?;
        // the lines of a bare system stand behind the line of its pile
        if let (Line::Call(Call::Pile(pile, cells)), Ok(Answer::Done)) = (line, answer) {
            let served = bare(heap, pile, cells, mode, lines)?;
            out.write_all(served.out.as_bytes())?;
            lines = served.lines;
        }
    }
    out.flush()
}

fn main(rt: HostRuntime) -> io::Result<()> {
    let mode = mode_of(&rt)?;
    let mut text = Vec::new(rt.alloc());
    rt.stdin().read_to_end(&mut text)?;
    run(&rt, mode, text.as_slice())
}
