// Lines heard while marks are open. An open mark is held by the call of `hear_mark` that opened it, and each way out hands it back.
ghost use Rattle.std.specs.Prelude.{◌≡◌, suc, ◌≤◌, length, take, IfOk, if◌then◌else◌};
ghost use Rattle.system.specs.Requests.{done};
ghost use Rattle.calls.specs.Levels.{level, ending};

use crate::session::Session;
use lines::line::{Call, Line};
use lines::lines::Lines;
use lines::reading::line_of;
use std::alloc::{AllocError, Global};
use system::system::System;
use words::sheet::{Sheet, SheetFault};

// Why no more lines are heard: the newest mark ends, or the calls of this system are over.
#[derive(Clone, Copy, PartialEq, Eq)]
pub enum End {
    Kept,
    Undone,
    Over,
}

// Where the lines stopped, with what is still to be read.
#[derive(Clone, Copy)]
pub struct Stop<'a> {
    pub end: End,
    pub lines: Lines<'a>,
}

// What a line is to the lines around it.
#[derive(Clone, Copy)]
enum Turn {
    Opens,
    Ends(End),
    Answered,
}

// A new pile, or a sheet that is one, ends the calls of the system.
fn turn_of(heap: Global, line: Line, marked: bool) -> Result<Turn, AllocError> {
    match line {
        Line::Call(Call::Pile(_, _)) => Ok(Turn::Ends(End::Over)),
        Line::Sheet(text) => match Sheet::read(heap, text) {
            Ok(_) => Ok(Turn::Ends(End::Over)),
            Err(SheetFault::Bad) => Ok(Turn::Answered),
            Err(SheetFault::Memory) => Err(AllocError),
        },
        Line::Call(Call::Mark) => Ok(Turn::Opens),
        Line::Call(Call::Keep) if marked => Ok(Turn::Ends(End::Kept)),
        Line::Call(Call::Back) if marked => Ok(Turn::Ends(End::Undone)),
        _ => Ok(Turn::Answered),
    }
}

impl<S: System + Drop> Session<S> {
    fn say_ended(&mut self, stop: Stop) -> Result<(), AllocError>
        ensures { self.new.system ≡ self.old.system }
    {
        let number = stop.lines.number;
        match stop.end {
            End::Kept => self
                .out
                .say(number, "ok", "what was done since the mark is kept"),
            End::Undone => self.out.say(number, "ok", "all is as it was at the mark"),
            End::Over => Ok(()),
        }
    }

    // Ends the newest mark: kept, or undone, with the numbers that were given since.
    fn end_mark(&mut self, mark: S::Mark, kept: bool, numbers: usize)
        requires fine { S.System.ok self.old.system }
        requires newest { suc (S.System.depth mark) ≡ level (S.System.meaning self.old.system) }
        ensures fine { S.System.ok self.new.system }
        ensures level { level (S.System.meaning self.old.system) ≡ suc (level (S.System.meaning self.new.system)) }
        ensures ended { S.System.asked self.old.system (ending kept (S.System.depth mark)) done self.new.system }
        ensures numbers { self.new.book.made.items ≡ (if kept then self.old.book.made.items else take numbers self.old.book.made.items) }
    {
        if kept {
            match self.system.keep(mark) {
                Ok(()) => {}
                Err(_) => unreachable(),
            }
        } else {
            match self.system.back(mark) {
                Ok(()) => self.book.back_to(numbers),
                Err(_) => unreachable(),
            }
        }
    }

    // Hears lines until the newest mark is to end, or the calls are over; marks that are opened on the way are ended.
    #[cycle(hear_hear_mark_hear_under)]
    pub(crate) fn hear<'a>(
        &mut self,
        lines: Lines<'a>,
        marked: bool,
    ) -> Result<Stop<'a>, AllocError>
        requires { S.System.ok self.old.system }
        ensures fine { S.System.ok self.new.system }
        ensures level { level (S.System.meaning self.new.system) ≡ level (S.System.meaning self.old.system) }
        ensures shorter { IfOk result (λ s. length s.lines.rest.now ≤ length lines.entry.rest.now) }
    {
        let mut before = lines;
        let mut lines = lines;
        while let Some(text) = lines.next() {
            let line = line_of(text);
            match turn_of(self.out.heap, line, marked)? {
                Turn::Ends(End::Over) => {
                    lines = before;
                    break;
                }
                Turn::Ends(end) => return Ok(Stop { end, lines }),
                Turn::Opens => {
                    let stop = self.hear_mark(lines)?;
                    lines = stop.lines;
                    if stop.end == End::Over {
                        break;
                    }
                }
                Turn::Answered => self.answer_line(line, lines.number)?,
            }
            before = lines;
        }
        Ok(Stop {
            end: End::Over,
            lines,
        })
    }

    // Opens a mark, hears the lines under it, and ends it: kept where a line says so, else undone with all that was numbered since.
    #[cycle(hear_hear_mark_hear_under)]
    fn hear_mark<'a>(&mut self, lines: Lines<'a>) -> Result<Stop<'a>, AllocError>
        requires { S.System.ok self.old.system }
        ensures fine { S.System.ok self.new.system }
        ensures level { level (S.System.meaning self.new.system) ≡ level (S.System.meaning self.old.system) }
        ensures shorter { IfOk result (λ s. length s.lines.rest.now ≤ length lines.entry.rest.now) }
    {
        let numbers = self.book.count();
        match self.system.mark() {
            Err(fault) => {
                self.out.fault(lines.number, &fault)?;
                Ok(Stop {
                    end: End::Kept,
                    lines,
                })
            }
            Ok(mark) => {
                let heard = self.hear_under(lines);
                let kept = matches!(heard, Ok(Stop { end: End::Kept, .. }));
                self.end_mark(mark, kept, numbers);
                let stop = heard?;
                self.say_ended(stop)?;
                Ok(stop)
            }
        }
    }

    #[cycle(hear_hear_mark_hear_under)]
    fn hear_under<'a>(&mut self, lines: Lines<'a>) -> Result<Stop<'a>, AllocError>
        requires { S.System.ok self.old.system }
        ensures fine { S.System.ok self.new.system }
        ensures level { level (S.System.meaning self.new.system) ≡ level (S.System.meaning self.old.system) }
        ensures shorter { IfOk result (λ s. length s.lines.rest.now ≤ length lines.entry.rest.now) }
    {
        self.out.say(lines.number, "ok", "a mark is open")?;
        self.hear(lines, true)
    }
}
