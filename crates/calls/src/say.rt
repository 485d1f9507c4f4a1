// The answer to a line that opens and ends no mark.
ghost use Rattle.std.specs.Prelude.{◌≡◌};
ghost use Rattle.calls.specs.Levels.{level};

use crate::answer::{Unanswered, perform};
use crate::session::Session;
use lines::ask::Ask;
use lines::line::{Call, Line};
use std::alloc::AllocError;
use system::system::System;

impl<S: System + Drop> Session<S> {
    fn answer_ask(&mut self, ask: Ask, number: usize) -> Result<(), AllocError>
        requires { S.System.ok self.old.system }
        ensures fine { S.System.ok self.new.system }
        ensures level { level (S.System.meaning self.new.system) ≡ level (S.System.meaning self.old.system) }
    {
        match perform(&mut self.system, &mut self.book, ask) {
            Ok(answer) => self.out.answer(number, ask, answer),
            Err(Unanswered::Refused(fault)) => self.out.fault(number, &fault),
            Err(Unanswered::Memory) => Err(AllocError),
        }
    }

    fn answer_call(&mut self, call: Call, number: usize) -> Result<(), AllocError>
        requires { S.System.ok self.old.system }
        ensures fine { S.System.ok self.new.system }
        ensures level { level (S.System.meaning self.new.system) ≡ level (S.System.meaning self.old.system) }
    {
        match call {
            Call::Ask(ask) => self.answer_ask(ask, number),
            Call::Look(code) => self.look_line(code, number),
            Call::Tally => {
                let tally = self.system.tally();
                self.out.tally(number, tally)
            }
            _ => self.out.say(number, "none", "no mark is open"),
        }
    }

    pub(crate) fn answer_line(&mut self, line: Line, number: usize) -> Result<(), AllocError>
        requires { S.System.ok self.old.system }
        ensures fine { S.System.ok self.new.system }
        ensures level { level (S.System.meaning self.new.system) ≡ level (S.System.meaning self.old.system) }
    {
        match line {
            Line::Call(call) => self.answer_call(call, number),
            Line::Type(codes) => self.type_line(codes, number),
            Line::Read(_) => self.out.say(
                number,
                "none",
                "there is no pile with a sheet to read for",
            ),
            Line::Sheet(_) => self.out.say(
                number,
                "fault 2 0 0 2",
                "refused with 2 by layer 2: a sheet is at most 24 labels, each once, one space apart",
            ),
            Line::Blank => Ok(()),
            Line::Unknown => self.out.unknown(number),
        }
    }
}
