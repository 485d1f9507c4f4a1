// Answers as lines, for programs and for people.
ghost use Rattle.std.specs.Prelude.{◌≡◌, [], string_bytes};

use crate::answer::Answer;
use crate::reason::reason;
use ground::refusal::Refusal;
use lines::ask::Ask;
use std::alloc::{AllocError, Global};
use system::tally::Tally;

#[derive(Clone, Copy)]
pub enum Mode {
    // In words.
    People,
    // One line a call, for programs.
    Plain,
}

#[derive(Drop)]
pub struct Out {
    pub(crate) heap: Global,
    pub(crate) mode: Mode,
    text: String,
}

impl Out {
    // Nothing is answered yet.
    pub fn new(heap: Global, mode: Mode) -> Out
        ensures mode { result.mode ≡ mode }
        ensures text { string_bytes result.text ≡ [] }
    {
        Out {
            heap,
            mode,
            text: String::new(heap),
        }
    }

    // All that was answered.
    pub fn as_bytes(&self) -> &[u8]
        ensures { result.now ≡ string_bytes self.now.text }
    {
        self.text.as_bytes()
    }

    // The answer to the line of this number, in either form.
    pub(crate) fn say(
        &mut self,
        number: usize,
        plain: &str,
        words: &str,
    ) -> Result<(), AllocError> {
        match self.mode {
            Mode::Plain => writeln!(self.text, "{plain}"),
            Mode::People => writeln!(self.text, "line {number}: {words}"),
        }
    }

    pub(crate) fn answer(
        &mut self,
        number: usize,
        ask: Ask,
        answer: Answer,
    ) -> Result<(), AllocError> {
        match answer {
            Answer::Made(k) => {
                let plain = format!(in self.heap; "ok #{k}")?;
                let words = format!(in self.heap; "#{k} is made")?;
                self.say(number, plain.as_str(), words.as_str())
            }
            Answer::Done => self.say(number, "ok", done_in_words(ask)),
        }
    }

    pub(crate) fn fault<F: Refusal>(&mut self, number: usize, fault: &F) -> Result<(), AllocError> {
        let layer = fault.layer();
        let fault = fault.number();
        let meaning = reason(fault);
        let plain = format!(in self.heap; "fault {fault} {layer}")?;
        let words = format!(in self.heap; "refused with {fault} by layer {layer}: {meaning}")?;
        self.say(number, plain.as_str(), words.as_str())
    }

    pub(crate) fn tally(&mut self, number: usize, tally: Tally) -> Result<(), AllocError> {
        let Tally {
            calls,
            capacity,
            marks,
        } = tally;
        let plain = format!(in self.heap; "ok {calls} {capacity} {marks}")?;
        let words = format!(in self.heap;
            "{calls} of at most {capacity} codes are made, open marks: {marks}"
        )?;
        self.say(number, plain.as_str(), words.as_str())
    }

    pub(crate) fn unknown(&mut self, number: usize) -> Result<(), AllocError> {
        let plain = format!(in self.heap; "unknown {number}")?;
        self.say(number, plain.as_str(), "this is no call")
    }
}

fn done_in_words(ask: Ask) -> &'static str {
    match ask {
        Ask::Demand(..) => "it is in the class now",
        _ => "they are equal now",
    }
}
