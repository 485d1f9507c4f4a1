// What a look and a type line are answered.
ghost use Rattle.std.specs.Prelude.{◌≡◌, IfOk};
ghost use Rattle.values.specs.Spelling.{written};
ghost use Rattle.values.specs.Writers.{writing};

use crate::book::Book;
use crate::session::Session;
use ground::classes::Classes;
use ground::code::Code;
use ground::head::Head;
use lines::word::{Words, code_number};
use std::alloc::{AllocError, Global};
use system::system::System;
use system::view::View;
use values::class::class_tokens;
use values::speller::Speller;
use values::token::Token;
use values::tokens::Tokens;
use values::value::write_value;
use values::word::class_words;

fn put_classes(text: &mut String, classes: Classes) -> Result<(), AllocError> {
    for word in &class_words(classes) {
        if let Some(word) = word {
            let word = word.as_str();
            write!(text, " {word}")?;
        }
    }
    Ok(())
}

// How a build call names the head: words of these lines alone, so no Display of the head itself.
fn head_name(head: Head) -> &'static str {
    match head {
        Head::Whole => "whole",
        Head::Tenth => "tenth",
        Head::Flag => "flag",
        Head::To => "to",
        Head::List => "list",
        Head::Record => "record",
        Head::Absent => "absent",
        Head::Has => "has",
        Head::Empty => "empty",
        Head::Row => "row",
    }
}

// The view as words: the open code with its classes, or the head as in a build call.
fn viewed(heap: Global, book: &mut Book, view: View) -> Result<String, AllocError> {
    match view {
        View::Open(code, classes) => {
            let code = book.written(code)?;
            let mut text = format!(in heap; "open {code}")?;
            put_classes(&mut text, classes)?;
            Ok(text)
        }
        View::Built {
            head,
            first,
            second,
            label,
        } => {
            let mut text = String::from_str(heap, head_name(head))?;
            if head == Head::Row {
                write!(text, " {label}")?;
            }
            if head.has_first() {
                let first = book.written(first)?;
                write!(text, " {first}")?;
            }
            if head.has_second() {
                let second = book.written(second)?;
                write!(text, " {second}")?;
            }
            Ok(text)
        }
    }
}

// The same for people; that an open code stands for itself is not said.
fn viewed_in_words(
    heap: Global,
    number: u32,
    own: Code,
    view: View,
    plain: &str,
) -> Result<String, AllocError> {
    match view {
        View::Open(code, classes) if code == own => {
            let mut words = format!(in heap; "#{number} is open")?;
            put_classes(&mut words, classes)?;
            Ok(words)
        }
        _ => format!(in heap; "#{number} is {plain}"),
    }
}

// Tokens as text, with the classes of their variables behind them.
fn spelled(heap: Global, tokens: &[Token]) -> Result<Speller, AllocError>
    ensures { IfOk result (λ s. writing s ≡ written tokens.now) }
{
    let mut speller = Speller::new(heap);
    speller.spell(tokens)?;
    let classes = class_tokens(heap, speller.names())?;
    speller.spell(classes.as_slice())?;
    Ok(speller)
}

impl<S: System + Drop> Session<S> {
    pub(crate) fn look_line(&mut self, code: u32, number: usize) -> Result<(), AllocError>
        requires { S.System.ok self.old.system }
        ensures { self.new.system ≡ self.old.system }
    {
        let own = self.book.code(code);
        match self.system.look(own) {
            Ok(view) => {
                let heap = self.out.heap;
                let plain = viewed(heap, &mut self.book, view)?;
                let words = viewed_in_words(heap, code, own, view, plain.as_str())?;
                self.out.say(number, plain.as_str(), words.as_str())
            }
            Err(fault) => self.out.fault(number, &fault),
        }
    }

    // Can all of these codes be looked at? If not, what is said of the first that cannot.
    fn known(&self, codes: &[u8]) -> Result<(), S::Fault>
        requires { S.System.ok self.now.system }
    {
        for k in Words::of(codes).filter_map(code_number) {
            self.system.look(self.book.code(k))?;
        }
        Ok(())
    }

    // The values of the codes, one behind the other.
    fn values(&self, codes: &[u8]) -> Result<Tokens, AllocError>
        requires { S.System.ok self.now.system }
    {
        let mut tokens = Tokens::new(self.out.heap);
        for k in Words::of(codes).filter_map(code_number) {
            write_value(
                &self.system,
                &mut tokens,
                self.book.kind(k),
                self.book.code(k),
            )?;
        }
        Ok(tokens)
    }

    // The values of the codes, their variables named together.
    pub(crate) fn type_line(&mut self, codes: &[u8], number: usize) -> Result<(), AllocError>
        requires { S.System.ok self.old.system }
        ensures { self.new.system ≡ self.old.system }
    {
        if let Err(fault) = self.known(codes) {
            return self.out.fault(number, &fault);
        }
        let tokens = self.values(codes)?;
        let speller = spelled(self.out.heap, tokens.as_slice())?;
        self.out.say(number, speller.as_str(), speller.as_str())
    }
}
