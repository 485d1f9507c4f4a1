ghost use Rattle.std.specs.Prelude.{◌≡◌, [], IfOk};
ghost use Rattle.script.specs.Reads.{printable, first_bad_byte, reading};
ghost use Rattle.script.specs.Settings.{setting_of};
ghost use Rattle.script.specs.Read.{answered, nodes_read, CameScript};

use crate::due::wrong_token;
use crate::fault::{ReadFault, Reason};
use crate::node::Node;
use crate::reader::{MOST_FORMS, Reader};
use crate::scope::Scope;
use crate::source::Source;
use crate::token::{Token, token_at};
use std::alloc::{AllocError, Global};

// How long a script may be, and how deep its brackets may nest.
const MOST_BYTES: usize = 4096;

const MOST_DEEP: u8 = 32;

fn is_printable(b: u8) -> bool
    ensures { result ≡ printable b }
{
    matches!(b as char, ' '..='~')
}

// The first byte outside 32 to 126.
fn bad_byte(text: &[u8]) -> Option<usize>
    ensures { result ≡ first_bad_byte 0 text.now }
{
    text.iter().position(|b| !is_printable(*b))
}

impl Reader {
    // A reader that has read nothing yet: the only place that takes memory.
    pub fn new(heap: Global) -> Result<Reader, AllocError>
        ensures { IfOk result (λ s. s.nodes.items ≡ []) }
    {
        let nodes = Vec::with_capacity(heap, MOST_FORMS)?;
        Ok(Reader { nodes })
    }

    // The nodes of the script that was read last; none where it was refused.
    pub fn nodes(&self) -> &[Node]
        ensures { result.now ≡ self.now.nodes.items }
    {
        self.nodes.as_slice()
    }

    // Reads a script: its nodes are kept, or the first fault from the left is told.
    pub fn read(&mut self, source: &Source) -> Result<(), ReadFault>
        ensures answer { result ≡ answered (reading (setting_of source.now) source.now.text.now) }
        ensures nodes { self.new.nodes.items ≡ nodes_read (reading (setting_of source.now) source.now.text.now) }
    {
        self.nodes.clear();
        let read = self.read_script(source);
        if read.is_err() {
            self.nodes.clear();
        }
        read
    }

    fn read_script(&mut self, source: &Source) -> Result<(), ReadFault>
        requires { self.old.nodes.items ≡ [] }
        ensures { CameScript self.new.nodes.items result (reading (setting_of source.now) source.now.text.now) }
    {
        if source.text.len() > MOST_BYTES {
            return Err(Reason::TooLong.over(0, 0));
        }
        if let Some(start) = bad_byte(source.text) {
            return Err(Reason::BadByte.over(start, 1));
        }
        let mut scope = Scope::new();
        let at = self.read_form(&mut scope, source, 0, MOST_DEEP)?;
        let (token, _) = token_at(source.text, at);
        match token {
            Token::End(_) => Ok(()),
            _ => Err(wrong_token(source.text, token, MOST_DEEP)),
        }
    }
}
