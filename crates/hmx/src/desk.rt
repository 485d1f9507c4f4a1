// What the calls are made on: the pile, the sheet and the reader.
use crate::refused::Refused;
use grammar::read_script;
use ground::name::Name;
use lines::line::{Call, Line, Pile};
use script::nesting::nesting;
use script::node::Node;
use script::reader::Reader;
use script::source::Source;
use std::alloc::{AllocError, Global};
use words::sheet::{Sheet, SheetFault};

const NO_NAMES: [Name; 0] = [];

#[derive(Clone, Copy)]
pub(crate) enum Answer {
    Done,
    // There is no pile, or none with a sheet for a script, or none without one for a call of a system.
    Nothing,
    // How many forms, and how deep they nest.
    Script(usize, usize),
    Unknown,
}

#[derive(Drop)]
pub(crate) struct Desk {
    pile: Option<Pile>,
    sheet: Option<Sheet>,
    reader: Reader,
}

impl Desk {
    pub(crate) fn new(heap: Global) -> Result<Desk, AllocError> {
        let reader = Reader::new(heap)?;
        Ok(Desk {
            pile: None,
            sheet: None,
            reader,
        })
    }

    pub(crate) fn nodes(&self) -> &[Node] {
        self.reader.nodes()
    }

    pub(crate) fn labels(&self) -> &[Name] {
        match &self.sheet {
            Some(sheet) => sheet.labels(),
            None => &NO_NAMES,
        }
    }

    // The answer, unless there is no memory for it.
    pub(crate) fn hear(
        &mut self,
        heap: Global,
        line: Line,
    ) -> Result<Result<Answer, Refused>, AllocError> {
        match line {
            Line::Call(Call::Pile(pile, cells)) => Ok(self.set_pile(pile, cells)),
            Line::Sheet(text) => self.set_sheet(heap, text),
            Line::Read(text) => Ok(self.read(text)),
            Line::Blank => Ok(Ok(Answer::Done)),
            Line::Unknown => Ok(Ok(Answer::Unknown)),
            _ => Ok(Ok(Answer::Nothing)),
        }
    }

    // A new pile begins anew: no sheet stands.
    fn set_pile(&mut self, pile: Pile, cells: u32) -> Result<Answer, Refused> {
        self.sheet = None;
        self.pile = None;
        if cells < 16 || cells > 4096 {
            return Err(Refused::Cells);
        }
        self.pile = Some(pile);
        Ok(Answer::Done)
    }

    fn set_sheet(
        &mut self,
        heap: Global,
        text: &[u8],
    ) -> Result<Result<Answer, Refused>, AllocError> {
        if self.pile.is_none() {
            return Ok(Ok(Answer::Nothing));
        }
        self.sheet = None;
        match Sheet::read(heap, text) {
            Ok(sheet) => {
                self.sheet = Some(sheet);
                Ok(Ok(Answer::Done))
            }
            Err(SheetFault::Bad) => Ok(Err(Refused::Sheet)),
            Err(SheetFault::Memory) => Err(AllocError),
        }
    }

    fn read(&mut self, text: &[u8]) -> Result<Answer, Refused> {
        let (Some(pile), Some(sheet)) = (self.pile, &self.sheet) else {
            return Ok(Answer::Nothing);
        };
        let source = Source {
            text,
            records: pile.records,
            classes: pile.classes,
            sheet,
            defined: &NO_NAMES,
        };
        read_script(&mut self.reader, &source)?;
        Ok(Answer::Script(self.reader.nodes().len(), nesting(text)))
    }
}
