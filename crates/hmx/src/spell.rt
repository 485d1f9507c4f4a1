// A form spelled again as the reader understood it.
use crate::tenths::Tenths;
use ground::name::Name;
use script::node::{Item, Node};
use std::io;
use std::io::Write;

// Writes the forms of the nodes that are left, one after the other.
#[derive(Drop)]
struct Speller<'a, W> {
    nodes: &'a [Node],
    labels: &'a [Name],
    out: &'a mut W,
}

pub(crate) fn spell<W: Write>(out: &mut W, nodes: &[Node], labels: &[Name]) -> io::Result<()> {
    let mut speller = Speller { nodes, labels, out };
    speller.form(33)
}

impl<W: Write> Speller<'_, W> {
    // The next form. Brackets nest less than `fuel` deep.
    #[cycle(bracketed_form_forms)]
    fn form(&mut self, fuel: u8) -> io::Result<()> {
        let Some((node, nodes)) = self.nodes.split_first() else {
            return Ok(());
        };
        if fuel == 0 {
            return Ok(());
        }
        self.nodes = nodes;
        match node.item {
            Item::Name(name) => self.out.write_all(name.as_bytes()),
            Item::Whole(z) => {
                let n = z / 10;
                write!(self.out, "{n}")
            }
            Item::Tenths(z) => {
                let n = Tenths(z);
                write!(self.out, "{n}")
            }
            Item::Truth(true) => self.out.write_all(b"yes"),
            Item::Truth(false) => self.out.write_all(b"no"),
            Item::Fun(name) => self.bracketed("fun", Some(name), None, 1, fuel - 1),
            Item::Rec(name) => self.bracketed("rec", Some(name), None, 1, fuel - 1),
            Item::Let(name) => self.bracketed("let", Some(name), None, 2, fuel - 1),
            Item::Call => self.bracketed("call", None, None, 2, fuel - 1),
            Item::If => self.bracketed("if", None, None, 3, fuel - 1),
            Item::Record => self.bracketed("record", None, None, 0, fuel - 1),
            Item::With(l) => self.bracketed("with", None, Some(l), 1, fuel - 1),
            Item::Get(l) => self.bracketed("get", None, Some(l), 0, fuel - 1),
            Item::Drop(l) => self.bracketed("drop", None, Some(l), 0, fuel - 1),
        }
    }

    // A head, the name that it binds, a form with its label, and as many further forms.
    #[cycle(bracketed_form_forms)]
    fn bracketed(
        &mut self,
        head: &str,
        name: Option<Name>,
        label: Option<u8>,
        count: u8,
        fuel: u8,
    ) -> io::Result<()> {
        self.out.write_all(b"(")?;
        self.out.write_all(head.as_bytes())?;
        if let Some(name) = name {
            self.out.write_all(b" ")?;
            self.out.write_all(name.as_bytes())?;
        }
        if let Some(label) = label {
            self.forms(1, fuel)?;
            self.out.write_all(b" ")?;
            if let Some(name) = self.labels.get(label as usize) {
                self.out.write_all(name.as_bytes())?;
            }
        }
        self.forms(count, fuel)?;
        self.out.write_all(b")")
    }

    // As many forms, each behind a space.
    #[cycle(bracketed_form_forms)]
    fn forms(&mut self, count: u8, fuel: u8) -> io::Result<()> {
        for _ in 0..count {
            self.out.write_all(b" ")?;
            self.form(fuel)?;
        }
        Ok(())
    }
}
