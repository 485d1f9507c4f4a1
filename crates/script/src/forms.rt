ghost use Rattle.std.specs.Prelude.{◌≡◌, ◌+◌, ◌<◌, ◌≤◌, length, vec_len};
ghost use Rattle.ground.specs.Names.{text, pack};
ghost use Rattle.script.specs.Here.{text_of, form_here, body_here, bracket_here, parts_here};
ghost use Rattle.script.specs.Came.{CameForm, CameParts};

use crate::due::{read_binder, read_close, read_keyword, read_label, wrong_token};
use crate::fault::{ReadFault, Reason};
use crate::guard::Guard;
use crate::leaf::read_leaf;
use crate::node::{Item, Node};
use crate::part::{Part, parts};
use crate::reader::{MOST_FORMS, Reader};
use crate::scope::Scope;
use crate::seen::{Seen, item};
use crate::source::Source;
use crate::token::{Token, token_at};
use ground::name::Name;
use ground::place::Place;

// The names, the source, the byte and the depth go one by one: the last two are others at each call, and the guard of a body lends the
// names alone, so a struct of them would be taken apart at each.
impl Reader {
    // The form at `at` or behind it, which may nest `depth` brackets: its nodes are added, and the byte behind it is told.
    #[cycle(read_body_read_bracketed_read_form_read_parts)]
    pub(crate) fn read_form(
        &mut self,
        scope: &mut Scope,
        source: &Source,
        at: usize,
        depth: u8,
    ) -> Result<usize, ReadFault>
        requires room { length scope.old.items + depth ≤ 32 }
        ensures answer { CameForm (text_of source.now) self.old.nodes.items self.new.nodes.items result (form_here source.now scope.old.items depth (vec_len self.old.nodes) at) }
        ensures bound { scope.new.items ≡ scope.old.items }
    {
        let (token, next) = token_at(source.text, at);
        match token {
            Token::Open(i) => {
                if depth == 0 {
                    return Err(wrong_token(source.text, token, depth));
                }
                if self.nodes.len() >= MOST_FORMS {
                    return Err(Reason::TooManyForms.over(i, 1));
                }
                self.read_bracketed(scope, source, i, next, depth - 1)
            }
            Token::Word(place) => {
                if self.nodes.len() >= MOST_FORMS {
                    return Err(Reason::TooManyForms.over(place.start, 1));
                }
                let item = read_leaf(scope, source, place)?;
                self.nodes.push_reserved(Node { place, item });
                Ok(next)
            }
            _ => Err(wrong_token(source.text, token, depth)),
        }
    }

    // Behind the bracket that opens at `start`: the keyword, what it asks for, and the closing bracket.
    #[cycle(read_body_read_bracketed_read_form_read_parts)]
    fn read_bracketed(
        &mut self,
        scope: &mut Scope,
        source: &Source,
        start: usize,
        at: usize,
        depth: u8,
    ) -> Result<usize, ReadFault>
        requires room { length scope.old.items + depth < 32 }
        requires few { vec_len self.old.nodes < 512 }
        ensures answer { CameForm (text_of source.now) self.old.nodes.items self.new.nodes.items result (bracket_here source.now scope.old.items depth (vec_len self.old.nodes) start at) }
        ensures bound { scope.new.items ≡ scope.old.items }
    {
        let here = self.nodes.len();
        let (keyword, at) = read_keyword(source, at, depth)?;
        // The node stands before those of its sub-forms, and is filled in once its end is known.
        self.nodes.push_reserved(Node {
            place: Place { start, length: 0 },
            item: Item::Record,
        });
        let none = Seen {
            binder: Name::NONE,
            label: 0,
        };
        let (seen, at) = self.read_parts(scope, source, parts(keyword), none, at, depth)?;
        let (close, at) = read_close(source.text, at, depth)?;
        let place = Place {
            start,
            length: (close + 1).saturating_sub(start),
        };
        self.nodes[here] = Node {
            place,
            item: item(keyword, seen),
        };
        Ok(at)
    }

    // What stands behind a keyword, part by part.
    #[cycle(read_body_read_bracketed_read_form_read_parts)]
    fn read_parts(
        &mut self,
        scope: &mut Scope,
        source: &Source,
        parts: &[Part],
        seen: Seen,
        at: usize,
        depth: u8,
    ) -> Result<(Seen, usize), ReadFault>
        requires room { length scope.old.items + depth < 32 }
        requires packed { seen.binder ≡ pack (text seen.binder) }
        ensures answer { CameParts (text_of source.now) self.old.nodes.items self.new.nodes.items result (parts_here source.now scope.old.items depth (vec_len self.old.nodes) parts.now (text seen.binder) seen.label at) }
        ensures bound { scope.new.items ≡ scope.old.items }
    {
        let [part, later @ ..] = parts else {
            return Ok((seen, at));
        };
        match part {
            Part::Binder => {
                let (binder, at) = read_binder(source.text, at, depth)?;
                let seen = Seen { binder, ..seen };
                self.read_parts(scope, source, later, seen, at, depth)
            }
            Part::Label => {
                let (label, at) = read_label(source, at, depth)?;
                let seen = Seen { label, ..seen };
                self.read_parts(scope, source, later, seen, at, depth)
            }
            Part::Sub => {
                let at = self.read_form(scope, source, at, depth)?;
                self.read_parts(scope, source, later, seen, at, depth)
            }
            Part::Body => {
                let at = self.read_body(scope, source, seen.binder, at, depth)?;
                self.read_parts(scope, source, later, seen, at, depth)
            }
        }
    }

    // A form in which the name is bound; it is taken off again however the reading ends.
    #[cycle(read_body_read_bracketed_read_form_read_parts)]
    fn read_body(
        &mut self,
        scope: &mut Scope,
        source: &Source,
        name: Name,
        at: usize,
        depth: u8,
    ) -> Result<usize, ReadFault>
        requires room { length scope.old.items + depth < 32 }
        ensures answer { CameForm (text_of source.now) self.old.nodes.items self.new.nodes.items result (body_here source.now scope.old.items (text name) depth (vec_len self.old.nodes) at) }
        ensures bound { scope.new.items ≡ scope.old.items }
    {
        let keep = scope.len();
        scope.push(name);
        let guard = Guard { scope, keep };
        self.read_form(&mut *guard.scope, source, at, depth)
    }
}
