ghost use Rattle.std.specs.Prelude.{◌≡◌, ◌+◌, ◌<◌, ◌≤◌, ◌∷◌, ◌++◌, length};
ghost use Rattle.stack.specs.Stacks.{held, room};
ghost use Rattle.cells.specs.Steps.{pair};
ghost use Rattle.unifier.specs.Notes.{noted, field_pairs};
ghost use Rattle.unifier.specs.Stores.{Kept, Lasts};
ghost use Rattle.unifier.specs.Turns.{Next};

use super::cell::Pair;
use super::side::Side;
use super::waiting::Waiting;
use stack::store::Stack;

// A pair more to be made equal. A slot is left for it.
pub(crate) fn note(pending: &mut Stack<Pair>, left: u16, right: u16)
    requires { length (held pending.old) < room pending.old }
    ensures held { held pending.new ≡ pair left right ∷ held pending.old }
    ensures kept { Kept pending.old pending.new }
{
    let _ = pending.push(Pair { left, right });
}

// The fields of two rows at one label: where one of them has none, the other's is to be absent, as the cell 0 is.
fn note_field(pending: &mut Stack<Pair>, one: Option<u16>, other: Option<u16>)
    requires { length (held pending.old) < room pending.old }
    ensures held { held pending.new ≡ noted one other (held pending.old) }
    ensures kept { Kept pending.old pending.new }
{
    match (one, other) {
        (Some(x), Some(y)) => note(pending, x, y),
        (Some(x), None) => note(pending, x, 0),
        (None, Some(y)) => note(pending, 0, y),
        (None, None) => {}
    }
}

// The fields of two rows, label by label.
pub(crate) fn note_fields(pending: &mut Stack<Pair>, a: &Side, b: &Side)
    requires { length (held pending.old) + 24 ≤ room pending.old }
    ensures held { held pending.new ≡ field_pairs a.now b.now 24 ++ held pending.old }
    ensures kept { Kept pending.old pending.new }
{
    for label in 0..24 {
        note_field(pending, a.fields[label], b.fields[label]);
    }
}

impl Waiting<'_> {
    // The pair whose turn it is.
    pub(crate) fn next(&mut self) -> Option<Pair>
        ensures next { Next (held self.old.fields) (held self.old.pending) result (held self.new.fields) (held self.new.pending) }
        ensures lasts { Lasts self.old self.new }
    {
        if let Some(p) = self.fields.pop() {
            return Some(p);
        }
        self.pending.pop()
    }
}
