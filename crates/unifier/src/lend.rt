ghost use Rattle.std.specs.Prelude.{◌≡◌, ◌^◌, ◌<◌, length};
ghost use Rattle.cells.specs.Cells.{sort_at};
ghost use Rattle.unifier.specs.Fine.{Fine, Rowly};
ghost use Rattle.unifier.specs.Sides.{including, Lent};
ghost use Rattle.unifier.specs.Stores.{Later};

use super::cell::What;
use super::misfit::NoRoom;
use super::side::Side;
use super::store::Store;
use ground::sort::{Labels, Sort};

// The set with a label that it lacks.
fn with_label(set: Labels, label: u8) -> Labels
    requires set { set.0 < 2 ^ 24 }
    requires label { label < 24 }
    ensures { result ≡ including set label }
{
    Labels(set.0 + (1u32 << label))
}

impl Store {
    // Gives a row a label with that field, where its tail is open.
    pub(crate) fn lend(&mut self, side: &mut Side, label: u8, field: u16) -> Result<(), NoRoom>
        requires fine { Fine self.old.cells.items }
        requires known { side.old.tail < length self.old.cells.items }
        requires row { Rowly (sort_at self.old.cells.items side.old.tail) }
        requires label { label < 24 }
        ensures lent { Lent self.old.limit self.old.cells.items side.old label field result self.new.cells.items side.new }
        ensures later { Later self.old self.new }
    {
        let cell = self.cells[side.tail];
        if let What::Open = cell.what {
            if let Sort::Row(lacked) = cell.sort {
                if self.limit - self.cells.len() < 2 {
                    return Err(NoRoom);
                }
                side.tail = self.extend(side.tail, label, field, with_label(lacked, label));
                side.fields[label as usize] = Some(field);
            }
        }
        Ok(())
    }
}
