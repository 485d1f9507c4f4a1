ghost use Rattle.std.specs.Prelude.{◌≡◌, ◌<◌};
ghost use Rattle.unifier.specs.Sides.{Facing, Shared, Wide};
ghost use Rattle.unifier.specs.Stores.{Later};

use super::misfit::NoRoom;
use super::side::Side;
use super::store::Store;

impl Store {
    // Where one row shows the label alone, the other gets it with the same field.
    fn share(&mut self, a: &mut Side, b: &mut Side, label: u8) -> Result<(), NoRoom>
        requires facing { Facing self.old.cells.items a.old b.old }
        requires label { label < 24 }
        ensures shared { Shared self.old.limit self.old.cells.items a.old b.old label result self.new.cells.items a.new b.new }
        ensures later { Later self.old self.new }
    {
        let one = a.fields[label as usize];
        let other = b.fields[label as usize];
        match (one, other) {
            (Some(x), None) => self.lend(b, label, x),
            (None, Some(y)) => self.lend(a, label, y),
            _ => Ok(()),
        }
    }

    // Two rows of one sort get each other's labels, as far as their tails are open.
    pub(crate) fn widen(&mut self, a: &mut Side, b: &mut Side) -> Result<(), NoRoom>
        requires facing { Facing self.old.cells.items a.old b.old }
        ensures wide { Wide self.old.limit self.old.cells.items a.old b.old result self.new.cells.items a.new b.new }
        ensures later { Later self.old self.new }
    {
        for label in 0..24 {
            self.share(a, b, label)?;
        }
        Ok(())
    }
}
