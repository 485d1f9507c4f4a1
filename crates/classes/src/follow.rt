ghost use Rattle.std.specs.Prelude.{◌≡◌, ◌≤◌, [], length};
ghost use Rattle.classes.specs.Entries.{told, left};
ghost use Rattle.classes.specs.Following.{taken, Followed};
ghost use Rattle.classes.specs.Layered.{Followables};

use crate::judge::judge;
use crate::table::Table;
use crate::verdict::Verdict;
use ground::classes::Classes;
use system::fault::ClassFault;
use system::system::System;

impl Table {
    // Takes up the classes of a code, by the verdict on it.
    pub(crate) fn take_up(&mut self, verdict: Verdict, set: Classes) -> Result<(), ClassFault>
        ensures answer { result ≡ told (taken self.old verdict set) }
        ensures entries { self.new ≡ left self.old (taken self.old verdict set) }
        ensures few { length self.old ≤ 128 }
    {
        prove!(self.count <= 128);
        if set.0 & verdict.allows.0 != set.0 {
            return Err(ClassFault::NotInClass);
        }
        match verdict.code {
            Some(code) => self.join(code, set),
            None => Ok(()),
        }
    }
}

// The table that the entries make, followed again, the oldest first.
pub(crate) fn followed<S: System>(below: &S, table: &Table) -> Result<Table, ClassFault>
    requires ok { S.System.ok below.now }
    requires entries { Followables (S.System.meaning below.now).state table.now }
    ensures { Followed (S.System.meaning below.now) table.now [] result }
{
    let mut next = Table::new();
    for entry in table.as_slice() {
        let verdict = judge(below, entry.code);
        next.take_up(verdict, entry.set)?;
    }
    Ok(next)
}
