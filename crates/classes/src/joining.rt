ghost use Rattle.std.specs.Prelude.{◌≡◌, ◌<◌, ◌≤◌, [], ◌∷◌, ◌++◌, ◌==◌, length, position, IsOk, IfErr, OnOk, OnErr};
ghost use Rattle.system.specs.declared.fault.ClassFault.TheVariants.{TooManyClasses};
ghost use Rattle.classes.specs.Entries.{classed, joining, told, left};

use crate::entry::Entry;
use crate::table::Table;
use ground::classes::Classes;
use ground::code::Code;
use system::fault::ClassFault;

// How many entries a table can have.
const MOST_ENTRIES: usize = 128;

impl Table {
    pub(crate) fn new() -> Table
        ensures { result ≡ [] }
    {
        Table {
            entries: [Entry::default(); 128],
            count: 0,
        }
    }

    pub(crate) fn as_slice(&self) -> &[Entry]
        ensures value { result.now ≡ self.now }
        ensures few { length result.now ≤ 128 }
    {
        &self.entries[..self.count]
    }

    pub(crate) fn is_empty(&self) -> bool
        ensures { result ≡ (length self.now == 0) }
    {
        self.count == 0
    }

    // Where the entry of the code stands.
    fn position(&self, code: Code) -> Option<usize>
        ensures { result ≡ position (λ e. e.code.0 == code.0) self.now }
    {
        self.as_slice().iter().position(|entry| entry.code == code)
    }

    // The classes demanded of the code.
    pub(crate) fn set_of(&self, code: Code) -> Classes
        ensures { result ≡ classed self.now code.0 }
    {
        self.as_slice()
            .iter()
            .find(|entry| entry.code == code)
            .map_or(Classes::NONE, |entry| entry.set)
    }

    // One entry more, unless the table is full.
    fn push(&mut self, entry: Entry) -> Result<(), ClassFault>
        ensures variant { IsOk result → length self.old < 128 }
        ensures ok { OnOk result (self.new ≡ self.old ++ entry ∷ []) }
        ensures kept { OnErr result (self.new ≡ self.old) }
        ensures full { OnErr result (length self.old ≡ 128) }
        ensures refused { IfErr result (λ f. f ≡ TooManyClasses) }
    {
        if self.count == MOST_ENTRIES {
            return Err(ClassFault::TooManyClasses);
        }
        self.entries[self.count] = entry;
        self.count += 1;
        Ok(())
    }

    // Demands the classes of the code too.
    pub(crate) fn join(&mut self, code: Code, set: Classes) -> Result<(), ClassFault>
        ensures answer { result ≡ told (joining self.old code set) }
        ensures entries { self.new ≡ left self.old (joining self.old code set) }
    {
        let Some(at) = self.position(code) else {
            return self.push(Entry { code, set });
        };
        let all = self.entries[at].set.union(set);
        if !all.has_member() {
            return Err(ClassFault::NoMember);
        }
        self.entries[at].set = all;
        Ok(())
    }
}
