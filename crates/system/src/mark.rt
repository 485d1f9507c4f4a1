ghost use Rattle.std.specs.Prelude.{◌≡◌, min, vec_capacity};
ghost use Rattle.system.specs.Marks.{Opened, Closed};

use crate::fault::SystemFault;
use crate::unspent::Unspent;
use std::marker::PhantomData;

// An open mark of a bottom system that saves a T with each: how many were open before it. It is not let go: `keep` or `back` takes it. Marks are opened and
// ended beside what was saved alone, so a system whose T no other crate can make is the only one that does so.
pub struct Mark<T> {
    depth: u8,
    of: PhantomData<T>,
}

// How many marks of a bottom system can be open.
const MOST_MARKS: usize = 8;

impl<T> Mark<T> {
    // Opens a mark and saves what it is to go back to; at most eight are open, and none for which there is no room.
    pub fn open(saved: &mut Vec<T>, now: T) -> Result<Mark<T>, SystemFault>
    where
        T: Drop,
        ensures opened { Opened (min 8 (vec_capacity saved.old)) saved.old.items now result saved.new.items }
        ensures room { vec_capacity saved.new ≡ vec_capacity saved.old }
    {
        let depth = saved.len();
        if depth >= MOST_MARKS || depth >= saved.capacity() {
            return Err(SystemFault::TooManyMarks);
        }
        saved.push_reserved(now);
        Ok(Mark {
            depth: depth as u8,
            of: PhantomData,
        })
    }

    // Ends the newest mark and gives what was saved for it; another is handed back.
    pub fn close(self, saved: &mut Vec<T>) -> Result<T, Unspent<Mark<T>, SystemFault>>
        ensures closed { Closed saved.old.items self result saved.new.items }
        ensures room { vec_capacity saved.new ≡ vec_capacity saved.old }
    {
        if usize::from(self.depth) + 1 != saved.len() {
            return Err(Unspent {
                mark: self,
                fault: SystemFault::Unknown,
            });
        }
        let Mark { depth: _, of: _ } = self;
        Ok(saved.pop().unwrap())
    }
}
