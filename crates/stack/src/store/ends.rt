ghost use Rattle.std.specs.Prelude.{◌≡◌, ◌+◌, ◌-◌, [], length};
ghost use Rattle.stack.specs.Stacks.{held, room, pushed, pushed_on, top, under};

use crate::store::Stack;

impl<'a, T: Copy> Stack<'a, T> {
    // An empty stack over these slots.
    pub fn over(slots: &'a mut [T]) -> Stack<'a, T>
        ensures held { held result ≡ [] }
        ensures room { room result ≡ length slots.old }
        ensures lender { result.slots.ghost_name ≡ slots.entry.ghost_name }
    {
        Stack { slots, len: 0 }
    }
}

impl<T: Copy> Stack<'_, T> {
    // One entry more. It comes back only where no slot is left: where room is known it never does.
    pub fn push(&mut self, x: T) -> Result<(), T>
        ensures answer { result ≡ pushed self.old x }
        ensures held { held self.new ≡ pushed_on self.old x }
        ensures room { room self.new ≡ room self.old }
        ensures lender { self.new.slots.ghost_name ≡ self.old.slots.ghost_name }
    {
        if self.len >= self.slots.len() {
            return Err(x);
        }
        self.slots[self.len] = x;
        self.len += 1;
        Ok(())
    }

    // The newest entry is taken off, if there is one.
    pub fn pop(&mut self) -> Option<T>
        ensures answer { result ≡ top (held self.old) }
        ensures held { held self.new ≡ under (held self.old) }
        ensures room { room self.new ≡ room self.old }
        ensures lender { self.new.slots.ghost_name ≡ self.old.slots.ghost_name }
    {
        if self.len == 0 {
            return None;
        }
        self.len -= 1;
        Some(self.slots[self.len])
    }
}
