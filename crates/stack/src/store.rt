ghost use Rattle.std.specs.Prelude.{◌≤◌, length};

mod ends;

// The first `len` of the slots hold what was pushed and not popped, the newest last.
#[derive(Drop)]
pub struct Stack<'a, T> {
    slots: &'a mut [T],
    len: usize,
    ghost within: { len ≤ length slots.now },
}
