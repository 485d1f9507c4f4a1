use ground::classes::Classes;
use ground::code::Code;

// What look says of a code: the classes that it can be in, and the open code to which it is left whether it is in them; none where a head settles that.
#[derive(Clone, Copy)]
pub struct Verdict {
    pub allows: Classes,
    pub code: Option<Code>,
}
