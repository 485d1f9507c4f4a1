use ground::classes::Classes;
use ground::code::Code;
use ground::head::Head;

// What a code is equal to: the open code that stands for it, or a head over known codes.
#[derive(Clone, Copy)]
pub enum View {
    Open(Code, Classes),
    Built {
        head: Head,
        first: Code,
        second: Code,
        label: u8,
    },
}
