ghost use Rattle.std.specs.Prelude.{◌≡◌};
ghost use Rattle.classes.specs.Entries.{blank};

use ground::classes::Classes;
use ground::code::Code;

// An open code of the system below, and the classes demanded of it.
#[derive(Clone, Copy)]
pub struct Entry {
    pub code: Code,
    pub set: Classes,
}

// What stands in the places of a table that no entry has; a code has no default of its own to derive this from.
impl Default for Entry {
    ghost is_default = { λ e. e ≡ blank };

    fn default() -> Entry {
        Entry {
            code: Code(0),
            set: Classes::NONE,
        }
    }
}
