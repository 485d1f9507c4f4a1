ghost use Rattle.std.specs.Prelude.{◌≡◌, ◌<◌};
ghost use Rattle.unifier.specs.Views.{viewed};

use super::cell::What;
use ground::classes::Classes;
use ground::code::Code;
use ground::head::Head;
use system::view::View;

// What is shown of a root with these contents.
pub(crate) fn view_of(root: usize, what: What) -> View
    requires { root < 4097 }
    ensures { result ≡ viewed root what }
{
    let (head, first, second, label) = match what {
        What::Open | What::Link(_) => return View::Open(Code(root as u32), Classes::NONE),
        What::Leaf(h) => (Head::from(h), 0, 0, 0),
        What::One(h, x) => (Head::from(h), x, 0, 0),
        What::Two(x, y) => (Head::To, x, y, 0),
        What::Row(l, x, y) => (Head::Row, x, y, l),
    };
    View::Built {
        head,
        first: Code(first as u32),
        second: Code(second as u32),
        label,
    }
}
