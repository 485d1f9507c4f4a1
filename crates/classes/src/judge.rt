ghost use Rattle.std.specs.Prelude.{◌≡◌};
ghost use Rattle.std.proofs.Math.Option.{some as sorted};
ghost use Rattle.ground.specs.declared.sort.Sort.TheVariants.{«Type» as OfType};
ghost use Rattle.classes.specs.Following.{Judged, members_of};

use crate::verdict::Verdict;
use ground::classes::Classes;
use ground::code::Code;
use ground::head::Head;
use system::system::System;
use system::view::View;

// All four classes; those of numbers, of flags, and those that a list can be in.
const ALL: Classes = Classes(0b1111);

const NUMBERS: Classes = Classes(0b0111);

const FLAGS: Classes = Classes(0b1100);

const LISTS: Classes = Classes(0b1110);

// The classes that have what the head builds; list is looked through, and stands for none here.
fn members(head: Head) -> Classes
    ensures { result ≡ members_of head }
{
    match head {
        Head::Whole | Head::Tenth => NUMBERS,
        Head::Flag => FLAGS,
        _ => Classes::NONE,
    }
}

// Follows look from a type through lists, to an open code or to a head that settles its classes.
pub(crate) fn judge<S: System>(below: &S, code: Code) -> Verdict
    requires ok { S.System.ok below.now }
    requires sort { (S.System.meaning below.now).state.sort_of code.0 ≡ sorted OfType }
    ensures { Judged (S.System.meaning below.now) code.0 result }
{
    match below.look(code).unwrap() {
        View::Open(open, _) => Verdict {
            allows: ALL,
            code: Some(open),
        },
        View::Built { head, first, .. } => match head {
            Head::List => {
                let inner = judge(below, first);
                Verdict {
                    allows: Classes(inner.allows.0 & LISTS.0),
                    code: inner.code,
                }
            }
            _ => Verdict {
                allows: members(head),
                code: None,
            },
        },
    }
}
