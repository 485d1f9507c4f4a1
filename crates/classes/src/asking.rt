ghost use Rattle.std.specs.Prelude.{◌≡◌};
ghost use Rattle.ground.specs.ClassNumbers.{number};
ghost use Rattle.system.specs.Meaning.{Same};
ghost use Rattle.classes.specs.Trying.{Typed};

use ground::class::Class;
use ground::code::Code;
use ground::refusal::Refusal;
use system::system::System;

// The number of a refusal of what is unknown or of a wrong sort. The fault is that of any system, of which only number and layer are known.
const UNKNOWN: u8 = 21;

// Is the known code a type? A system without classes refuses a demand on any other with 21, and one on a type since it has no classes.
pub(crate) fn check_type<S: System>(below: &mut S, class: Class, code: Code) -> Result<(), S::Fault>
    requires ok { S.System.ok below.old }
    requires classless { S.System.CLASSES ≡ 0 }
    ensures ok { S.System.ok below.new }
    ensures same { Same (S.System.meaning below.old) (S.System.meaning below.new) }
    ensures answer { Typed S.Fault.number S.Fault.layer (S.System.meaning below.old) (number class) code.0 result }
{
    match below.demand(class.number(), code) {
        Ok(()) => unreachable!(),
        Err(fault) if fault.number() == UNKNOWN => Err(fault),
        Err(_) => Ok(()),
    }
}
