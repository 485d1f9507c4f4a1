ghost use Rattle.std.specs.Prelude.{◌≡◌};
ghost use Rattle.classes.specs.Layered.{InOrder};
ghost use Rattle.classes.specs.Trying.{Tried};

use crate::follow::followed;
use crate::own::own;
use crate::table::Table;
use ground::code::Code;
use system::layer_fault::LayerFault;
use system::system::System;

// Equates below, and follows the entries again into a new table.
pub(crate) fn try_equate<S: System>(
    below: &mut S,
    table: &Table,
    a: Code,
    b: Code,
) -> Result<Table, LayerFault<S::Fault>>
    requires ok { S.System.ok below.old }
    requires classless { S.System.CLASSES ≡ 0 }
    requires order { InOrder (S.System.meaning below.old).state table.now }
    ensures ok { S.System.ok below.new }
    ensures tried { Tried S.Fault.number S.Fault.layer S.System.HEADS (S.System.meaning below.old) a.0 b.0 table.now result (S.System.meaning below.new) }
{
    below.equate(a, b)?;
    own(followed(&*below, table))
}
