use crate::entry::Entry;
use std::marker::Model;

// At most 128 entries, the oldest first; they lie in the table itself, so that copying one allocates nothing.
// The places behind them are blank: so the entries say all that the table holds, and it can be `Copy`, which the library's vector of fixed room is not.
#[derive(Clone, Copy)]
pub struct Table {
    pub(crate) entries: [Entry; 128],
    pub(crate) count: usize,
}

impl Model for Table {
    ghost use Rattle.std.specs.Prelude.{List, length, take};
    ghost use Rattle.classes.specs.declared.entry.Entry.{Entry};
    ghost use Rattle.classes.specs.Padding.{padded, Spare, counted, refilled};

    ghost Value = { List Entry };

    ghost view = { λ t. take t.count t.entries };

    ghost invariant = { λ t. Spare t.count t.entries };

    ghost inverse = { λ es. record { entries = padded es; count = length es } };

    ghost inverse_ok = { λ t h i. record {
      entries = refilled t.count t.entries h i;
      count = counted t.count t.entries h i;
    } };
}
