ghost use Rattle.classes.specs.Layers.{Built};

use crate::layer::{Layer, MOST_MARKS};
use crate::table::Table;
use crate::unbuilt::{Unbuilt, Want};
use std::alloc::Global;
use system::fault::ClassFault;
use system::system::System;

impl<S: System> Layer<S> {
    // A layer over a new system without classes; any other comes back.
    pub fn new(heap: Global, below: S) -> Result<Layer<S>, Unbuilt<S>>
        requires { S.System.ok below }
        ensures { Built S.System.ok S.System.CLASSES S.System.meaning below result }
    {
        let tally = below.tally();
        if S::CLASSES != 0 || tally.calls != 0 || tally.marks != 0 {
            return Err(Unbuilt {
                below,
                want: Want::NewSystem(ClassFault::Unknown),
            });
        }
        let Ok(saved) = Vec::with_capacity(heap, MOST_MARKS) else {
            return Err(Unbuilt {
                below,
                want: Want::Memory,
            });
        };
        Ok(Layer {
            below,
            table: Table::new(),
            saved,
        })
    }
}
