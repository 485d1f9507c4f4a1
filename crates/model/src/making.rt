ghost use Rattle.std.specs.Prelude.{◌≡◌};
ghost use Rattle.model.specs.Models.{Built};

use crate::codes::Codes;
use crate::model::Model;
use std::alloc::Global;
use system::fault::NewFault;

impl Model {
    // A new model of a capacity from 16 to 4,096.
    pub fn new(heap: Global, capacity: usize) -> Result<Model, NewFault>
        ensures { Built capacity result }
    {
        if capacity < 16 || capacity > 4096 {
            return Err(NewFault::Capacity);
        }
        let codes = Codes::new(heap, capacity)?;
        let saved = Vec::with_capacity(heap, 8)?;
        Ok(Model { codes, saved })
    }
}
