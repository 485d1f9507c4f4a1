ghost use Rattle.std.specs.Prelude.{◌≡◌};
ghost use Rattle.model.specs.Layers.{Carried};
ghost use Rattle.model.specs.Models.{sure};

use crate::model::Model;
use ground::code::Code;
use system::fault::{ClassFault, SystemFault};
use system::layer_fault::LayerFault;
use system::system::System;

// An example of a fault that is carried from below whole: a demand that passes on what the model refuses.
pub fn demand_below(model: &mut Model, class: u8, code: Code) -> Result<(), LayerFault<SystemFault>>
    requires { sure model.old }
    ensures { Carried model.old class code.0 result model.new }
{
    if class > 3 {
        return Err(LayerFault::Own(ClassFault::Unknown));
    }
    model.demand(class, code)?;
    Ok(())
}
