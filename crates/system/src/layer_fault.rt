ghost use Rattle.std.specs.Prelude.{◌≡◌};
ghost use Rattle.system.specs.Faults.{layer_number, layer_layer, layer_words};
ghost use Rattle.system.specs.declared.layer_fault.LayerFault.TheVariants.{Below};

use crate::fault::ClassFault;
use ground::refusal::Refusal;
use std::fmt;

// What a layer refuses: a fault of the system below, carried whole, or one of its own.
#[derive(Clone, Copy, Drop)]
pub enum LayerFault<F> {
    Below(F),
    Own(ClassFault),
}

impl<F> From<F> for LayerFault<F> {
    ghost from_gives = { λ x y. y ≡ Below x };

    fn from(fault: F) -> LayerFault<F> {
        LayerFault::Below(fault)
    }
}

impl<F: Refusal> Refusal for LayerFault<F> {
    ghost number = { layer_number F.Refusal.number };

    ghost layer = { layer_layer F.Refusal.layer };

    fn number(&self) -> u8 {
        match self {
            LayerFault::Below(fault) => fault.number(),
            LayerFault::Own(fault) => fault.number(),
        }
    }

    // The layer that found it, however far it has come.
    fn layer(&self) -> u8 {
        match self {
            LayerFault::Below(fault) => fault.layer(),
            LayerFault::Own(fault) => fault.layer(),
        }
    }
}

impl<F: fmt::Display> fmt::Display for LayerFault<F> {
    ghost output = { layer_words F.output };

    fn fmt<W: fmt::Write>(&self, f: &mut fmt::Formatter<W>) -> fmt::Result {
        match self {
            LayerFault::Below(fault) => fault.fmt(f),
            LayerFault::Own(fault) => fault.fmt(f),
        }
    }
}
