ghost use Rattle.std.specs.Prelude.{◌≡◌};
ghost use Rattle.unifier.specs.declared.misfit.Misfit.TheVariants.{Full};
ghost use Rattle.unifier.specs.Misfits.{misfit_fault};

use system::fault::SystemFault;

// Why pairs cannot be made equal: two heads differ, or cells do not suffice.
#[derive(Clone, Copy, PartialEq, Eq, Debug)]
pub enum Misfit {
    Clash,
    Full,
}

// Two cells are not left for an extension.
#[derive(Clone, Copy, PartialEq, Eq, Debug)]
pub struct NoRoom;

impl From<NoRoom> for Misfit {
    ghost from_gives = { λ x m. m ≡ Full };

    fn from(_: NoRoom) -> Misfit {
        Misfit::Full
    }
}

impl From<Misfit> for SystemFault {
    ghost from_gives = { λ m f. f ≡ misfit_fault m };

    fn from(misfit: Misfit) -> SystemFault {
        match misfit {
            Misfit::Clash => SystemFault::Clash,
            Misfit::Full => SystemFault::NoCells,
        }
    }
}
