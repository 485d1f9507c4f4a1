ghost use Rattle.std.specs.Prelude.{◌≡◌};

// The mark that was not taken, and why.
pub struct Unspent<M, F> {
    pub mark: M,
    pub fault: F,
}

impl<M, F> Unspent<M, F> {
    // The mark with the fault that this one becomes.
    pub fn map_fault<G: From<F>>(self) -> Unspent<M, G>
        ensures mark { result.mark ≡ self.mark }
        ensures fault { G.from_gives self.fault result.fault }
    {
        let Unspent { mark, fault } = self;
        Unspent {
            mark,
            fault: G::from(fault),
        }
    }
}
