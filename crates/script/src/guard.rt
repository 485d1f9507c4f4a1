ghost use Rattle.std.specs.Prelude.{◌≡◌, take};

use crate::scope::Scope;

// Takes the names bound since off again, however the reading of a body ends.
pub struct Guard<'a> {
    pub scope: &'a mut Scope,
    pub keep: usize,
}

impl Drop for Guard<'_> {
    fn drop(self)
        ensures { self.exit.0.now.items ≡ take self.entry.keep self.entry.scope.now.items }
    {
        let keep = self.keep;
        self.scope.truncate(keep);
        let Guard { scope: _, keep: _ } = self;
    }
}
