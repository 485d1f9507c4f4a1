ghost use Rattle.std.specs.Prelude.{◌≡◌, [], Ok as Fine};
ghost use Rattle.classes.specs.Following.{Followed};
ghost use Rattle.classes.specs.Layered.{Followables, Met};

use crate::follow::followed;
use crate::layer::Layer;
use system::system::System;

impl<S: System> Layer<S> {
    // Which of equal open codes stands for the others is for the system below to choose, with each code that it makes: the entries go to those that stand now.
    pub(crate) fn refollow(&mut self)
        requires ok { S.System.ok self.old.below }
        requires entries { Followables (S.System.meaning self.old.below).state self.old.table }
        requires met { Met (S.System.meaning self.old.below) self.old.table }
        ensures below { self.new.below ≡ self.old.below }
        ensures saved { self.new.saved ≡ self.old.saved }
        ensures table { Followed (S.System.meaning self.old.below) self.old.table [] (Fine self.new.table) }
    {
        if self.table.is_empty() {
            return;
        }
        self.table = followed(&self.below, &self.table).unwrap();
    }
}
