ghost use Rattle.std.specs.Prelude.{◌≡◌, ℕ, ◌+◌, ◌≤◌};
ghost use Rattle.system.specs.Meaning.{Kind, Meaning, Sound, Known};
ghost use Rattle.system.specs.Requests.{Request, Reply};
ghost use Rattle.system.specs.Follows.{Follows};
ghost use Rattle.system.specs.Replies.{kind_of, coded, plain, marked, taken, Returned, Looked, Looks, Tallied};

use crate::tally::Tally;
use crate::unspent::Unspent;
use crate::view::View;
use ground::code::Code;
use ground::head::Head;
use ground::refusal::Refusal;
use ground::sort::{Labels, Sort};

// A constraint system: codes for ground values, and what is said of them. What it means is a `Meaning`; each call ensures what it makes of that.
pub trait System: Sized {
    // How many heads it knows, five or ten, and how many classes, none or four.
    const HEADS: u8;

    const CLASSES: u8;

    type Fault: Refusal + Drop;

    // An open mark. Not `Drop`: each way out hands it to `keep` or to `back`, once.
    type Mark;

    ghost HEADS: { ℕ };

    ghost CLASSES: { ℕ };

    // How many marks were open when it was made.
    ghost depth: { Self.Mark → ℕ };

    // What holds between calls. Each call says so itself, since a ghost field cannot speak of what an implementation means.
    ghost ok: { Self → Type 0 };

    ghost meaning: { Self → Meaning };

    // In this state this request was answered so, and led to that state. Code over any system has such a fact only by asking.
    ghost asked: { Self → Request → Reply → Self → Type 0 };

    // How many heads can follow one another from a code: it counts each head that `look` answers, and falls to the children.
    ghost rank: { Self → ℕ → ℕ };

    // Classes and labels are asked for by number, since a number that none has is to be refused too.
    fn fresh(&mut self, sort: Sort) -> Result<Code, Self::Fault>
        requires { ok self.old }
        ensures fine { ok self.new }
        ensures answered { asked self.old (Request.fresh sort) (coded Self.Fault.number Self.Fault.layer result) self.new };

    fn build(
        &mut self,
        head: Head,
        first: Code,
        second: Code,
        label: u8,
        lacked: Labels,
    ) -> Result<Code, Self::Fault>
        requires { ok self.old }
        ensures fine { ok self.new }
        ensures answered { asked self.old (Request.build head first.0 second.0 label lacked) (coded Self.Fault.number Self.Fault.layer result) self.new };

    fn equate(&mut self, a: Code, b: Code) -> Result<(), Self::Fault>
        requires { ok self.old }
        ensures fine { ok self.new }
        ensures answered { asked self.old (Request.equate a.0 b.0) (plain Self.Fault.number Self.Fault.layer result) self.new };

    fn demand(&mut self, class: u8, code: Code) -> Result<(), Self::Fault>
        requires { ok self.old }
        ensures fine { ok self.new }
        ensures answered { asked self.old (Request.demand class code.0) (plain Self.Fault.number Self.Fault.layer result) self.new };

    fn look(&self, code: Code) -> Result<View, Self::Fault>
        requires { ok self.now }
        ensures { Looked Self.Fault.number Self.Fault.layer (rank self.now) (meaning self.now) code.0 result };

    fn tally(&self) -> Tally
        requires { ok self.now }
        ensures { Tallied (meaning self.now) result };

    fn mark(&mut self) -> Result<Self::Mark, Self::Fault>
        requires { ok self.old }
        ensures fine { ok self.new }
        ensures answered { asked self.old Request.mark (marked depth Self.Fault.number Self.Fault.layer result) self.new };

    fn keep(&mut self, mark: Self::Mark) -> Result<(), Unspent<Self::Mark, Self::Fault>>
        requires { ok self.old }
        ensures fine { ok self.new }
        ensures answered { asked self.old (Request.keep (depth mark)) (taken Self.Fault.number Self.Fault.layer result) self.new }
        ensures returned { Returned mark result };

    fn back(&mut self, mark: Self::Mark) -> Result<(), Unspent<Self::Mark, Self::Fault>>
        requires { ok self.old }
        ensures fine { ok self.new }
        ensures answered { asked self.old (Request.back (depth mark)) (taken Self.Fault.number Self.Fault.layer result) self.new }
        ensures returned { Returned mark result };

    // What was asked and answered kept to the meaning, and left a state that holds what holds between calls.
    ghost told: { (s t : Self) (q : Request) (r : Reply) → asked s q r t → Follows (kind_of HEADS CLASSES) (meaning s) q r (meaning t) };

    ghost fine: { (s t : Self) (q : Request) (r : Reply) → asked s q r t → ok t };

    ghost sound: { (s : Self) → ok s → Sound (kind_of HEADS CLASSES) (meaning s) };

    // Whatever is known can be looked at.
    ghost looked: { (s : Self) (c : ℕ) → ok s → Known (meaning s).state c → Looks (rank s) (meaning s) c };

    // A chain of heads, each from a child of the one before, has at most one more than the capacity.
    ghost shallow: { (s : Self) (c : ℕ) → ok s → rank s c ≤ (meaning s).capacity + 1 };
}
