// Typing a form over any constraint system: what is shown of it.
#![tactic(auto)]

ghost use Rattle.std.specs.Prelude.{[], pos, Ok, Err};
ghost use Rattle.ground.specs.Forms.{number as a_number};
ghost use Rattle.system.specs.Replies.{kind_of};
ghost use Rattle.engine.specs.Runs.{Done, Refused};
ghost use Rattle.engine.specs.Statements.{TypingStands};

use ground::code::Code;
use ground::head::Head;
use ground::place::Place;
use ground::sort::Labels;
use system::system::System;

// There is no answer; the contract is the statement.
pub fn typing_stands<S: System>(_system: &S)
    ensures { TypingStands (kind_of S.System.HEADS S.System.CLASSES) S.System.ok S.System.meaning S.System.asked S.System.rank }
{}

// A number, typed: the smallest form, to see that the statement serves a program.
pub fn type_number<S: System>(system: &mut S, place: Place) -> Result<Code, S::Fault>
    requires { S.System.ok system.old }
    ensures { elim result [ Ok c ↦ Done (S.System.meaning system.old) [] (a_number place (pos 0)) (S.System.meaning system.new) c.0 | Err e ↦ Refused (S.System.meaning system.old) [] (a_number place (pos 0)) (S.Fault.number e) ] }
{
    system.build(Head::Whole, Code(0), Code(0), 0, Labels(0))
}
