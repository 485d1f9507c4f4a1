// The worked cases: what the reader makes of each script, which types belong to it, which types the built-in names have, and what the typing of
// each script comes to.
#![tactic(auto)]

ghost use Rattle.std.specs.Prelude.{◌≡◌};
ghost use Rattle.cases.specs.Cases.{WorkedCases};
ghost use Rattle.cases.specs.Outcomes.{WorkedRuns};

use system::system::System;

// There is no answer; the contract is the statement.
pub fn worked_cases()
    ensures { WorkedCases }
{}

// The same of every system with four classes: where a refused case stops, and which types the code of an accepted one has.
pub fn worked_runs<S: System>(_system: &S)
    ensures { S.System.CLASSES ≡ 4 → WorkedRuns S.System.ok S.System.meaning S.System.asked S.System.rank }
{}
