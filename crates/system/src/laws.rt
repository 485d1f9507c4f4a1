ghost use Rattle.std.specs.Prelude.{◌≡◌};
ghost use Rattle.system.specs.Runs.{BackUndoes, AnswersAgree};

use crate::system::System;

// Of every system: whatever is asked between a mark and its back, back leaves what was meant when the mark was made. There is no answer; the contract
// is the law.
pub fn back_undoes<S: System>(_system: &S)
    ensures { BackUndoes S.System.meaning S.System.asked }
{}

// Of any two systems of one kind: where they mean alike, they answer a request alike, but for what is free. There is no answer; the contract is the law.
pub fn answers_agree<S: System, T: System>(_one: &S, _other: &T)
    ensures { S.System.HEADS ≡ T.System.HEADS → S.System.CLASSES ≡ T.System.CLASSES → AnswersAgree S.System.ok S.System.meaning S.System.asked T.System.ok T.System.meaning T.System.asked }
{}
