// The session: what is due to its calls.
#![tactic(auto)]

ghost use Rattle.session.specs.Statements.{ReadFormsAreProper};

// There is no answer; the contract is the statement.
pub fn read_forms()
    ensures { ReadFormsAreProper }
{}
