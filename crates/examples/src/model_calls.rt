use ground::code::Code;
use ground::head::Head;
use ground::refusal::Refusal;
use ground::sort::{Labels, Sort};
use model::model::Model;
use std::test::Fail;
use system::fault::SystemFault;
use system::system::System;

const NONE: Labels = Labels(0);

fn number_of(answer: Result<(), SystemFault>) -> u8 {
    answer.map_or_else(|fault| fault.number(), |()| 0)
}

// A function type equated with its own argument, and a whole number with a flag.
#[test]
fn occurs_check_and_clash(rt: HostRuntime) -> Result<(), Fail> {
    let mut system = Model::new(rt.alloc(), 16)?;
    let a = system.fresh(Sort::Type)?;
    let f = system.build(Head::To, a, a, 0, NONE)?;
    assert_eq!(rt; number_of(system.equate(a, f)), 13);
    let w = system.build(Head::Whole, a, a, 0, NONE)?;
    let g = system.build(Head::Flag, a, a, 0, NONE)?;
    assert_eq!(rt; number_of(system.equate(w, g)), 12);
    assert_eq!(rt; number_of(system.equate(a, g)), 0);
    assert_eq!(rt; number_of(system.equate(a, w)), 12);
    assert_eq!(rt; number_of(system.equate(a, Code(99))), 21);
    assert_eq!(rt; system.tally().calls, 4);
    Ok(())
}
