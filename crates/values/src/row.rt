// The fields that a row shows.
use crate::kind::Kind;
use crate::name::Unsolved;
use ground::code::Code;
use ground::head::Head;
use system::system::System;
use system::view::View;

#[derive(Clone, Copy)]
pub(crate) struct Fields {
    // By label.
    pub(crate) at: [Option<Code>; 24],
    // The open row behind them, if there is one.
    pub(crate) tail: Option<Unsolved>,
}

// A row shows each label at most once, so it has at most 24 fields.
pub(crate) fn fields_of<S: System>(system: &S, row: Code) -> Fields
    requires { S.System.ok system.now }
{
    let mut fields = Fields {
        at: [None; 24],
        tail: None,
    };
    let mut rest = row;
    for _ in 0..25 {
        match system.look(rest) {
            Ok(View::Open(code, classes)) => {
                fields.tail = Some(Unsolved {
                    code,
                    kind: Kind::Row,
                    classes,
                });
                break;
            }
            Ok(
                View::Built {
                    head: Head::Row,
                    first,
                    second,
                    label,
                },
            ) => {
                if let Some(field) = fields.at.get_mut(label as usize) {
                    *field = Some(first);
                }
                rest = second;
            }
            _ => break,
        }
    }
    fields
}

pub(crate) fn is_absent<S: System>(system: &S, field: Code) -> bool
    requires { S.System.ok system.now }
{
    matches!(
        system.look(field),
        Ok(View::Built {
            head: Head::Absent,
            ..
        },)
    )
}
