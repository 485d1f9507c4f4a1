use grammar::read_script;
use ground::name::Name;
use script::reader::Reader;
use script::source::Source;
use std::alloc::Global;
use std::process::Abort;
use std::test::Fail;
use words::sheet::Sheet;

// A script with the number, start and length of its refusal; number 0 where it is accepted, with the number of its forms as the length.
type Case<'a> = (&'a [u8], u8, usize, usize);

fn each(
    rt: &impl Abort,
    heap: Global,
    cases: &[Case],
    records: bool,
    classes: bool,
) -> Result<(), Fail> {
    let sheet = Sheet::read(heap, b"blade tilt winch")?;
    let mut reader = Reader::new(heap)?;
    let defined: [Name; 0] = [];
    for case in cases {
        let source = Source {
            text: case.0,
            records,
            classes,
            sheet: &sheet,
            defined: &defined,
        };
        let told = match read_script(&mut reader, &source) {
            Ok(_) => (0, 0, reader.nodes().len()),
            Err(fault) => (fault.reason.number(), fault.place.start, fault.place.length),
        };
        assert_eq!(rt; told.0, case.1);
        assert_eq!(rt; told.1, case.2);
        assert_eq!(rt; told.2, case.3);
    }
    Ok(())
}

#[test]
fn scripts_with_records_and_classes(rt: HostRuntime) -> Result<(), Fail> {
    let cases: [Case; 12] = [
        (b"(fun f (call f f))", 0, 0, 4),
        (
            b"(fun f (let g f (if (call g yes) (call g 1) 2)))",
            0,
            0,
            11,
        ),
        (b"(fun p (call (call add p) p))", 0, 0, 6),
        (
            b"(fun p (if (call (call less p) p) (call hold p) p))",
            0,
            0,
            11,
        ),
        (b"(call (call equal nil) nil)", 0, 0, 5),
        (b"32767", 0, 0, 1),
        (b"32768", 7, 0, 5),
        (b"(get (record) hook)", 9, 14, 4),
        (b"(let x x x)", 10, 7, 1),
        (b"(fun fun 1)", 5, 5, 3),
        (b"   ", 5, 3, 0),
        (b"1 2", 5, 2, 1),
    ];
    each(&rt, rt.alloc(), &cases, true, true)
}

#[test]
fn scripts_without_either(rt: HostRuntime) -> Result<(), Fail> {
    let cases: [Case; 6] = [
        (b"(record)", 11, 1, 6),
        (b"(with 1 blade 2)", 11, 1, 4),
        (b"add", 10, 0, 3),
        (b"(call not yes)", 0, 0, 3),
        (b"(fun add add)", 0, 0, 2),
        (b"\x01", 4, 0, 1),
    ];
    each(&rt, rt.alloc(), &cases, false, false)
}
