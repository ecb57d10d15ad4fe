//! Files of cases: texts, and what is read of them.
use app_case_files::{Case, Fault, read_cases};
use std::alloc::Global;
use std::test::Fail;

/// What is wrong with a text.
static FAULTS: [(&str, Fault); 8] = [
    ("", Fault::NoCase),
    ("\n# == one\n", Fault::NoCase),
    ("world ip 1500\n== one\n", Fault::NoName(1)),
    ("# a comment\n\n==\n", Fault::NoName(3)),
    (" == one\n", Fault::NoName(1)),
    ("== one\r\n", Fault::CarriageReturn(1)),
    ("== one\nstart\n\r\n", Fault::CarriageReturn(3)),
    ("== one\nstart\r", Fault::CarriageReturn(2)),
];

fn fault_in(alloc: Global, text: &str) -> Result<Option<Fault>, Fail> {
    Ok(read_cases(alloc, &mut text.as_bytes())?.err())
}

#[test]
fn faults_have_their_lines(rt: HostRuntime) -> Result<(), Fail> {
    for (text, fault) in &FAULTS {
        assert!(rt; fault_in(rt.alloc(), text)? == Some(*fault), "{text}");
    }
    Ok(())
}

const TWO: &str = "# of two\n\n== one \nstart\n#\n\n =\nworld\n== \n== one\nend";

fn is_case(case: Option<&Case>, name: &str, text: &str) -> bool {
    match case {
        Some(case) => {
            case.name.as_slice() == name.as_bytes() && case.text.as_slice() == text.as_bytes()
        }
        None => false,
    }
}

#[test]
fn cases_have_their_lines(rt: HostRuntime) -> Result<(), Fail> {
    let file = read_cases(rt.alloc(), &mut TWO.as_bytes())?.map_err(|_| "a fault")?;
    let cases = file.cases;
    assert!(rt; cases.len() == 3);
    assert!(rt; is_case(cases.get(0), "one ", "start\n =\nworld\n"));
    assert!(rt; is_case(cases.get(1), "", ""));
    assert!(rt; is_case(cases.get(2), "one", "end\n"));
    Ok(())
}
