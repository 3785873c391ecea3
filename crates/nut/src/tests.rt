// What `nut check` tells of small files.
use crate::check::report_on;
use std::process::Abort;
use std::test::Fail;

fn tells(rt: &(impl Abort + AllocGlobal), file: &[u8], expected: &str) -> Result<(), Fail> {
    let report = report_on(rt.alloc(), "f", file)?;
    assert!(rt; report.text() == expected, "another report");
    Ok(())
}

#[test]
fn files_without_definitions(rt: HostRuntime) -> Result<(), Fail> {
    tells(&rt, b"", "f: no definitions\n")?;
    tells(&rt, b" ; nothing yet\n", "f: no definitions\n")
}

#[test]
fn accepted_definitions(rt: HostRuntime) -> Result<(), Fail> {
    tells(
        &rt,
        b"(let n)\n(enum 1 red green)\n\n(def f (x) ()\n x) ; end",
        "f:1: ok let n\nf:2: ok enum red green\nf:4: ok def f\nf: 3 ok, 0 refused\n",
    )
}

#[test]
fn refused_definitions(rt: HostRuntime) -> Result<(), Fail> {
    tells(
        &rt,
        b"(let 1) x\n(let a)",
        "f:1:1: refused with 7 (pass 4): this form or list fits no shape
    (let 1) x
    ^
    a global is (let name)
f:1:9: refused with 5 (pass 3): this belongs to no form
    (let 1) x
            ^
f:2: ok let a
f: 1 ok, 2 refused
",
    )
}

#[test]
fn unclosed_form(rt: HostRuntime) -> Result<(), Fail> {
    tells(
        &rt,
        b"\n(def\tf (\x80)",
        "f:2:9: refused with 2 (pass 2): this byte may not stand in a text, not even in a comment
    (def\tf (?)
        \t   ^
f: 0 ok, 1 refused
",
    )?;
    tells(
        &rt,
        b"\n(def f\n (",
        "f:3:3: refused with 5 (pass 3): the text ends here, before its form is closed
     (
      ^
    the form begins on line 2
f: 0 ok, 1 refused
",
    )
}
