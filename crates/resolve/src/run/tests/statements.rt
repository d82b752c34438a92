//! The rows of the grammar, as whole inputs.

use super::{expect_answer, expect_run, run};
use std::alloc::Global;
use std::process::Abort;
use std::test::Fail;

/// Asserts that the second line of an input is bad, where the first one is `package a=1`.
fn expect_bad(rt: &impl Abort, alloc: Global, line: &[u8]) -> Result<(), Fail> {
    let mut input = vec![in alloc; 0u8; 0]?;
    input.extend_from_slice(b"package a=1\n")?;
    input.extend_from_slice(line)?;
    let mut written = Vec::new(alloc);
    let mut complaints = Vec::new(alloc);
    let ended = run(alloc, input.as_slice(), &mut written, &mut complaints);
    assert_eq!(rt; (ended, written.len()), (2, 0), "at {line:?}");
    assert_eq!(rt;
        complaints.as_slice(),
        b"resolve: line 2: bad statement\n".as_slice(),
        "at {line:?}"
    );
    Ok(())
}

#[test]
fn lines_without_a_statement(rt: HostRuntime) {
    let input =
        b"\n \n     \n#\n# note\n   # package a=1\n#package\n#\t\xc3\xa9\n #\xff\xfe\npackage a=1\nrequire a\n";
    let mut written = Vec::new(rt.alloc());
    let mut complaints = Vec::new(rt.alloc());
    assert_eq!(rt;
        run(rt.alloc(), input.as_slice(), &mut written, &mut complaints),
        0
    );
    assert_eq!(rt; written.as_slice(), b"a=1\n".as_slice());
    assert!(rt; complaints.is_empty());
}

#[test]
fn words_and_spaces(rt: HostRuntime) {
    for (input, output) in [
        ("   package    a=1   \n  require  a   ", "a=1\n"),
        (
            "package a=1\npackage b=2\nrequire a | b@2   |  c@0..9 \n",
            "a=1\n",
        ),
        (
            "package Az0_9-.if=4294967295\nsoft Az0_9-.if=4294967295",
            "Az0_9-.if=4294967295\n",
        ),
        ("package ..=0\nsoft ..=0", "..=0\n"),
        ("package IF=1\nconstrain IF\nrequire IF@1\n", "IF=1\n"),
        (
            "package a=1\npackage a=4294967295\nsoft a\n",
            "a=4294967295\n",
        ),
        (
            "package a=1\npackage a=2\nconstrain a@1\nrequire a\n",
            "a=1\n",
        ),
        (
            "package a=1\npackage a=2\nconstrain a@0..2\nrequire a\n",
            "a=1\n",
        ),
        (
            "package a=4294967295\nconstrain a@4294967295\nrequire a@0..4294967296\n",
            "a=4294967295\n",
        ),
        (
            "package a=1\npackage b=2\npackage b=3\nconstrains a=1  b@2\nrequire a\nsoft b\n",
            "a=1\nb=2\n",
        ),
        (
            "package a=1\npackage b=1\nrequire a | a if b@5..3\nsoft b\n",
            "b=1\n",
        ),
        (
            "package a=1\npackage b=1\nrequire a if b@3..3 or b@4294967296..0\nsoft b\n",
            "b=1\n",
        ),
    ] {
        expect_answer(&rt, rt.alloc(), input, output);
    }
}

#[test]
fn the_last_line_may_lack_a_line_feed(rt: HostRuntime) {
    let first = "resolve: line 1: bad statement\n";
    expect_run(&rt, rt.alloc(), "require", "", first, 2);
    expect_answer(&rt, rt.alloc(), "package a=1\nrequire a", "a=1\n");
}

#[test]
fn reasons(rt: HostRuntime) -> Result<(), Fail> {
    for (line, reason) in [
        ("unknown a=1 no data", "no data"),
        ("unknown a=1    two  spaces   ", "two  spaces"),
        ("  unknown   a=1 #", "#"),
        ("unknown a=1 |", "|"),
        ("unknown a=1 \t", "\t"),
        ("unknown a=1 caf\u{e9} \u{a0}", "caf\u{e9} \u{a0}"),
        ("unknown a=1 a=1 if b", "a=1 if b"),
    ] {
        let alloc = rt.alloc();
        let input = format!(in alloc; "package a=1\n{line}\nrequire a\n")?;
        let output = format!(in alloc;
            "The following packages are incompatible\n└─ a * cannot be installed because there are no viable options:\n   └─ a 1 is excluded because {reason}\n"
        )?;
        expect_run(&rt, alloc, input.as_str(), output.as_str(), "", 1);
    }
    Ok(())
}

/// Whether `a` is chosen where it is required under a condition, beside each of some packages.
#[test]
fn conditions(rt: HostRuntime) -> Result<(), Fail> {
    for (condition, chosen, holds) in [
        ("b", "b", true),
        ("b", "c", false),
        ("( b )", "b", true),
        ("( ( ( b ) ) )", "c", false),
        ("b or c and d", "b", true),
        ("b or c and d", "c", false),
        ("b or c and d", "cd", true),
        ("b and c or d", "d", true),
        ("b and c or d", "b", false),
        ("b or c or d", "d", true),
        ("b and c and d", "bc", false),
        ("b and c and d", "bcd", true),
        ("( b or c ) and d", "b", false),
        ("( b or c ) and d", "cd", true),
        ("b and ( c or d )", "bd", true),
        ("b and ( c or d )", "cd", false),
        ("b and c or d and e", "de", true),
        ("b and c or d and e", "bd", false),
        ("b or c and d or e", "e", true),
        ("b or c and d or e", "d", false),
        ("( b and c or d ) and ( e )", "d", false),
        ("( b and c or d ) and ( e )", "de", true),
        ("b or c and ( d or e )", "ce", true),
        ("b or c and ( d or e )", "de", false),
    ] {
        let holding = holds_beside(&rt, rt.alloc(), condition, chosen)?;
        assert_eq!(rt; holding, holds, "at {condition:?} beside {chosen:?}");
    }
    Ok(())
}

/// Returns whether a condition makes a requirement of `a` hold, where these packages of one letter are required.
fn holds_beside(
    rt: &impl Abort,
    alloc: Global,
    condition: &str,
    chosen: &str,
) -> Result<bool, Fail> {
    let mut input = format!(in alloc;
        "package a=1\npackage b=1\npackage c=1\npackage d=1\npackage e=1\nrequire a if {condition}\n"
    )?;
    for name in chosen.chars() {
        let line = format!(in alloc; "require {name}\n")?;
        input.push_str(line.as_str())?;
    }
    let mut written = Vec::new(alloc);
    let mut complaints = Vec::new(alloc);
    assert_eq!(rt;
        run(alloc, input.as_bytes(), &mut written, &mut complaints),
        0
    );
    Ok(written.first() == Some(&b'a'))
}

#[test]
fn bad_words(rt: HostRuntime) -> Result<(), Fail> {
    for line in [
        "package a=4294967296",
        "package a=18446744073709551617",
        "package a=01",
        "package a=00",
        "package a=",
        "package =1",
        "package a",
        "package a=1=1",
        "package a=+1",
        "package a=-1",
        "package a=1x",
        "package a@1",
        "package a = 1",
        "package if=1",
        "package and=1",
        "package or=1",
        "package a/b=1",
        "package caf\u{e9}=1",
        "package a=1\t",
        "package\ta=1",
        "\tpackage a=1",
        "package a=1\r",
        "package a=1 # note",
        "constrain a@",
        "constrain @1",
        "constrain a@01",
        "constrain a@4294967296",
        "constrain a@0..4294967297",
        "constrain a@4294967297..0",
        "constrain a@01..2",
        "constrain a@1..02",
        "constrain a@1..",
        "constrain a@..2",
        "constrain a@..",
        "constrain a@1...2",
        "constrain a@1..2..3",
        "constrain a@1.2",
        "constrain a@1@2",
        "constrain if",
        "constrain and",
        "constrain or",
        "constrain if@1",
        "constrain a=1",
        "constrain a@1 ..2",
        "constrain *",
        "constrain a,b",
        "constrain ()",
    ] {
        expect_bad(&rt, rt.alloc(), line.as_bytes())?;
    }
    Ok(())
}

#[test]
fn bad_forms(rt: HostRuntime) -> Result<(), Fail> {
    for line in [
        "package",
        "package a=1 a=2",
        "Package a=1",
        "packages a=1",
        "nothing",
        "a=1",
        "|",
        "package#",
        "favor",
        "favor a",
        "favor a=1 x",
        "lock",
        "lock a=1 b=1",
        "soft",
        "soft a b",
        "soft a | b",
        "soft a=1 b=1",
        "soft a=1 b",
        "constrain",
        "constrain a b",
        "constrain a | b",
        "constrain a if b",
        "constrains",
        "constrains a=1",
        "constrains a b",
        "constrains a=1 b c",
        "unknown",
        "unknown a=1",
        "unknown a=1   ",
        "unknown a no data",
        "exclude a=1",
        "exclude a=1 ",
        "exclude",
        "require",
        "requires",
        "requires a=1",
        "requires a b",
        "requires a=1 if b",
        "require |",
        "require a |",
        "require | a",
        "require a | | b",
        "require a b",
        "require a|b",
        "require a| b",
        "require a |b",
        "require a | b |",
        "require a | if b",
        "require if b",
        "require a=1",
        "require ( a )",
    ] {
        expect_bad(&rt, rt.alloc(), line.as_bytes())?;
    }
    Ok(())
}

#[test]
fn bad_conditions(rt: HostRuntime) -> Result<(), Fail> {
    for line in [
        "require a if",
        "require a if b and",
        "require a if b or",
        "require a if and b",
        "require a if or",
        "require a if b and and c",
        "require a if b or and c",
        "require a if ( b",
        "require a if b )",
        "require a if ( b ) )",
        "require a if ( ( b )",
        "require a if (",
        "require a if )",
        "require a if ( )",
        "require a if ( ) b",
        "require a if (b)",
        "require a if ( b)",
        "require a if (b )",
        "require a if b c",
        "require a if b ( c )",
        "require a if ( b ) c",
        "require a if ( b ) ( c )",
        "require a if ( b and ) c",
        "require a if ( and b )",
        "require a if b | c",
        "require a if b if c",
        "require a if if",
        "require a if b AND c",
        "require a if b=1",
        "require a if ) b (",
        "require a if b and ( or c )",
        "requires a=1 b if c or",
    ] {
        expect_bad(&rt, rt.alloc(), line.as_bytes())?;
    }
    Ok(())
}

#[test]
fn bad_bytes(rt: HostRuntime) -> Result<(), Fail> {
    for line in [
        b"package \xff=1".as_slice(),
        b"\xffpackage a=1",
        b"package a=1 \xff",
        b"unknown a=1 caf\xe9",
        b"exclude a=1 \xc3",
        b"constrain a@\x00",
        b"require a\x00",
        b"require a | \xf0",
        b"require a if \xf0",
        b"require a if b \x0b and c",
    ] {
        expect_bad(&rt, rt.alloc(), line)?;
    }
    Ok(())
}

/// Returns a line: a front, a text this many times, a middle, and another text this many times.
fn line_of(
    alloc: Global,
    front: &str,
    text: (&str, usize),
    middle: &str,
    other: (&str, usize),
) -> Result<String, Fail> {
    let mut line = String::from_str(alloc, front)?;
    push_times(&mut line, text)?;
    line.push_str(middle)?;
    push_times(&mut line, other)?;
    Ok(line)
}

fn push_times(line: &mut String, text: (&str, usize)) -> Result<(), Fail> {
    for _ in 0..text.1 {
        line.push_str(text.0)?;
    }
    Ok(())
}

/// Returns the status of a run on one line.
fn status_of(alloc: Global, line: &str) -> u8 {
    let mut written = Vec::new(alloc);
    let mut complaints = Vec::new(alloc);
    run(alloc, line.as_bytes(), &mut written, &mut complaints)
}

#[test]
fn long_lines(rt: HostRuntime) -> Result<(), Fail> {
    let alloc = rt.alloc();
    for (open, closed, status) in [(2_000, 2_000, 0), (2_000, 1_999, 2), (1_999, 2_000, 2)] {
        let line = line_of(alloc, "require a if", (" (", open), " b", (" )", closed))?;
        assert_eq!(rt; status_of(alloc, line.as_str()), status);
    }
    let nested = line_of(
        alloc,
        "require a if b",
        (" and ( b or b", 1_000),
        "",
        (" )", 1_000),
    )?;
    assert_eq!(rt; status_of(alloc, nested.as_str()), 0);
    let union = line_of(alloc, "require b", (" | b", 2_000), "", ("", 0))?;
    assert_eq!(rt; status_of(alloc, union.as_str()), 1);
    let unended = line_of(alloc, "require b", (" | b", 2_000), " |", ("", 0))?;
    assert_eq!(rt; status_of(alloc, unended.as_str()), 2);
    Ok(())
}
