//! Whole inputs and their outcomes.

mod decisions;
mod examples;
mod failing;
mod known_words;
mod statements;
mod without_scores;

use super::{fault_text, run};
use resolver_clause_store::Exhausted;
use std::alloc::Global;
use std::io;
use std::io::{Read, Write};
use std::process::Abort;
use std::test::Fail;

/// Asserts the output, the errors and the status of the program.
fn expect_run(rt: &impl Abort, alloc: Global, input: &str, output: &str, errors: &str, status: u8) {
    let mut written = Vec::new(alloc);
    let mut complaints = Vec::new(alloc);
    let ended = run(alloc, input.as_bytes(), &mut written, &mut complaints);
    assert_eq!(rt; written.as_slice(), output.as_bytes());
    assert_eq!(rt; complaints.as_slice(), errors.as_bytes());
    assert_eq!(rt; ended, status);
}

fn expect_answer(rt: &impl Abort, alloc: Global, input: &str, output: &str) {
    expect_run(rt, alloc, input, output, "", 0);
}

/// Adds the statement of a version of z.
fn push_package(input: &mut String, version: u32) -> Result<(), Fail> {
    use std::fmt::Write;
    write!(input, "package z={version}\n")?;
    Ok(())
}

fn expect_conflict(rt: &impl Abort, alloc: Global, input: &str, message: &str) {
    expect_run(rt, alloc, input, message, "", 1);
}

#[test]
fn an_empty_input_asks_for_nothing(rt: HostRuntime) {
    expect_answer(&rt, rt.alloc(), "", "");
}

#[test]
fn two_packages_and_one_requirement(rt: HostRuntime) {
    let input =
        "package asdf=1\npackage efgh=4\npackage dummy=6\nrequires asdf=1 efgh\nrequire asdf\n";
    expect_answer(&rt, rt.alloc(), input, "asdf=1\nefgh=4\n");
}

#[test]
fn a_missing_nested_requirement_falls_back_to_the_older_version(rt: HostRuntime) {
    let input =
        "package asdf=4\npackage asdf=3\npackage b=1\nrequires asdf=4 b\nrequires b=1 idontexist\nrequire asdf\n";
    expect_answer(&rt, rt.alloc(), input, "asdf=3\n");
}

#[test]
fn versions_whose_nested_requirements_clash_are_passed_over(rt: HostRuntime) {
    let input =
        "package af=3\npackage af=2\npackage af=1\npackage api=3\npackage api=2\npackage api=1\npackage otlp=1\npackage grpc=1\nrequires af=3 api@2..4\nrequires af=3 otlp\nrequires af=2 api@2..4\nrequires af=2 otlp\nrequires api=3 sdk\nrequires otlp=1 grpc\nrequires grpc=1 api@1\nrequire af\n";
    expect_answer(&rt, rt.alloc(), input, "af=1\n");
}

#[test]
fn favored_versions_are_tried_first(rt: HostRuntime) {
    let packages =
        "package a=1\npackage a=2\npackage b=1\npackage b=2\npackage c=1\npackage c=2\nfavor a=1\nfavor b=1\nfavor c=1\nrequire a\nrequire b@2\n";
    expect_answer(&rt, rt.alloc(), packages, "a=1\nb=2\n");
}

#[test]
fn favored_versions_give_way_to_what_is_shared(rt: HostRuntime) {
    let input =
        "package a=1\npackage a=2\npackage b=1\npackage b=2\npackage c=1\npackage c=2\nrequires a=1 c@1\nrequires b=1 c@1\nrequires b=2 c@2\nfavor a=1\nfavor b=1\nfavor c=1\nrequire a\nrequire b@2\n";
    expect_answer(&rt, rt.alloc(), input, "a=2\nb=2\nc=2\n");
}

#[test]
fn a_union_a_condition_that_does_not_hold_and_an_exclusion(rt: HostRuntime) {
    let input =
        "package p=1\npackage c=1\npackage c=2\npackage d=1\nrequires p=1 c | d\nrequires p=1 x if c@2\nexclude c=1 old\nrequire p\n";
    expect_answer(&rt, rt.alloc(), input, "d=1\np=1\n");
}

#[test]
fn two_unions_and_a_constraint(rt: HostRuntime) {
    let input =
        "package a=1\npackage b=1\npackage c=1\npackage d=1\npackage e=1\npackage f=1\nrequires c=1 a\nrequires d=1 b\nrequires e=1 a | b\nrequires f=1 b\nconstrains f=1 a@2\nrequire c | d\nrequire e\nrequire f\n";
    expect_answer(&rt, rt.alloc(), input, "b=1\nd=1\ne=1\nf=1\n");
}

#[test]
fn a_constraint_on_its_own_package(rt: HostRuntime) {
    expect_conflict(
        &rt,
        rt.alloc(),
        "package a=1\nconstrains a=1 a@2..3\nrequire a@1\n",
        "The following packages are incompatible
└─ a >=1, <2 cannot be installed because there are no viable options:
   └─ a 1 would constrain
      └─ a >=2, <3, which conflicts with any installable versions previously reported
",
    );
}

/// Each version of a is reached by another requirement. The message is that of a search over the rules of the conflict,
/// which does not use that version 2 needs b, so it reports both versions together.
#[test]
fn what_a_search_over_the_conflict_leaves_out_is_not_told(rt: HostRuntime) {
    let input =
        "package a=1\npackage a=2\npackage b=1\npackage b=2\npackage c=1\npackage c=2\nrequires a=1 c@2\nrequires a=2 b@1\nrequires a=2 c@2\nconstrains b=1 c@2\nconstrains b=2 c@1\nrequires c=2 b@2\nrequire a\nrequire c\n";
    let message = "The following packages are incompatible
└─ a * cannot be installed because there are no viable options:
   └─ a 1 | 2 would require
      └─ c >=2, <3, which cannot be installed because there are no viable options:
         └─ c 2 would require
            └─ b >=2, <3, which cannot be installed because there are no viable options:
               └─ b 2 would constrain
                  └─ c >=1, <2, which conflicts with any installable versions previously reported
";
    expect_conflict(&rt, rt.alloc(), input, message);
}

#[test]
fn a_shared_requirement_takes_the_best_version_that_can_be(rt: HostRuntime) {
    let input =
        "package x=1\npackage y=1\npackage z=1\npackage z=2\npackage z=3\npackage z=4\npackage z=5\nrequires x=1 z\nrequires y=1 z\nrequires z=5 missing\nrequire x\nrequire y\n";
    expect_answer(&rt, rt.alloc(), input, "x=1\ny=1\nz=4\n");
}

#[test]
fn versions_that_two_packages_forbid_are_left_out(rt: HostRuntime) {
    let input =
        "package x=1\npackage y=1\npackage z=1\npackage z=2\npackage z=3\npackage z=4\npackage z=5\nconstrains x=1 z@9\nconstrains y=1 z@9\nrequire x\nrequire y\n";
    expect_answer(&rt, rt.alloc(), input, "x=1\ny=1\n");
}

#[test]
fn the_newest_of_two_hundred_versions(rt: HostRuntime) -> Result<(), Fail> {
    let mut input = String::new(rt.alloc());
    for version in 1..201u32 {
        push_package(&mut input, version)?;
    }
    input.push_str("require z\n")?;
    expect_answer(&rt, rt.alloc(), &input, "z=200\n");
    Ok(())
}

#[test]
fn a_shared_requirement_is_met_again_after_a_jump_back(rt: HostRuntime) {
    let input =
        "package x=1\npackage w=1\npackage w=2\npackage z=1\npackage z=2\npackage z=3\npackage z=4\nrequires x=1 z\nconstrains w=2 z@9\nrequire x\nrequire w\n";
    expect_answer(&rt, rt.alloc(), input, "w=1\nx=1\nz=4\n");
}

#[test]
fn a_requirement_and_a_constraint_that_leave_nothing(rt: HostRuntime) {
    let input =
        "package x=1\npackage w=2\npackage z=1\npackage z=2\npackage z=3\npackage z=4\nrequires x=1 z\nconstrains w=2 z@9\nrequire x\nrequire w\n";
    let message = "The following packages are incompatible
├─ x * can be installed with any of the following options:
│  └─ x 1 would require
│     └─ z *, which can be installed with any of the following options:
│        └─ z 1 | 2 | 3 | 4
└─ w * cannot be installed because there are no viable options:
   └─ w 2 would constrain
      └─ z >=9, <10, which conflicts with any installable versions previously reported
";
    expect_conflict(&rt, rt.alloc(), input, message);
}

/// p and q require different versions of r.
const CLASH: &str =
    "package p=1\npackage p=2\npackage q=1\npackage q=2\npackage r=1\npackage r=2\nrequires p=1 r@1\nrequires p=2 r@1\nrequires q=1 r@2\nrequires q=2 r@2\nrequire p\nrequire q\n";

/// The message of that conflict.
const CLASH_MESSAGE: &str = "The following packages are incompatible
├─ q * can be installed with any of the following options:
│  └─ q 1 | 2 would require
│     └─ r >=2, <3, which can be installed with any of the following options:
│        └─ r 2
└─ p * cannot be installed because there are no viable options:
   └─ p 1 | 2 would require
      └─ r >=1, <2, which cannot be installed because there are no viable options:
         └─ r 1, which conflicts with the versions reported above.
";

#[test]
fn two_requirers_that_need_different_versions(rt: HostRuntime) {
    expect_conflict(&rt, rt.alloc(), CLASH, CLASH_MESSAGE);
}

#[test]
fn locked_versions_are_the_only_ones(rt: HostRuntime) {
    let input = "package asdf=4\npackage asdf=3\nlock asdf=3\nrequire asdf\n";
    expect_answer(&rt, rt.alloc(), input, "asdf=3\n");
    let input =
        "package asdf=4\npackage asdf=3\npackage fgh=1\nrequires asdf=3 fgh\nlock fgh=1\nrequire asdf\n";
    expect_answer(&rt, rt.alloc(), input, "asdf=4\n");
}

#[test]
fn a_version_whose_dependencies_are_unknown_is_passed_over(rt: HostRuntime) {
    let input = "package api=3\npackage api=2\nunknown api=3 no data\nrequire api\n";
    expect_answer(&rt, rt.alloc(), input, "api=2\n");
}

#[test]
fn packages_may_need_each_other(rt: HostRuntime) {
    let input =
        "package a=2\npackage b=5\nrequires a=2 b@0..10\nrequires b=5 a@2..4\nrequire a@0..100\n";
    expect_answer(&rt, rt.alloc(), input, "a=2\nb=5\n");
    expect_answer(
        &rt,
        rt.alloc(),
        "package a=1\nrequires a=1 a\nrequire a\n",
        "a=1\n",
    );
}

#[test]
fn no_candidate_is_left(rt: HostRuntime) {
    let alloc = rt.alloc();
    expect_conflict(
        &rt,
        alloc,
        "require x\n",
        "No candidates were found for x *.\n",
    );
    let excluded = "package a=1\nexclude a=1 it is bad\nrequire a\n";
    let message = "The following packages are incompatible
└─ a * cannot be installed because there are no viable options:
   └─ a 1 is excluded because it is bad
";
    expect_conflict(&rt, alloc, excluded, message);
    let alike = "package a=1\npackage a=2\nrequires a=1 x\nrequires a=2 x\nrequire a\n";
    let message = "a * cannot be installed because there are no viable options:
└─ a 1 | 2 would require
   └─ x *, for which no candidates were found.
";
    expect_conflict(&rt, alloc, alike, message);
}

#[test]
fn a_cycle_with_a_missing_package(rt: HostRuntime) {
    let input =
        "package a=1\npackage b=1\nrequires a=1 b\nrequires b=1 a\nrequires b=1 missing\nrequire a\n";
    let message = "a * cannot be installed because there are no viable options:
└─ a 1 would require
   └─ b *, which cannot be installed because there are no viable options:
      └─ b 1 would require
         └─ missing *, for which no candidates were found.
";
    expect_conflict(&rt, rt.alloc(), input, message);
}

#[test]
fn a_lock_on_another_version(rt: HostRuntime) {
    let input = "package a=1\npackage a=2\nlock a=1\nrequire a@2..3\n";
    let message = "The following packages are incompatible
└─ a >=2, <3 can be installed with any of the following options:
   └─ a 2
└─ a 1 is locked, but another version is required as reported above
";
    expect_conflict(&rt, rt.alloc(), input, message);
}

#[test]
fn a_constraint_of_the_root(rt: HostRuntime) {
    let input = "package a=1\npackage b=1\nrequires a=1 b\nrequire a\nconstrain b@2..3\n";
    let message = "The following packages are incompatible
└─ a * can be installed with any of the following options:
   └─ a 1 would require
      └─ b *, which can be installed with any of the following options:
         └─ b 1
├─ the constraint b >=2, <3 cannot be fulfilled
";
    expect_conflict(&rt, rt.alloc(), input, message);
}

#[test]
fn two_versions_of_a_shared_dependency(rt: HostRuntime) {
    let input =
        "package bluesky-widgets=42\npackage suitcase-utils=53\npackage suitcase-utils=54\nrequires bluesky-widgets=42 suitcase-utils@0..54\nrequire bluesky-widgets@0..100\nrequire suitcase-utils@54..100\n";
    let message = "The following packages are incompatible
├─ bluesky-widgets >=0, <100 can be installed with any of the following options:
│  └─ bluesky-widgets 42 would require
│     └─ suitcase-utils >=0, <54, which can be installed with any of the following options:
│        └─ suitcase-utils 53
└─ suitcase-utils >=54, <100 cannot be installed because there are no viable options:
   └─ suitcase-utils 54, which conflicts with the versions reported above.
";
    expect_conflict(&rt, rt.alloc(), input, message);
}

#[test]
fn a_condition_that_holds_asks_for_its_requirement(rt: HostRuntime) {
    let packages = "package p=1\npackage c=1\npackage x=1\nrequires p=1 x if c or e\nrequire p\n";
    expect_answer(&rt, rt.alloc(), packages, "p=1\n");
    let with_c =
        "package p=1\npackage c=1\npackage x=1\nrequires p=1 x if c or e\nrequire p\nrequire c\n";
    expect_answer(&rt, rt.alloc(), with_c, "c=1\np=1\nx=1\n");
    let both =
        "package p=1\npackage c=1\npackage e=1\npackage x=1\nrequires p=1 x if c and ( e or c )\nrequire p\nrequire c\n";
    expect_answer(&rt, rt.alloc(), both, "c=1\np=1\nx=1\n");
}

#[test]
fn a_root_requirement_may_have_a_condition(rt: HostRuntime) {
    let input = "package a=1\npackage b=1\nrequire b if a\nrequire a\n";
    expect_answer(&rt, rt.alloc(), input, "a=1\nb=1\n");
    expect_answer(
        &rt,
        rt.alloc(),
        "package a=1\npackage b=1\nrequire b if a\n",
        "",
    );
}

#[test]
fn a_root_constraint_forbids_the_other_versions(rt: HostRuntime) {
    let input = "package a=1\npackage a=2\nconstrain a@1\nrequire a\n";
    expect_answer(&rt, rt.alloc(), input, "a=1\n");
}

#[test]
fn the_greatest_version(rt: HostRuntime) {
    expect_answer(
        &rt,
        rt.alloc(),
        "package a=4294967295\nrequire a@4294967295\n",
        "a=4294967295\n",
    );
}

#[test]
fn answers_stand_by_name_and_then_by_version(rt: HostRuntime) {
    let input = "package b=10\npackage a-b=2\npackage a=3\nrequire b\nrequire a\nrequire a-b\n";
    expect_answer(&rt, rt.alloc(), input, "a=3\na-b=2\nb=10\n");
}

#[test]
fn the_first_bad_statement_is_reported_with_its_line(rt: HostRuntime) {
    let first = "resolve: line 1: bad statement\n";
    expect_run(&rt, rt.alloc(), "package a=4294967296", "", first, 2);
    expect_run(&rt, rt.alloc(), "package a=01", "", first, 2);
    expect_run(&rt, rt.alloc(), "package a", "", first, 2);
    expect_run(&rt, rt.alloc(), "requires a=1 b", "", first, 2);
    expect_run(&rt, rt.alloc(), "require a |", "", first, 2);
    let fourth = "resolve: line 4: bad statement\n";
    expect_run(
        &rt,
        rt.alloc(),
        "# note\n\npackage a=1\npackage a=1\n",
        "",
        fourth,
        2,
    );
}

/// Checks that an input has this bad line.
fn expect_bad_line(rt: &impl Abort, alloc: Global, input: &str, told: &str) {
    expect_run(rt, alloc, input, "", told, 2);
}

#[test]
fn a_statement_may_not_stand_twice(rt: HostRuntime) {
    let third = "resolve: line 3: bad statement\n";
    expect_bad_line(
        &rt,
        rt.alloc(),
        "package a=1\nunknown a=1 x\nunknown a=1 x\n",
        third,
    );
    expect_bad_line(
        &rt,
        rt.alloc(),
        "package a=1\nexclude a=1 x\nexclude a=1 y\n",
        third,
    );
    expect_bad_line(
        &rt,
        rt.alloc(),
        "package a=1\nfavor a=1\nfavor a=1\n",
        third,
    );
    expect_bad_line(&rt, rt.alloc(), "package a=1\nlock a=1\nlock a=1\n", third);
    let fourth = "resolve: line 4: bad statement\n";
    expect_bad_line(
        &rt,
        rt.alloc(),
        "package a=1\npackage a=2\nlock a=1\nlock a=2\n",
        fourth,
    );
}

#[test]
fn what_was_not_declared_may_not_be_spoken_of(rt: HostRuntime) {
    let second = "resolve: line 2: bad statement\n";
    expect_run(
        &rt,
        rt.alloc(),
        "package a=1\nconstrains a=2 b\n",
        "",
        second,
        2,
    );
    expect_run(
        &rt,
        rt.alloc(),
        "package a=1\nunknown b=1 x\n",
        "",
        second,
        2,
    );
    expect_run(&rt, rt.alloc(), "package a=1\nfavor a=2\n", "", second, 2);
    expect_run(&rt, rt.alloc(), "package a=1\nlock b=1\n", "", second, 2);
    expect_run(
        &rt,
        rt.alloc(),
        "package a=1\nexclude a=2 x\n",
        "",
        second,
        2,
    );
    expect_run(&rt, rt.alloc(), "require a\nsoft a=1\n", "", second, 2);
    let third = "resolve: line 3: bad statement\n";
    let late = "package a=1\nsoft a=1\nsoft a=2\npackage a=2\n";
    expect_run(&rt, rt.alloc(), late, "", third, 2);
}

/// Fails at the first read.
#[derive(Drop)]
struct Unreadable;

impl Read for Unreadable {
    fn read(&mut self, _buf: &mut [u8]) -> io::Result<usize> {
        Err(io::Error::from(io::ErrorKind::BrokenPipe))
    }
}

/// Fails at each write.
#[derive(Drop)]
struct Unwritable;

impl Write for Unwritable {
    fn write(&mut self, _buf: &[u8]) -> io::Result<usize> {
        Err(io::Error::from(io::ErrorKind::BrokenPipe))
    }

    fn flush(&mut self) -> io::Result<()> {
        Ok(())
    }
}

#[test]
fn an_input_that_cannot_be_read(rt: HostRuntime) {
    let mut written: Vec<u8> = Vec::new(rt.alloc());
    let mut complaints: Vec<u8> = Vec::new(rt.alloc());
    let status = run(rt.alloc(), Unreadable, &mut written, &mut complaints);
    assert_eq!(rt; written.as_slice(), b"".as_slice());
    assert_eq!(rt;
        complaints.as_slice(),
        b"resolve: cannot read input\n".as_slice()
    );
    assert_eq!(rt; status, 3);
}

#[test]
fn an_output_that_cannot_be_written(rt: HostRuntime) {
    let mut complaints: Vec<u8> = Vec::new(rt.alloc());
    let input = b"package a=1\nrequire a\n".as_slice();
    let status = run(rt.alloc(), input, &mut Unwritable, &mut complaints);
    assert_eq!(rt;
        complaints.as_slice(),
        b"resolve: cannot write output\n".as_slice()
    );
    assert_eq!(rt; status, 3);
}

#[test]
fn an_error_that_cannot_be_written_changes_no_status(rt: HostRuntime) {
    let mut written: Vec<u8> = Vec::new(rt.alloc());
    let input = b"nonsense\n".as_slice();
    let status = run(rt.alloc(), input, &mut written, &mut Unwritable);
    assert_eq!(rt; written.as_slice(), b"".as_slice());
    assert_eq!(rt; status, 2);
}

#[test]
fn what_ran_out_has_a_text(rt: HostRuntime) {
    assert_eq!(rt; fault_text(Exhausted::Memory), "resolve: out of memory\n");
    assert_eq!(rt; fault_text(Exhausted::Ids), "resolve: out of ids\n");
}

#[test]
fn soft_requirements_are_tried_in_their_order(rt: HostRuntime) {
    let input =
        "package a=1\npackage b=1\npackage b=2\npackage c=1\npackage d=1\npackage e=1\npackage locked=1\npackage locked=2\npackage unknown-deps=1\nrequires a=1 b@0..10\nrequires e=1 d\nlock locked=2\nunknown unknown-deps=1 no data\nrequire a@0..10\nconstrain b@1..2\nconstrain c\nsoft b=2\nsoft c=1\nsoft e=1\nsoft locked=1\nsoft unknown-deps=1\n";
    expect_answer(
        &rt,
        rt.alloc(),
        input,
        "a=1\nb=1\nc=1\nd=1\ne=1\nlocked=1\n",
    );
}

#[test]
fn a_soft_requirement_that_is_excluded_is_exempt(rt: HostRuntime) {
    let input = "package t=1\npackage u=1\nexclude t=1 old\nrequires u=1 t\nsoft t=1\nsoft u=1\n";
    expect_answer(&rt, rt.alloc(), input, "t=1\nu=1\n");
}

#[test]
fn one_whose_package_was_asked_is_not_exempt(rt: HostRuntime) {
    let input = "package t=1\npackage u=1\nexclude t=1 old\nrequires u=1 t\nsoft u=1\nsoft t=1\n";
    expect_answer(&rt, rt.alloc(), input, "");
}

#[test]
fn what_an_earlier_one_needs_rules_out_a_later_one(rt: HostRuntime) {
    let input = "package x=1\npackage y=1\npackage y=2\nrequires x=1 y@1\nsoft x=1\nsoft y=2\n";
    expect_answer(&rt, rt.alloc(), input, "x=1\ny=1\n");
}

#[test]
fn the_other_order_keeps_the_other_one(rt: HostRuntime) {
    let input = "package x=1\npackage y=1\npackage y=2\nrequires x=1 y@1\nsoft y=2\nsoft x=1\n";
    expect_answer(&rt, rt.alloc(), input, "y=2\n");
}

#[test]
fn two_soft_versions_of_a_package_are_never_both_chosen(rt: HostRuntime) {
    let input = "package s=1\npackage s=2\nsoft s=1\nsoft s=2\nsoft s=1\n";
    expect_answer(&rt, rt.alloc(), input, "s=1\n");
}

#[test]
fn a_locked_package_that_the_root_asks_for_is_not_exempt(rt: HostRuntime) {
    let input = "package a=1\npackage a=2\nlock a=2\nsoft a=1\nrequire a\n";
    expect_answer(&rt, rt.alloc(), input, "a=2\n");
}

#[test]
fn the_first_of_two_soft_versions_of_a_locked_package_is_exempt(rt: HostRuntime) {
    let input = "package a=1\npackage a=2\nlock a=2\nsoft a=1\nsoft a=2\n";
    expect_answer(&rt, rt.alloc(), input, "a=1\n");
}

#[test]
fn a_soft_requirement_before_its_condition_holds_is_exempt(rt: HostRuntime) {
    let input =
        "package p=1\npackage c=1\npackage x=1\npackage x=2\nrequires p=1 x if c\nlock x=2\nrequire p\nsoft x=1\nsoft c=1\n";
    expect_answer(&rt, rt.alloc(), input, "c=1\np=1\nx=1\n");
}

#[test]
fn a_soft_requirement_turns_a_condition_on(rt: HostRuntime) {
    let input =
        "package p=1\npackage c=1\npackage x=1\npackage x=2\nrequires p=1 x if c\nlock x=2\nrequire p\nsoft c=1\nsoft x=1\n";
    expect_answer(&rt, rt.alloc(), input, "c=1\np=1\nx=2\n");
}

#[test]
fn a_conflict_in_a_turn_keeps_what_was_accepted(rt: HostRuntime) {
    let input =
        "package a=1\npackage u=1\npackage q=1\npackage s=1\npackage t=1\npackage c=2\nrequires a=1 u\nrequires s=1 t\nrequires t=1 c\nconstrains u=1 c@3\nsoft a=1\nsoft q=1\nsoft s=1\n";
    expect_answer(&rt, rt.alloc(), input, "a=1\nq=1\nu=1\n");
}

#[test]
fn the_root_takes_no_lower_version_for_a_soft_requirement(rt: HostRuntime) {
    let input = "package a=1\npackage a=2\npackage b=1\nrequires b=1 a@1\nrequire a\nsoft b=1\n";
    expect_answer(&rt, rt.alloc(), input, "a=2\n");
}

#[test]
fn a_soft_version_set_takes_what_the_lock_leaves(rt: HostRuntime) {
    let input = "package a=1\npackage a=2\npackage a=3\nlock a=2\nsoft a@1..4\n";
    expect_answer(&rt, rt.alloc(), input, "a=2\n");
}

#[test]
fn soft_version_sets_and_solvables_keep_their_order(rt: HostRuntime) {
    let first = "package x=1\npackage y=1\npackage y=2\nrequires x=1 y@1\nsoft y\nsoft x=1\n";
    expect_answer(&rt, rt.alloc(), first, "y=2\n");
    let second = "package x=1\npackage y=1\npackage y=2\nrequires x=1 y@1\nsoft x=1\nsoft y\n";
    expect_answer(&rt, rt.alloc(), second, "x=1\ny=1\n");
}

#[test]
fn a_soft_version_set_asks_its_package(rt: HostRuntime) {
    let first = "package t=1\nexclude t=1 old\nsoft t\nsoft t=1\n";
    expect_answer(&rt, rt.alloc(), first, "");
    let second = "package t=1\nexclude t=1 old\nsoft t=1\nsoft t\n";
    expect_answer(&rt, rt.alloc(), second, "t=1\n");
}

#[test]
fn a_soft_version_set_takes_the_first_version_that_fits(rt: HostRuntime) {
    let input = "package a=1\npackage a=2\nrequires a=2 missing\nsoft a\n";
    expect_answer(&rt, rt.alloc(), input, "a=1\n");
    expect_answer(&rt, rt.alloc(), "soft nothing\n", "");
    expect_run(
        &rt,
        rt.alloc(),
        "soft a b\n",
        "",
        "resolve: line 1: bad statement\n",
        2,
    );
}

#[test]
fn a_union_that_overlaps_itself(rt: HostRuntime) {
    let input = "package a=1\npackage a=2\nrequire a@1..3 | a@2\n";
    expect_answer(&rt, rt.alloc(), input, "a=2\n");
}

#[test]
fn a_version_that_forbids_all_of_its_package(rt: HostRuntime) {
    let input =
        "package a=1\npackage a=2\npackage a=3\npackage a=4\npackage a=5\nconstrains a=5 a@9\nrequire a\n";
    expect_answer(&rt, rt.alloc(), input, "a=4\n");
}

/// Adds two versions of a package, of which the newer one requires the next package.
fn push_link(input: &mut String, number: u32) -> Result<(), Fail> {
    use std::fmt::Write;
    let next = number.wrapping_add(1);
    write!(
        input,
        "package p{number}=1\npackage p{number}=2\nrequires p{number}=2 p{next}\n"
    )?;
    Ok(())
}

/// Returns the input of two hundred packages in a chain: the newest version of each requires the next package, and that
/// of the last one a missing package.
fn chain(alloc: Global) -> Result<String, Fail> {
    let mut input = String::new(alloc);
    for number in 0..199u32 {
        push_link(&mut input, number)?;
    }
    input.push_str("package p199=1\npackage p199=2\nrequires p199=2 missing\nrequire p0\n")?;
    Ok(input)
}

/// Returns the names of the packages in the chain, in the order of an answer.
fn names_in_chain(alloc: Global) -> Result<Vec<String>, Fail> {
    let mut names = Vec::new(alloc);
    for number in 0..200u32 {
        names.push(format!(in alloc; "p{number}")?)?;
    }
    names.sort_unstable();
    Ok(names)
}

/// Adds the chosen version of a package in the chain: the newest one, except for the last package.
fn push_chosen(output: &mut String, name: &str) -> Result<(), Fail> {
    use std::fmt::Write;
    let version = if name == "p199" { 1 } else { 2 };
    write!(output, "{name}={version}\n")?;
    Ok(())
}

/// Returns the answer for the chain.
fn chosen_in_chain(alloc: Global) -> Result<String, Fail> {
    let names = names_in_chain(alloc)?;
    let mut output = String::new(alloc);
    for name in &names {
        push_chosen(&mut output, name)?;
    }
    Ok(output)
}

#[test]
fn two_hundred_packages_in_a_row(rt: HostRuntime) -> Result<(), Fail> {
    let input = chain(rt.alloc())?;
    let output = chosen_in_chain(rt.alloc())?;
    expect_answer(&rt, rt.alloc(), &input, &output);
    Ok(())
}

/// Adds a package with two versions, and a requirement of it.
fn push_unneeded(input: &mut String, number: u32) -> Result<(), Fail> {
    use std::fmt::Write;
    write!(
        input,
        "package u{number}=1\npackage u{number}=2\nrequire u{number}\n"
    )?;
    Ok(())
}

/// Returns the input of a clash after two hundred packages that have no part in it.
fn clash_after_others(alloc: Global) -> Result<String, Fail> {
    let mut input = String::new(alloc);
    for number in 0..200u32 {
        push_unneeded(&mut input, number)?;
    }
    input.push_str(CLASH)?;
    Ok(input)
}

#[test]
fn a_clash_after_two_hundred_packages_without_part_in_it(rt: HostRuntime) -> Result<(), Fail> {
    let input = clash_after_others(rt.alloc())?;
    expect_conflict(&rt, rt.alloc(), &input, CLASH_MESSAGE);
    Ok(())
}
