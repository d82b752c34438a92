//! Lines with words that came before.

use super::{expect_answer, expect_run};

const SECOND: &str = "resolve: line 2: bad statement\n";

const THIRD: &str = "resolve: line 3: bad statement\n";

const FOURTH: &str = "resolve: line 4: bad statement\n";

#[test]
fn a_word_that_comes_again_states_the_same(rt: HostRuntime) {
    for input in [
        "package a=1\npackage b=1\npackage b=2\nrequires a=1 b@1..2\nrequire a@1..2\nrequire b@1..2\n",
        "package b=2\npackage b=1\npackage a=1\nrequires a=1 c | b@1..2\nrequires a=1 b@1..2 | c\nrequire a\n",
        "package b=2\npackage b=1\npackage a=1\nconstrains a=1 b@1..2\nrequires a=1 b\nrequires a=1 b if b@1..2\nrequire a\n",
        "package b=1\npackage a=1\npackage b=2\nrequires  a=1  b@1..2\nrequires a=1 b@1..2\nrequire a\n",
        "package a=1\npackage b=1\nrequires a=1 b@1..2\r\nrequires a=1 b@1..2\r\nrequire a\n",
    ] {
        expect_answer(&rt, rt.alloc(), input, "a=1\nb=1\n");
    }
}

#[test]
fn a_solvable_that_begins_as_the_last_one_is_another(rt: HostRuntime) {
    let input =
        "package a=1\npackage b=1\npackage a=12\nrequires a=1 c\nrequires a=12 b\nrequire a\n";
    expect_answer(&rt, rt.alloc(), input, "a=12\nb=1\n");
    expect_run(
        &rt,
        rt.alloc(),
        "package a=1\nrequires a=12 b\n",
        "",
        SECOND,
        2,
    );
    expect_run(
        &rt,
        rt.alloc(),
        "package a=1\nrequires a=1b b\n",
        "",
        SECOND,
        2,
    );
}

#[test]
fn known_words_in_bad_statements(rt: HostRuntime) {
    for input in [
        "package a=1\npackage a=1\n",
        "package a=1\nrequires a=1\n",
        "package a=1\nrequires a=1 \n",
        "package a=1\nrequires a=1b\n",
        "package a=1\npackage b=1 \u{e9}\n",
        "package a=1\nconstrains a=1 b | c\n",
    ] {
        expect_run(&rt, rt.alloc(), input, "", SECOND, 2);
    }
    for input in [
        "package a=1\nrequires a=1 b@1\nrequires a=1 b@1 c\n",
        "package a=1\nrequires a=1 b@1\nrequires a=1 b@1 |\n",
        "package a=1\nrequires a=1 b@1\nrequires a=1 b@1 | \n",
        "package a=1\nrequires a=1 b@1\nrequires a=1 | b@1\n",
        "package a=1\nrequires a=1 b@1\nrequires a=1 b@1 b@1\n",
        "package a=1\nrequires a=1 b@1\nrequires a=1 b@1 if\n",
        "package a=1\nrequires a=1 b\nrequires b=1 b\n",
    ] {
        expect_run(&rt, rt.alloc(), input, "", THIRD, 2);
    }
    let input = "package a=1\nrequires a=1 b\nrequires a=1 b\nrequires a=1 b\u{e9}\n";
    expect_run(&rt, rt.alloc(), input, "", FOURTH, 2);
}
