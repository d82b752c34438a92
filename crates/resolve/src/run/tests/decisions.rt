//! Which requirement is decided first: first those of the root, then those whose package has the higher score, then
//! those with fewer candidates.
//!
//! Version 3 of tool and version 2 of data exclude each other, so the requirement that is decided first gets its newest
//! version.

use super::expect_answer;

#[test]
fn the_one_with_fewer_candidates_comes_first(rt: HostRuntime) {
    let input =
        "package app=1\npackage tool=1\npackage tool=2\npackage tool=3\npackage data=1\npackage data=2\nconstrains tool=3 data@1\nrequires app=1 tool\nrequires app=1 data\nrequire app\n";
    expect_answer(&rt, rt.alloc(), input, "app=1\ndata=2\ntool=2\n");
}

#[test]
fn the_one_with_the_higher_score_comes_before_it(rt: HostRuntime) {
    let input =
        "# Version 4 of tool needs two packages that exclude each other. What is learnt of that raises the score of tool.\npackage app=1\npackage tool=1\npackage tool=2\npackage tool=3\npackage tool=4\npackage data=1\npackage data=2\npackage left=1\npackage right=1\nrequires tool=4 left\nrequires tool=4 right\nconstrains left=1 right@9\nconstrains tool=3 data@1\nrequires app=1 tool\nrequires app=1 data\nrequire app\n";
    expect_answer(&rt, rt.alloc(), input, "app=1\ndata=1\ntool=3\n");
}

#[test]
fn the_one_of_the_root_comes_before_one_with_a_score(rt: HostRuntime) {
    let input =
        "package app=1\npackage tool=1\npackage tool=2\npackage tool=3\npackage tool=4\npackage data=1\npackage data=2\npackage left=1\npackage right=1\nrequires tool=4 left\nrequires tool=4 right\nconstrains left=1 right@9\nconstrains tool=3 data@1\nrequires app=1 tool\nrequire app\nrequire data if app\n";
    expect_answer(&rt, rt.alloc(), input, "app=1\ndata=2\ntool=2\n");
}

#[test]
fn the_one_of_the_root_comes_before_one_with_fewer_candidates(rt: HostRuntime) {
    let input =
        "package app=1\npackage tool=1\npackage tool=2\npackage tool=3\npackage data=1\npackage data=2\nconstrains tool=3 data@1\nrequires app=1 data\nrequire app\nrequire tool if app\n";
    expect_answer(&rt, rt.alloc(), input, "app=1\ndata=1\ntool=3\n");
}

#[test]
fn the_candidates_of_a_union_are_counted_by_version_set(rt: HostRuntime) {
    let input =
        "package app=1\npackage tool=3\npackage spare=1\npackage spare=2\npackage data=1\npackage data=2\nconstrains tool=3 data@1\nrequires app=1 data\nrequires app=1 tool | spare\nrequire app\n";
    expect_answer(&rt, rt.alloc(), input, "app=1\ndata=1\ntool=3\n");
}
