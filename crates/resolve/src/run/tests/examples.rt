//! The inputs of the folder `examples` and their outcomes.

use super::{expect_answer, expect_conflict};

#[test]
fn locks_and_favored_versions(rt: HostRuntime) {
    let input =
        "# Version 2 of lib is preferred to version 3, and app is locked to version 1: so version 2 of app is not chosen, though it is newer.\npackage app=1\npackage app=2\npackage lib=1\npackage lib=2\npackage lib=3\nrequires app=1 lib@1..4\nrequires app=2 lib@3\nfavor lib=2\nlock app=1\nrequire app\n";
    let output = "app=1\nlib=2\n";
    expect_answer(&rt, rt.alloc(), input, output);
}

#[test]
fn versions_that_are_told_of_together(rt: HostRuntime) {
    let input =
        "# Two tools need different versions of one library. Versions 1 and 2 of editor are alike, so the message tells of them together.\npackage editor=1\npackage editor=2\npackage plugin=1\npackage toolkit=3\npackage toolkit=4\nrequires editor=1 toolkit@3\nrequires editor=2 toolkit@3\nrequires plugin=1 toolkit@4\nrequire editor\nrequire plugin\n";
    let output =
        "The following packages are incompatible\n├─ editor * can be installed with any of the following options:\n│  └─ editor 1 | 2 would require\n│     └─ toolkit >=3, <4, which can be installed with any of the following options:\n│        └─ toolkit 3\n└─ plugin * cannot be installed because there are no viable options:\n   └─ plugin 1 would require\n      └─ toolkit >=4, <5, which cannot be installed because there are no viable options:\n         └─ toolkit 4, which conflicts with the versions reported above.\n";
    expect_conflict(&rt, rt.alloc(), input, output);
}

#[test]
fn a_condition_on_two_packages(rt: HostRuntime) {
    let input =
        "# A driver is needed only where both a desktop and a recent kernel are chosen. The old kernel is excluded, so it is needed here.\npackage desktop=1\npackage kernel=5\npackage kernel=6\npackage driver=1\nexclude kernel=5 it has no updates\nrequire desktop | console\nrequire kernel\nrequire driver if desktop and kernel@6\n";
    let output = "desktop=1\ndriver=1\nkernel=6\n";
    expect_answer(&rt, rt.alloc(), input, output);
}

#[test]
fn what_is_installed_stays_where_that_fits(rt: HostRuntime) {
    let input =
        "# What is installed is to stay where that fits. Version 1 of web cannot stay: the new app needs a newer one. The theme fits, and stays.\npackage app=2\npackage web=1\npackage web=2\npackage theme=1\nrequires app=2 web@2\nrequires theme=1 web\nrequire app\nsoft web=1\nsoft theme=1\n";
    let output = "app=2\ntheme=1\nweb=2\n";
    expect_answer(&rt, rt.alloc(), input, output);
}

#[test]
fn a_package_of_debian(rt: HostRuntime) {
    let input =
        "# Facts about real packages, from the package lists of Debian 12 and 13 (versions are numbered by their order within a package).\npackage jq=1\nrequires jq=1 libjq1@2\nrequires jq=1 libc6@31..38\npackage jq=2\nrequires jq=2 libjq1@3\nrequires jq=2 libc6@31..38\npackage libjq1=2\nrequires libjq1=2 libc6@34..38\nrequires libjq1=2 libonig5@1..4\npackage libjq1=3\nrequires libjq1=3 libc6@34..38\nrequires libjq1=3 libonig5@1..4\npackage libonig5=3\nrequires libonig5=3 libc6@13..38\npackage libc6=35\nrequires libc6=35 libgcc-s1\npackage libc6=36\nrequires libc6=36 libgcc-s1\npackage libgcc-s1=12\nrequires libgcc-s1=12 gcc-12-base@2\nrequires libgcc-s1=12 libc6@32..38\npackage gcc-12-base=2\nrequire jq\n";
    let output = "gcc-12-base=2\njq=2\nlibc6=36\nlibgcc-s1=12\nlibjq1=3\nlibonig5=3\n";
    expect_answer(&rt, rt.alloc(), input, output);
}

#[test]
fn a_map_in_three_colours(rt: HostRuntime) {
    let input =
        "# A map of four countries in three colours, 1 to 3. Neighbours differ: who has a colour requires another one of each neighbour.\n# Norway has the third colour.\npackage dan=1\npackage dan=2\npackage dan=3\npackage fin=1\npackage fin=2\npackage fin=3\npackage nor=1\npackage nor=2\npackage nor=3\npackage swe=1\npackage swe=2\npackage swe=3\nrequires fin=1 nor@3 | nor@2\nrequires fin=2 nor@3 | nor@1\nrequires fin=3 nor@2 | nor@1\nrequires nor=1 fin@3 | fin@2\nrequires nor=2 fin@3 | fin@1\nrequires nor=3 fin@2 | fin@1\nrequires fin=1 swe@3 | swe@2\nrequires fin=2 swe@3 | swe@1\nrequires fin=3 swe@2 | swe@1\nrequires swe=1 fin@3 | fin@2\nrequires swe=2 fin@3 | fin@1\nrequires swe=3 fin@2 | fin@1\nrequires nor=1 swe@3 | swe@2\nrequires nor=2 swe@3 | swe@1\nrequires nor=3 swe@2 | swe@1\nrequires swe=1 nor@3 | nor@2\nrequires swe=2 nor@3 | nor@1\nrequires swe=3 nor@2 | nor@1\nrequires swe=1 dan@3 | dan@2\nrequires swe=2 dan@3 | dan@1\nrequires swe=3 dan@2 | dan@1\nrequires dan=1 swe@3 | swe@2\nrequires dan=2 swe@3 | swe@1\nrequires dan=3 swe@2 | swe@1\nrequire dan\nrequire fin\nrequire nor\nrequire swe\nconstrain nor@3\n";
    let output = "dan=3\nfin=2\nnor=3\nswe=1\n";
    expect_answer(&rt, rt.alloc(), input, output);
}
