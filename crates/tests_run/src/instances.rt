//! The rules that an instance breaks, told by the commands that read one.

use crate::files::assert_run_on;
use evroute_run::Status;
use std::alloc::Global;
use std::process::Abort;
use worked_instances::NO_STATION;

/// The program refuses the instance without a station with another piece by this line, or the test
/// fails.
fn assert_refused(rt: &impl Abort, alloc: Global, line: &str, pieces: (&str, &str), put: &str) {
    let text = NO_STATION
        .replacen(alloc, pieces.0, pieces.1, 1)
        .expect(rt, "memory");
    assert_run_on(rt, alloc, line, text.as_str(), "", Status::Refused, put);
}

/// A command refuses levels past a full battery, or the test fails.
fn assert_levels_refused(rt: &impl Abort, alloc: Global, line: &str) {
    for &(level, put) in &[
        (r#""min_q":11,"css""#, "refused instance 12 min_q\n"),
        (r#""home_q":11,"css""#, "refused instance 12 home_q\n"),
    ] {
        assert_refused(rt, alloc, line, (r#""css""#, level), put);
    }
}

#[test]
fn each_command_that_reads_an_instance_tells_a_level_past_a_full_battery(rt: HostRuntime) {
    for &line in &[
        "fixed A 0,1,0",
        "prove A 0,1,0 O",
        "check-route A 0,1,0 Q",
        "fleet A P O",
        "check A P Q",
        "bound A O --near 1",
        "check-bound A Q",
        "improve A P O",
        "mixed P O A",
        "check-mixed P Q A",
    ] {
        assert_levels_refused(&rt, rt.alloc(), line);
    }
}

#[test]
fn each_rule_that_an_instance_breaks_is_told(rt: HostRuntime) {
    for &(piece, other, put) in &[
        (r#""css":[],"#, "", "refused instance 3 css\n"),
        (":10,", ":1.5,", "refused instance 4 max_q\n"),
        (":10,", ":1000000001,", "refused instance 5 max_q\n"),
        ("[4,0]", "[4]", "refused instance 6 time_matrix/1\n"),
        (
            r#""css":[]"#,
            r#""css":[{"node_id":2,"cs_type":"fast"}]"#,
            "refused instance 7 css/0/node_id\n",
        ),
        (
            r#""css":[]"#,
            r#""css":[{"node_id":1,"cs_type":"fast"}]"#,
            "refused instance 8 css/0/type\n",
        ),
        (
            r#""breakpoints_by_type":[]"#,
            r#""breakpoints_by_type":[{"cs_type":"fast","time":[0,1],"charge":[0,9]}]"#,
            "refused instance 9 breakpoints_by_type/0 short 9\n",
        ),
        (
            r#""breakpoints_by_type":[]"#,
            r#""breakpoints_by_type":[{"cs_type":"fast","time":[0,1],"charge":[0,50000]},{"cs_type":"slow","time":[0,1],"charge":[0,50001]}]"#,
            "refused instance 10\n",
        ),
        (
            r#""css""#,
            r#""t_max":1000000000000000001,"css""#,
            "refused instance 11 1000000000000000001\n",
        ),
    ] {
        assert_refused(&rt, rt.alloc(), "fixed A 0,1,0", (piece, other), put);
    }
}
