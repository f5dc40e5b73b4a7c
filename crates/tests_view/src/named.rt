//! Names of places: where they are shown, and files of them that are refused.

use crate::files::{assert_file, assert_run, run_with, shelf_with};
use evview_run::Status;
use worked_instances::ONE_STATION;

/// The plan of the one customer with a station on the way.
const BY_STATION: &str = "evroute plan 1\nroutes 1\nroute 0 v2+1 1 0\n";

/// The places of its instance: a name with a comma and quotes, one that a spreadsheet would take for
/// a formula, and one with the marks of elements.
const NAMES: &str =
    r#"{"places":[{"name":"Depot, \"Mill\""},{"name":"=Café","x":7,"y":9},{"name":"<Park>","x":1,"y":2,"z":null}],"more":1}"#;

#[test]
fn names_stand_beside_the_numbers_of_nodes(rt: HostRuntime) {
    let alloc = rt.alloc();
    let mut shelf = shelf_with(alloc, ONE_STATION, BY_STATION, &[]).expect(&rt, "memory");
    shelf.set("N", NAMES.as_bytes()).expect(&rt, "memory");
    assert_run(
        &rt,
        alloc,
        "A P --places N --json J --csv C --svg S",
        &mut shelf,
        Status::Done,
        "route 0\n  stop  node  name           what        arrival  level  plug time   from     to    leaving\n     0     0  Depot, \"Mill\"  depot          0.00     10          -      -      -       0.00\n     1     2  <Park>         station        8.00      7       0.00      7      8       8.50\n     2     1  =Café          customer      11.50      6          -      -      -      11.50\n     3     0  Depot, \"Mill\"  depot         21.50      0          -      -      -      21.50\ntotal of route 0: time 21.50, driving 21.00, serving 0.00, plugging in 0.00, charging 0.50, energy driven 11, energy charged 1, stops 4\n\ntotal of the plan: time 21.50, driving 21.00, serving 0.00, plugging in 0.00, charging 0.50, energy driven 11, energy charged 1, stops 4\n",
    );
    assert_file(
        &rt,
        &shelf,
        "C",
        Some(
            "route,stop,node,name,what,arrival,level,plug time,charge begin,charge end,from,to,leaving\n0,0,0,\"Depot, \"\"Mill\"\"\",depot,0.00,10,,,,,,0.00\n0,1,2,<Park>,station,8.00,7,0.00,8.00,8.50,7,8,8.50\n0,2,1,'=Café,customer,11.50,6,,,,,,11.50\n0,3,0,\"Depot, \"\"Mill\"\"\",depot,21.50,0,,,,,,21.50\n",
        ),
    );
    let json = shelf.get("J").unwrap_or(b"");
    assert!(rt;
        json.starts_with(
            r#"{"format":"evview schedule 1","denominator":2,"full":10,"reserve":0,"home":0,"routes":[
{"route":0,"stops":[
{"node":0,"name":"Depot, \"Mill\"","kind":"depot","#
                .as_bytes()
        )
    );
    assert!(rt; shelf.get("S").is_some());
}

#[test]
fn the_first_broken_rule_of_places_is_put_and_nothing_is_written(rt: HostRuntime) {
    let alloc = rt.alloc();
    for &(line, names, status, put) in &[
        (
            "A P --places N --csv C",
            "{\"places\":[{\"name\":\"a\"}]",
            Status::Refused,
            "refused places json\n",
        ),
        (
            "A P --places N --csv C",
            "[{\"name\":\"a\"}]",
            Status::Refused,
            "refused places list\n",
        ),
        (
            "A P --places N --csv C",
            r#"{"places":[{"name":"a"},[],{}]}"#,
            Status::Refused,
            "refused places entry 1\n",
        ),
        (
            "A P --places N --csv C",
            r#"{"places":[{"name":"a"},{"name":"b"},{"x":1,"y":1}]}"#,
            Status::Refused,
            "refused places name 2\n",
        ),
        (
            "A P --places N --csv C",
            r#"{"places":[{"name":7}]}"#,
            Status::Refused,
            "refused places name 0\n",
        ),
        (
            "A P --places N --csv C",
            r#"{"places":[{"name":"a\u0085b"}]}"#,
            Status::Refused,
            "refused places character 0\n",
        ),
        (
            "A P --places N --csv C",
            r#"{"places":[{"name":"a","x":1.5,"y":2}]}"#,
            Status::Refused,
            "refused places x 0\n",
        ),
        (
            "A P --places N --csv C",
            r#"{"places":[{"name":"a","x":1}]}"#,
            Status::Refused,
            "refused places y 0\n",
        ),
        (
            "A P --places N --csv C --route 9",
            r#"{"places":[{"name":"a"},{"name":"b"}]}"#,
            Status::Refused,
            "refused places 2\n",
        ),
        (
            "A N --places P --csv C",
            "evroute plan 2\nnone\n",
            Status::Refused,
            "refused plan 3 at 0\n",
        ),
        ("A P --places M --csv C", "", Status::Fault, ""),
    ] {
        let mut shelf = shelf_with(alloc, ONE_STATION, BY_STATION, &[]).expect(&rt, "memory");
        shelf.set("N", names.as_bytes()).expect(&rt, "memory");
        assert_run(&rt, alloc, line, &mut shelf, status, put);
        assert_file(&rt, &shelf, "C", None);
    }
}

#[test]
fn a_failed_read_of_places_is_a_fault(rt: HostRuntime) {
    let alloc = rt.alloc();
    let mut shelf = shelf_with(alloc, ONE_STATION, BY_STATION, &[2]).expect(&rt, "memory");
    shelf.set("N", NAMES.as_bytes()).expect(&rt, "memory");
    let ended = run_with(alloc, "A P --places N --csv C", &mut shelf, &[]).expect(&rt, "memory");
    assert_eq!(rt; ended.0, Status::Fault);
    assert_file(&rt, &shelf, "C", None);
}
