//! The map of a plan.

use crate::files::{assert_file, assert_run, run_with, shelf_with};
use evview_run::Status;
use worked_instances::{NO_STATION, ONE_STATION};

/// A plan that charges two units on the way.
const BY_STATION: &str = "evroute plan 1\nroutes 1\nroute 0 v2+2 1 0\n";

/// The places of its instance.
const PLACES: &str =
    r#"{"places":[{"name":"Depot","x":0,"y":0},{"name":"Café","x":10,"y":5},{"name":"<Park>","x":4,"y":20}]}"#;

/// How its map begins.
const PAGE: &str = "<svg xmlns='http://www.w3.org/2000/svg' width='1050' \
    height='1222' viewBox='0 0 10500 12220'>\n\
    <style>";

/// What stands behind the colours and the type.
const MAP: &str = "<text x='2960' y='300'>a vehicle charges</text>\n\
    <path class='w' stroke='#0b5394' d='M800 700h500'/>\
    <circle fill='#0b5394' cx='1050' cy='700' r='85'/><text class='q' x='1050' y='738'>0</text>\
    <text x='1450' y='740'>route 0: stops 4, time 24.50, energy charged 2</text>\n\
    <polyline class='w' stroke='#0b5394' points='800,11520 2800,1520 5800,9020 800,11520 '/>\n\
    <circle class='u' cx='800' cy='11520' r='35'/><text class='m' x='930' y='11460'>Depot</text>\n\
    <circle class='u' cx='5800' cy='9020' r='35'/><text class='m' x='5930' y='8960'>Café</text>\n\
    <circle class='u' cx='2800' cy='1520' r='35'/><text class='m' x='2930' y='1460'>&lt;Park&gt;</text>\n\
    <g><title>route 0, stop 0: depot 0, Depot, charged 0</title></g>\n\
    <g><title>route 0, stop 1: station 2, &lt;Park&gt;, charged 2</title>\
    <path class='s' stroke='#0b5394' d='M2800 1520m-95 -95h190v190h-190z'/>\
    <text class='t' x='2800' y='1558'>0</text></g>\n\
    <g><title>route 0, stop 2: customer 1, Café, charged 0</title>\
    <circle fill='#0b5394' cx='5800' cy='9020' r='85'/><text class='q' x='5800' y='9058'>0</text></g>\n\
    <g><title>route 0, stop 3: depot 0, Depot, charged 0</title></g>\n\
    <path class='d' d='M800 11520m0 -110l110 110l-110 110l-110 -110z'/>\n\
    </svg>\n";

#[test]
fn vehicles_stand_at_their_places(rt: HostRuntime) {
    let alloc = rt.alloc();
    let mut shelf = shelf_with(alloc, ONE_STATION, BY_STATION, &[]).expect(&rt, "memory");
    shelf.set("N", PLACES.as_bytes()).expect(&rt, "memory");
    let line = "A P --places N --map M";
    let ended = run_with(alloc, line, &mut shelf, &[]).expect(&rt, "memory");
    assert_eq!(rt; ended.0, Status::Done);
    let map = shelf.get("M").unwrap_or(b"");
    assert!(rt; map.starts_with(PAGE.as_bytes()));
    assert!(rt; map.ends_with(MAP.as_bytes()));
}

#[test]
fn a_map_asks_for_coordinates_and_no_plan_has_one_too(rt: HostRuntime) {
    let alloc = rt.alloc();
    let mut shelf = shelf_with(alloc, NO_STATION, "evroute plan 1\nnone\n", &[]).expect(
        &rt, "memory",
    );
    shelf
        .set(
            "N",
            r#"{"places":[{"name":"a","x":3,"y":3},{"name":"b"}]}"#.as_bytes(),
        )
        .expect(&rt, "memory");
    let (line, put) = ("A P --places N --map M", "refused places x 1\n");
    assert_run(&rt, alloc, line, &mut shelf, Status::Refused, put);
    assert_file(&rt, &shelf, "M", None);
    shelf
        .set(
            "N",
            r#"{"places":[{"name":"a","x":3,"y":3},{"name":"b","x":3,"y":3}]}"#.as_bytes(),
        )
        .expect(&rt, "memory");
    assert_run(&rt, alloc, line, &mut shelf, Status::Done, "no plan\n");
    assert!(rt; shelf.get("M").is_some());
}
