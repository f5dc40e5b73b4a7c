//! The picture of a plan: its page, and the panel of a route.

use crate::files::{run_with, shelf_with};
use evview_run::Status;
use worked_instances::ONE_STATION;

/// A plan that charges two units on the way, past a breakpoint of the curve.
const PAST_A_BREAKPOINT: &str = "evroute plan 1\nroutes 1\nroute 0 v2+2 1 0\n";

/// How its picture begins.
const PAGE: &str = "<svg xmlns='http://www.w3.org/2000/svg' width='1070' \
    height='390' viewBox='0 0 10700 3900'>\n\
    <style>";

/// What stands behind the colours, the type and the line that says what the shapes are.
const PANEL: &str =
    "<text class='h' x='1200' y='1030'>route 0: stops 4, time 24.50, energy charged 2</text>\n\
    <g transform='translate(0,900)'>\n\
    <path class='g' d='M1200 600v1600'/><path class='a' d='M1200 2200v50'/>\n\
    <text class='c' x='1200' y='2390'>0</text>\n\
    <path class='g' d='M2832 600v1600'/><path class='a' d='M2832 2200v50'/>\n\
    <text class='c' x='2832' y='2390'>5</text>\n\
    <path class='g' d='M4465 600v1600'/><path class='a' d='M4465 2200v50'/>\n\
    <text class='c' x='4465' y='2390'>10</text>\n\
    <path class='g' d='M6097 600v1600'/><path class='a' d='M6097 2200v50'/>\n\
    <text class='c' x='6097' y='2390'>15</text>\n\
    <path class='g' d='M7730 600v1600'/><path class='a' d='M7730 2200v50'/>\n\
    <text class='c' x='7730' y='2390'>20</text>\n\
    <path class='g' d='M1200 1400h8000'/><text class='e' x='1100' y='1440'>5</text>\n\
    <path class='f' d='M1200 600h8000'/><path class='r' d='M1200 2200h8000'/><path class='a\
    ' d='M1200 2200h8000'/>\n\
    <text class='e' x='1100' y='640'>full 10</text><text class='e' x='1100' y='2240'>0</text\
    >\n\
    <text class='e' x='1100' y='480'>units of charge</text>\n\
    <text x='1200' y='2560'>time, in units of the instance</text>\n\
    <text x='9300' y='2240'>reserve 0</text>\n\
    <path class='n' d='M1200 600V600L1200 555'/><text class='m' transform='translate(1200,54\
    0) rotate(-60)' y='40'>depot</text>\n\
    <path class='n' d='M3812 1080V600L3812 555'/><text class='m' transform='translate(3812,5\
    40) rotate(-60)' y='40'>s2</text>\n\
    <path class='n' d='M5934 1080V600L5934 555'/><text class='m' transform='translate(5934,5\
    40) rotate(-60)' y='40'>c1</text>\n\
    <path class='n' d='M9200 2040V600L9200 555'/><text class='m' transform='translate(9200,5\
    40) rotate(-60)' y='40'>depot</text>\n\
    <polyline class='l' points='1200,600 1200,600 3812,1080 3812,1080 3975,920 4955,760 5934\
    ,1080 5934,1080 9200,2040 9200,2040 '/>\n\
    <circle class='b' cx='3975' cy='920' r='26'/>\n\
    <path class='d' d='M1200 530l70 70l-70 70l-70 -70z'><title>stop 0: depot 0, arrival 0.00\
    , level 10</title></path>\n\
    <rect class='s' x='3762' y='1030' width='100' height='100'><title>stop 1: station 2, arr\
    ival 8.00, level 7</title></rect>\n\
    <circle class='p' cx='5934' cy='1080' r='50'><title>stop 2: customer 1, arrival 14.50, l\
    evel 7</title></circle>\n\
    <path class='d' d='M9200 1970l70 70l-70 70l-70 -70z'><title>stop 3: depot 0, arrival 24.\
    50, level 1</title></path>\n\
    </g>\n\
    </svg>\n";

#[test]
fn levels_stand_at_their_times(rt: HostRuntime) {
    let alloc = rt.alloc();
    let mut shelf = shelf_with(alloc, ONE_STATION, PAST_A_BREAKPOINT, &[]).expect(&rt, "memory");
    let ended = run_with(alloc, "A P --svg S", &mut shelf, &[]).expect(&rt, "memory");
    assert_eq!(rt; ended.0, Status::Done);
    let svg = shelf.get("S").unwrap_or(b"");
    assert!(rt; svg.starts_with(PAGE.as_bytes()));
    assert!(rt; svg.ends_with(PANEL.as_bytes()));
}
