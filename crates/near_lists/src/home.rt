//! What going home takes, as a judge asks it. No clause rests on this.

use crate::sizes::{MOST_ROOM, owing, room_in, weighted};
use crate::values::time_from;
use near_search::{NearQuery, NearState};

/// The least scaled time of going home; `None` where home may not come next, or not in time.
/// Whoever is forgotten may have been served.
fn home_time(query: &NearQuery<'_>, state: &NearState) -> Option<i64> {
    if !query.terms().may_end(state.class) {
        return None;
    }
    let (level, arc) = query.ground().way_home(state.place)?;
    let time = time_from(&state.value, level)?.checked_add(arc.time)?;
    if time > query.ground().limit() {
        return None;
    }
    i64::try_from(time).ok()
}

/// How much more a vehicle may have earned so that no way home earns; `None` where one does
/// already.
pub(crate) fn home_room(query: &NearQuery<'_>, state: &NearState) -> Option<i64> {
    let Some(time) = home_time(query, state) else {
        return Some(MOST_ROOM);
    };
    let paid = weighted(query.terms().weight(), time);
    let room = room_in(owing(paid, state.earned));
    if room < 0 { None } else { Some(room) }
}
