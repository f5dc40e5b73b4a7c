//! How much more a label may have earned so that its steps stay covered. No clause rests on this.

use crate::home::home_room;
use crate::lister::Lister;
use crate::sizes::{MOST_ROOM, room_in, sum, weighted};
use crate::values::time_from;
use crate::wanted::Wanted;
use near_search::{Entry, NearLabel, NearState};
use std::alloc::{AllocError, Global};

/// The most by which a vehicle may have earned more so that a single label covers it.
#[derive(Clone, Copy)]
struct Roomiest {
    /// Below 0 where none covers it.
    room: i64,
    /// The label, where it is known.
    entry: Option<Entry>,
    /// Which of those it is that left room lately, if it is one.
    hit: Option<usize>,
}

impl Lister<'_, '_> {
    /// How much more a vehicle may have earned so that labels cover all that its steps lead to, and
    /// no way home earns; `None` where they don't as it is.
    pub(crate) fn room(
        &mut self,
        alloc: Global,
        state: &NearState,
    ) -> Result<Option<i64>, AllocError> {
        let Some(mut room) = home_room(self.query, state) else {
            return Ok(None);
        };
        for to in 0..self.query.ground().depot() {
            match self.room_at(alloc, state, to, room)? {
                Some(less) => room = room.min(less),
                None => return Ok(None),
            }
        }
        Ok(Some(room))
    }

    /// The same of a vehicle whose steps are covered, 0 where that isn't found.
    pub(crate) fn rise(&mut self, alloc: Global, state: &NearState) -> Result<i64, AllocError> {
        let mut room = home_room(self.query, state).unwrap_or(0);
        for to in 0..self.query.ground().depot() {
            if room == 0 {
                break;
            }
            let less = self.room_at(alloc, state, to, room)?;
            room = room.min(less.unwrap_or(0));
        }
        Ok(room)
    }

    /// The same for the steps to a place, where no more than `most` is of use.
    pub(crate) fn room_at(
        &mut self,
        alloc: Global,
        state: &NearState,
        to: usize,
        most: i64,
    ) -> Result<Option<i64>, AllocError> {
        let mut room = most;
        let mut states = self.query.steps(alloc, state, to)?;
        for _ in 0..states.len() {
            let Some(behind) = states.pop() else {
                break;
            };
            match self.room_of(&behind, room)? {
                Some(less) => room = room.min(less),
                None => return Ok(None),
            }
        }
        Ok(Some(room))
    }

    /// How much more a vehicle may have earned so that labels cover it; `None` where none do.
    fn room_of(&mut self, state: &NearState, most: i64) -> Result<Option<i64>, AllocError> {
        if most > 0 {
            let best = self.roomiest(state, most);
            if best.room >= most {
                self.note(state.place, best)?;
            }
            if best.room >= 0 {
                return Ok(Some(best.room));
            }
        }
        if self.covers(state)? {
            Ok(Some(0))
        } else {
            Ok(None)
        }
    }

    /// Lets a label be one of those at a place that left room lately.
    fn note(&mut self, place: usize, found: Roomiest) -> Result<(), AllocError> {
        match (found.hit, found.entry) {
            (Some(hit), _) => self.hits.move_forward(place, hit),
            (None, Some(entry)) => self.hits.add(place, entry)?,
            (None, None) => {}
        }
        Ok(())
    }

    /// The most by which a vehicle may have earned more so that a single label covers it, where
    /// `most` is enough. Those that left room lately are tried first.
    fn roomiest(&self, state: &NearState, most: i64) -> Roomiest {
        let mut best = Roomiest {
            room: -1,
            entry: None,
            hit: None,
        };
        let Some(wanted) = Wanted::of(&self.labels, self.query.terms(), state) else {
            return best;
        };
        best = roomiest_hit(
            self.labels.all(),
            &wanted,
            self.hits.at(state.place),
            best,
            most,
        );
        let groups = self.labels.groups(state.place);
        for group in groups.iter().take(wanted.group.saturating_add(1)).rev() {
            if best.room >= most {
                break;
            }
            best = roomiest_in(self.labels.all(), &wanted, group, best, most);
        }
        best
    }
}

/// The same of labels that left room lately and may leave enough, where one is known.
fn roomiest_hit(
    all: &[NearLabel],
    wanted: &Wanted<'_>,
    hits: &[Entry],
    known: Roomiest,
    most: i64,
) -> Roomiest {
    let mut best = known;
    for (hit, entry) in hits.iter().enumerate() {
        if best.room >= most {
            break;
        }
        if sum(i128::from(entry.cost), i128::from(most)) <= wanted.cost {
            let room = room_by(all, wanted, entry, best.room);
            if room > best.room {
                best = Roomiest {
                    room,
                    entry: Some(*entry),
                    hit: Some(hit),
                };
            }
        }
    }
    best
}

/// The same of the labels of a group, where one is known.
fn roomiest_in(
    all: &[NearLabel],
    wanted: &Wanted<'_>,
    group: &[Entry],
    known: Roomiest,
    most: i64,
) -> Roomiest {
    let mut best = known;
    for entry in group {
        let least = best.room.max(0);
        if sum(i128::from(entry.cost), i128::from(least)) > wanted.cost || best.room >= most {
            break;
        }
        let room = room_by(all, wanted, entry, best.room);
        if room > best.room {
            best = Roomiest {
                room,
                entry: Some(*entry),
                hit: None,
            };
        }
    }
    best
}

/// By how much a vehicle may have earned more so that the label of an entry covers it; `known` or
/// less where that isn't more.
fn room_by(all: &[NearLabel], wanted: &Wanted<'_>, entry: &Entry, known: i64) -> i64 {
    if !wanted.admits(entry, wanted.top) {
        return -1;
    }
    match wanted.fitting(all, entry) {
        Some(label) => single_room(label, wanted, known),
        None => -1,
    }
}

/// By how much a vehicle may have earned more so that a label covers it, below 0 where it doesn't;
/// `known` or less where that isn't more.
fn single_room(label: &NearLabel, wanted: &Wanted<'_>, known: i64) -> i64 {
    let its = least_room(label, wanted, wanted.state.value.points(), known);
    if its <= known {
        return its;
    }
    its.min(least_room(label, wanted, label.state.value.points(), known))
}

/// The same at the levels of points alone.
fn least_room(label: &NearLabel, wanted: &Wanted<'_>, points: &[(u64, u64)], known: i64) -> i64 {
    let mut room = MOST_ROOM;
    for (level, _) in points {
        if *level >= wanted.first && *level <= wanted.top {
            room = room.min(room_there(label, wanted, *level));
            if room <= known {
                break;
            }
        }
    }
    room
}

/// The same at a level alone.
fn room_there(label: &NearLabel, wanted: &Wanted<'_>, level: u64) -> i64 {
    let own = time_from(&label.state.value, level);
    let its = time_from(&wanted.state.value, level);
    let (Some(own), Some(its)) = (own, its) else {
        return -1;
    };
    let Some(earlier) = its.checked_sub(own) else {
        return -1;
    };
    let Ok(earlier) = i64::try_from(earlier) else {
        return -1;
    };
    let paid = i128::from(label.state.earned) - i128::from(wanted.state.earned);
    room_in(sum(weighted(wanted.weight(), earlier), paid))
}
