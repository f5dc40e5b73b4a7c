//! Orders of customers are charged: the least time of a route, as far as it is below a bar.
//!
//! First by a bound, then by each single station in closed form, and then by labels, place by
//! place: what is known of the levels and times with which a vehicle leaves a customer. Nothing is
//! promised of what is found.

use crate::gaps::Gaps;
use crate::ground::{Ground, NEVER};
use crate::point::{Point, covers, cut_late, drive, room_for_points, time_at};
use std::alloc::{AllocError, Global};

/// So often at the most a vehicle is looked at that has plugged in between two customers.
const MOST_PLUGGED: usize = 2000;

/// The work of a label, in places that are looked at.
const LABEL_WORK: u64 = 16;

/// What a route takes behind a place, without charging.
#[derive(Clone, Copy)]
struct Onward {
    time: u64,
    energy: u64,
}

/// Where the points of a label stand.
#[derive(Clone, Copy)]
struct Span {
    begin: usize,
    end: usize,
}

/// A label at a station.
#[derive(Clone, Copy)]
struct Plugged {
    span: Span,
    number: usize,
}

/// What a label promises: the least of its times and what is lacking to a full battery is worth,
/// and its highest level.
#[derive(Clone, Copy)]
struct Promise {
    least: u64,
    top: u64,
}

/// Two places, one behind the other, and what is asked of a vehicle that goes from the first to the
/// second.
#[derive(Clone, Copy)]
struct Gap {
    from: usize,
    to: usize,
    /// The latest time at its end.
    latest: u64,
    /// The least level at its end.
    need: u64,
    /// What the rest of the route takes, by time and what its energy is worth.
    rest: u64,
    /// A time, together with what a full battery is worth, below which the whole is to stay.
    bar: u64,
}

/// Charges orders.
#[derive(Drop)]
pub(crate) struct Charger {
    rest: Vec<Onward>,
    points: Vec<Point>,
    labels: Vec<Span>,
    next: Vec<Span>,
    plugged: Vec<Plugged>,
    made: Vec<Point>,
    charged: Vec<Point>,
    /// How much work was done.
    pub(crate) work: u64,
}

impl Charger {
    pub(crate) fn new(alloc: Global) -> Result<Charger, AllocError> {
        Ok(Charger {
            rest: Vec::new(alloc),
            points: room_for_points(alloc)?,
            labels: Vec::new(alloc),
            next: Vec::new(alloc),
            plugged: Vec::new(alloc),
            made: room_for_points(alloc)?,
            charged: room_for_points(alloc)?,
            work: 0,
        })
    }

    /// The least time of an order, where it is below a bar.
    pub(crate) fn time_below(
        &mut self,
        ground: &Ground,
        gaps: &Gaps,
        order: &[usize],
        bar: u64,
    ) -> Result<Option<u64>, AllocError> {
        let whole = self.find_rest(ground, order)?;
        if whole.time >= bar {
            return Ok(None);
        }
        if whole.energy <= ground.full {
            return Ok(Some(whole.time));
        }
        let lacking = whole.energy - ground.full;
        if whole.time.wrapping_add(ground.worth.wrapping_mul(lacking)) >= bar {
            return Ok(None);
        }
        let single = self.by_one_station(ground, gaps, order, whole, bar);
        let found = self.by_labels(ground, gaps, order, single.unwrap_or(bar))?;
        Ok(found.or(single))
    }

    /// What the route takes behind each of its places without charging, and what as a whole.
    fn find_rest(&mut self, ground: &Ground, order: &[usize]) -> Result<Onward, AllocError> {
        self.work = self.work.wrapping_add(order.len() as u64);
        self.rest.clear();
        let mut rest = Onward { time: 0, energy: 0 };
        let mut to = ground.depot;
        for from in order.iter().rev() {
            self.rest.push(rest)?;
            let arc = ground.arc(*from, to);
            rest = Onward {
                time: rest.time.wrapping_add(arc.time),
                energy: rest.energy.wrapping_add(arc.energy),
            };
            to = *from;
        }
        self.rest.push(rest)?;
        let arc = ground.arc(ground.depot, to);
        Ok(Onward {
            time: rest.time.wrapping_add(arc.time),
            energy: rest.energy.wrapping_add(arc.energy),
        })
    }

    /// What the route takes behind a place of the order, or home, which is behind the last.
    fn rest_behind(&self, order: &[usize], place: usize) -> Onward {
        let back = order.len().wrapping_sub(place);
        match self.rest.get(back) {
            Some(rest) => *rest,
            None => Onward { time: 0, energy: 0 },
        }
    }

    /// The least time with one station, where it is below a bar.
    fn by_one_station(
        &mut self,
        ground: &Ground,
        gaps: &Gaps,
        order: &[usize],
        whole: Onward,
        bar: u64,
    ) -> Option<u64> {
        let mut best = None;
        let mut from = ground.depot;
        let mut gone = 0;
        for place in 0..=order.len() {
            let to = order.get(place).copied().unwrap_or(ground.depot);
            let arc = ground.arc(from, to);
            let rest = self.rest_behind(order, place);
            let numbers = gaps.stations(ground, from, to);
            self.work = self.work.wrapping_add(numbers.len() as u64);
            let asked = Stretch {
                from,
                to,
                left: ground.full.saturating_sub(gone),
                others: whole.time.wrapping_sub(arc.time),
                cost: ground
                    .worth
                    .wrapping_mul(whole.energy.wrapping_sub(arc.energy))
                    .wrapping_add(whole.time.wrapping_sub(arc.time)),
                rest: rest.energy,
            };
            best = least_in(ground, numbers, asked, best.unwrap_or(bar)).or(best);
            gone = gone.saturating_add(arc.energy);
            if gone > ground.full {
                break;
            }
            from = to;
        }
        best
    }

    /// The least time by labels, where it is below a bar.
    fn by_labels(
        &mut self,
        ground: &Ground,
        gaps: &Gaps,
        order: &[usize],
        bar: u64,
    ) -> Result<Option<u64>, AllocError> {
        self.begin(ground)?;
        let worth_full = ground.worth.wrapping_mul(ground.full);
        let mut from = ground.depot;
        for place in 0..=order.len() {
            let to = order.get(place).copied().unwrap_or(ground.depot);
            let rest = self.rest_behind(order, place);
            let is_home = place == order.len();
            let gap = Gap {
                from,
                to,
                latest: bar.saturating_sub(1).saturating_sub(rest.time),
                need: if is_home {
                    0
                } else {
                    gaps.need(to).min(rest.energy)
                },
                rest: rest
                    .time
                    .wrapping_add(ground.worth.wrapping_mul(rest.energy)),
                bar: bar.wrapping_add(worth_full),
            };
            self.cross(ground, gaps, &gap)?;
            if self.labels.is_empty() {
                return Ok(None);
            }
            from = to;
        }
        match self.earliest() {
            Some(time) if time < bar => Ok(Some(time)),
            _ => Ok(None),
        }
    }

    /// A full vehicle at the depot.
    fn begin(&mut self, ground: &Ground) -> Result<(), AllocError> {
        self.points.clear();
        self.labels.clear();
        self.points.push(Point {
            level: ground.full,
            time: 0,
        })?;
        self.labels.push(Span { begin: 0, end: 1 })?;
        Ok(())
    }

    /// The least time of the labels.
    fn earliest(&self) -> Option<u64> {
        let mut least = None;
        for label in &self.labels {
            if let Some(first) = part(&self.points, *label).first() {
                least = Some(first.time.min(least.unwrap_or(first.time)));
            }
        }
        least
    }

    /// Takes the labels from one end of a gap to the other.
    fn cross(&mut self, ground: &Ground, gaps: &Gaps, gap: &Gap) -> Result<(), AllocError> {
        self.next.clear();
        self.plugged.clear();
        for index in 0..self.labels.len() {
            let Some(label) = self.labels.get(index).copied() else {
                break;
            };
            self.arrive(ground, gap, label, gap.from)?;
        }
        for index in 0..self.labels.len() {
            let Some(label) = self.labels.get(index).copied() else {
                break;
            };
            self.plug_between(ground, gaps, gap, label)?;
        }
        self.go_on_from_stations(ground, gap)?;
        self.labels.clear();
        self.labels.extend_from_slice(&self.next)?;
        Ok(())
    }

    /// Takes the labels at stations to the end of a gap, and to further stations.
    fn go_on_from_stations(&mut self, ground: &Ground, gap: &Gap) -> Result<(), AllocError> {
        if self.plugged.is_empty() {
            self.plug_anywhere(ground, gap)?;
        }
        for index in 0..MOST_PLUGGED {
            let Some(plugged) = self.plugged.get(index).copied() else {
                break;
            };
            let place = ground.station_place(plugged.number);
            self.arrive(ground, gap, plugged.span, place)?;
            self.plug_anew(ground, gap, plugged.span, place)?;
        }
        Ok(())
    }

    /// Takes a label from the beginning of a gap to the stations of use in it. The least detour
    /// stands first: behind one that promises no time below the bar none does.
    fn plug_between(
        &mut self,
        ground: &Ground,
        gaps: &Gaps,
        gap: &Gap,
        label: Span,
    ) -> Result<(), AllocError> {
        let promise = self.promise(ground, label);
        for number in gaps.stations(ground, gap.from, gap.to) {
            if !self.plug(ground, gap, label, promise, gap.from, *number)? {
                break;
            }
        }
        Ok(())
    }

    /// Takes a label from a place to any station.
    fn plug_anew(
        &mut self,
        ground: &Ground,
        gap: &Gap,
        label: Span,
        from: usize,
    ) -> Result<(), AllocError> {
        let promise = self.promise(ground, label);
        let direct = ground.arc(from, gap.to);
        let least = promise
            .least
            .wrapping_add(ground.cost(direct))
            .wrapping_add(direct.detour);
        // A detour of 0 may be one that takes less than the direct way.
        if direct.detour > 0 && least.wrapping_add(gap.rest) >= gap.bar {
            return Ok(());
        }
        for number in 0..ground.stations.len() {
            self.plug(ground, gap, label, promise, from, number)?;
        }
        Ok(())
    }

    /// What a label promises.
    fn promise(&self, ground: &Ground, label: Span) -> Promise {
        let own = part(&self.points, label);
        Promise {
            least: least_lateness(ground, own),
            top: own.last().map_or(0, |last| last.level),
        }
    }

    /// Takes labels that can't come to the end of a gap to any station.
    fn plug_anywhere(&mut self, ground: &Ground, gap: &Gap) -> Result<(), AllocError> {
        let least = ground.arc(gap.from, gap.to).energy.wrapping_add(gap.need);
        for index in 0..self.labels.len() {
            let Some(label) = self.labels.get(index).copied() else {
                break;
            };
            if self.promise(ground, label).top < least {
                self.plug_anew(ground, gap, label, gap.from)?;
            }
        }
        Ok(())
    }

    /// Takes a label from a place to the end of a gap.
    fn arrive(
        &mut self,
        ground: &Ground,
        gap: &Gap,
        label: Span,
        from: usize,
    ) -> Result<(), AllocError> {
        let arc = ground.arc(from, gap.to);
        let own = part(&self.points, label);
        drive(own, arc.energy, arc.time, gap.latest, &mut self.made)?;
        let Some(last) = self.made.last() else {
            return Ok(());
        };
        let promises = least_lateness(ground, &self.made).wrapping_add(gap.rest) < gap.bar;
        if last.level >= gap.need && promises {
            self.add_made()?;
        }
        Ok(())
    }

    /// Adds the label that was made to those at the end of a gap, where none covers it.
    fn add_made(&mut self) -> Result<(), AllocError> {
        for label in &self.next {
            if covers(part(&self.points, *label), &self.made) {
                return Ok(());
            }
        }
        let mut kept = 0;
        for index in 0..self.next.len() {
            let Some(label) = self.next.get(index).copied() else {
                break;
            };
            if !covers(&self.made, part(&self.points, label)) {
                if let Some(own) = self.next.get_mut(kept) {
                    *own = label;
                }
                kept = kept.saturating_add(1);
            }
        }
        self.next.truncate(kept);
        let span = keep(&mut self.points, &self.made)?;
        self.next.push(span)?;
        self.work = self.work.wrapping_add(LABEL_WORK);
        Ok(())
    }

    /// Takes a label from a place to a station, and charges it there from each level from which
    /// that pays. Whether that way promises a time below the bar.
    fn plug(
        &mut self,
        ground: &Ground,
        gap: &Gap,
        label: Span,
        promise: Promise,
        from: usize,
        number: usize,
    ) -> Result<bool, AllocError> {
        let place = ground.station_place(number);
        let (there, on) = (ground.arc(from, place), ground.arc(place, gap.to));
        let onward = ground.cost(on).wrapping_add(gap.rest);
        let least = promise.least.wrapping_add(ground.cost(there));
        if least.wrapping_add(onward) >= gap.bar {
            return Ok(false);
        }
        if promise.top < there.energy || gap.latest < on.time {
            return Ok(true);
        }
        let latest = gap.latest - on.time;
        let own = part(&self.points, label);
        drive(own, there.energy, there.time, latest, &mut self.made)?;
        let most = gap.bar.saturating_sub(onward);
        self.charge(ground, number, latest, most)?;
        Ok(true)
    }

    /// Charges the label that was made at a station from each level from which that pays.
    fn charge(
        &mut self,
        ground: &Ground,
        number: usize,
        latest: u64,
        most: u64,
    ) -> Result<(), AllocError> {
        let Some(station) = ground.stations.get(number) else {
            return Ok(());
        };
        let mut before: Option<(u64, u64)> = None;
        for index in 0..self.made.len() {
            let Some(start) = self.made.get(index).copied() else {
                break;
            };
            let from_empty = time_at(&station.curve, start.level);
            let pays = match before {
                Some((time, charge)) => {
                    start.time.wrapping_sub(time) < from_empty.wrapping_sub(charge)
                }
                None => true,
            };
            before = Some((start.time, from_empty));
            if pays && lateness(ground, start) < most {
                self.charge_from(
                    number,
                    &station.curve,
                    station.plug,
                    start,
                    from_empty,
                    latest,
                )?;
            }
        }
        Ok(())
    }

    /// Charges from a level, and keeps that label where none at the station covers it.
    fn charge_from(
        &mut self,
        number: usize,
        curve: &[Point],
        plug: u64,
        start: Point,
        from_empty: u64,
        latest: u64,
    ) -> Result<(), AllocError> {
        let ready = start.time.wrapping_add(plug);
        let base = ready.wrapping_sub(from_empty);
        self.charged.clear();
        self.charged.push(Point {
            level: start.level,
            time: ready,
        })?;
        for point in curve {
            if point.level > start.level {
                self.charged.push(Point {
                    level: point.level,
                    time: base.wrapping_add(point.time),
                })?;
            }
        }
        cut_late(&mut self.charged, latest);
        if self.charged.is_empty() || self.was_there(number) {
            return Ok(());
        }
        let span = keep(&mut self.points, &self.charged)?;
        self.plugged.push(Plugged { span, number })?;
        self.work = self.work.wrapping_add(LABEL_WORK);
        Ok(())
    }

    /// Whether a label at a station covers the one that was charged.
    fn was_there(&self, number: usize) -> bool {
        for plugged in &self.plugged {
            if plugged.number == number && covers(part(&self.points, plugged.span), &self.charged) {
                return true;
            }
        }
        false
    }
}

/// A stretch of a route on which a vehicle may charge once.
#[derive(Clone, Copy)]
struct Stretch {
    from: usize,
    to: usize,
    /// The level at its beginning.
    left: u64,
    /// The time of the other arcs of the route.
    others: u64,
    /// That and what their energy is worth.
    cost: u64,
    /// The energy of the arcs behind it.
    rest: u64,
}

/// The least time with one of these stations on a stretch, where it is below a bar. The least
/// detour stands first, and what is charged takes what it is worth at least.
fn least_in(ground: &Ground, numbers: &[usize], asked: Stretch, bar: u64) -> Option<u64> {
    let worth_full = ground.worth.wrapping_mul(ground.full);
    let mut best = None;
    for number in numbers {
        let place = ground.station_place(*number);
        let (there, on) = (ground.arc(asked.from, place), ground.arc(place, asked.to));
        let over = ground.cost(there).wrapping_add(ground.cost(on));
        if asked.cost.wrapping_add(over) >= best.unwrap_or(bar).wrapping_add(worth_full) {
            break;
        }
        let driving = asked.others.wrapping_add(there.time).wrapping_add(on.time);
        let needed = on.energy.saturating_add(asked.rest);
        if driving >= best.unwrap_or(bar) || there.energy > asked.left || needed > ground.full {
            continue;
        }
        let Some(station) = ground.stations.get(*number) else {
            continue;
        };
        let level = asked.left - there.energy;
        let mut time = driving;
        if needed > level {
            let charging = time_at(&station.curve, needed)
                .wrapping_sub(time_at(&station.curve, level))
                .wrapping_add(station.plug);
            time = time.wrapping_add(charging);
        }
        if time < best.unwrap_or(bar) {
            best = Some(time);
        }
    }
    best
}

/// The points of a label.
fn part(points: &[Point], span: Span) -> &[Point] {
    points.get(span.begin..span.end).unwrap_or(&[])
}

/// Puts points behind the others, where a label may find them.
fn keep(points: &mut Vec<Point>, made: &[Point]) -> Result<Span, AllocError> {
    let begin = points.len();
    points.extend_from_slice(made)?;
    Ok(Span {
        begin,
        end: points.len(),
    })
}

/// A time, and what is lacking to a full battery is worth.
fn lateness(ground: &Ground, point: Point) -> u64 {
    let lacking = ground.full.wrapping_sub(point.level);
    point.time.wrapping_add(ground.worth.wrapping_mul(lacking))
}

/// The least of a label's times and what is lacking to a full battery is worth.
fn least_lateness(ground: &Ground, points: &[Point]) -> u64 {
    let mut least = NEVER;
    for point in points {
        least = least.min(lateness(ground, *point));
    }
    least
}
