//! The routes that are known, and the master problem over some of them. No clause rests on this.

use crate::choice::Choice;
use crate::numbers::at;
use crate::question::{EntryRange, KnownRoute};
use crate::routes::{Route, Standing};
use cover_prices::{Cover, Row, Sense};
use near_completion::{Follow, NearTerms};
use std::alloc::{AllocError, Global};

/// A column stands in the optimum that is taken to more than a millionth, in units of 2^-32: what
/// is less comes of rounding in fixed point.
const LEAST_AMOUNT: i64 = 4295;

/// The routes that are known, and the master problem over some of them.
#[derive(Drop)]
pub(crate) struct Pool {
    pub(crate) customers: usize,
    pub(crate) entries: Vec<EntryRange>,
    /// How often a customer is served.
    pub(crate) sense: Sense,
    /// What it costs to cover a row once without a route, weighted.
    pub(crate) dearest: u64,
    /// The weight of a unit of scaled time.
    pub(crate) weight: u32,
    pub(crate) routes: Vec<Route>,
    pub(crate) cover: Cover,
    /// How many columns there are.
    columns: usize,
}

impl Pool {
    /// No route is known. Covering a row once without one costs so much, weighted.
    pub(crate) fn new(
        alloc: Global,
        customers: usize,
        entries: Vec<EntryRange>,
        sense: Sense,
        dearest: u64,
        weight: u32,
    ) -> Result<Pool, AllocError> {
        let rows = all_rows(alloc, customers, &entries, sense)?;
        Ok(Pool {
            customers,
            entries,
            sense,
            dearest,
            weight,
            routes: Vec::new(alloc),
            cover: Cover::with_rows(alloc, &rows, dearest)?,
            columns: 0,
        })
    }

    /// A route that waits.
    pub(crate) fn route(
        &self,
        alloc: Global,
        order: Vec<usize>,
        time: u64,
    ) -> Result<Route, AllocError> {
        Route::new(
            alloc,
            self.customers,
            &self.entries,
            order,
            time,
            self.weight,
        )
    }

    /// Lets all routes be taken again: those that are columns stay so, others wait.
    pub(crate) fn begin_again(&mut self, alloc: Global) -> Result<(), AllocError> {
        let rows = all_rows(alloc, self.customers, &self.entries, self.sense)?;
        self.cover = Cover::with_rows(alloc, &rows, self.dearest)?;
        self.cover.refine();
        self.columns = 0;
        for place in 0..self.routes.len() {
            self.begin_again_at(alloc, place)?;
        }
        Ok(())
    }

    /// Lets the route at a place be taken again.
    fn begin_again_at(&mut self, alloc: Global, place: usize) -> Result<(), AllocError> {
        let Some(route) = self.routes.get_mut(place) else {
            return Ok(());
        };
        match route.standing {
            Standing::Column(_) => self.enter(alloc, place),
            Standing::Waiting | Standing::Banned => {
                route.standing = Standing::Waiting;
                Ok(())
            }
        }
    }

    /// The routes that are known.
    pub(crate) fn into_routes(self, alloc: Global) -> Result<Vec<KnownRoute>, AllocError> {
        let Pool {
            customers: _,
            entries: _,
            sense: _,
            dearest: _,
            weight: _,
            routes,
            cover: _,
            columns: _,
        } = self;
        let mut known = Vec::with_capacity(alloc, routes.len())?;
        for route in routes {
            known.push(route.into_known())?;
        }
        Ok(known)
    }

    /// How many columns there are.
    pub(crate) fn columns(&self) -> usize {
        self.columns
    }

    /// Lets a route wait.
    pub(crate) fn put(&mut self, route: Route) -> Result<(), AllocError> {
        self.routes.push(route)?;
        Ok(())
    }

    /// Puts a route behind the others, as a column.
    pub(crate) fn put_column(&mut self, alloc: Global, route: Route) -> Result<(), AllocError> {
        let place = self.routes.len();
        self.routes.push(route)?;
        self.enter(alloc, place)
    }

    /// Lets the route at a place be a column.
    fn enter(&mut self, alloc: Global, place: usize) -> Result<(), AllocError> {
        if let Some(route) = self.routes.get_mut(place) {
            self.cover.add_column(alloc, &route.services, route.cost)?;
            route.standing = Standing::Column(self.columns);
            self.columns = self.columns.saturating_add(1);
        }
        Ok(())
    }

    /// Lets routes that wait and earn by the prices be columns, those of least reduced cost first.
    /// How many.
    pub(crate) fn wake(&mut self, alloc: Global) -> Result<usize, AllocError> {
        let earning = self.earning(alloc)?;
        let mut choice = Choice::new(alloc, self.customers)?;
        for (_, place) in &earning {
            if choice.is_full() {
                break;
            }
            self.wake_at(alloc, *place, &mut choice)?;
        }
        Ok(choice.len())
    }

    /// Lets the route at a place be a column, where it is of use.
    fn wake_at(
        &mut self,
        alloc: Global,
        place: usize,
        choice: &mut Choice,
    ) -> Result<(), AllocError> {
        if let Some(route) = self.routes.get(place) {
            if choice.take(route)? {
                self.enter(alloc, place)?;
            }
        }
        Ok(())
    }

    /// The routes that wait and earn by the prices, with their reduced costs, the least one first.
    fn earning(&self, alloc: Global) -> Result<Vec<(i64, usize)>, AllocError> {
        let mut earning = Vec::new(alloc);
        for (place, route) in self.routes.iter().enumerate() {
            if route.standing == Standing::Waiting {
                let reduced = route.reduced_cost(self.cover.prices());
                if reduced < 0 {
                    earning.push((reduced, place))?;
                }
            }
        }
        earning.sort()?;
        Ok(earning)
    }

    /// To which amount a route is taken, in units of 2^-32.
    pub(crate) fn amount_of(&self, route: &Route) -> i64 {
        match route.standing {
            Standing::Column(column) => at(self.cover.amounts(), column),
            _ => 0,
        }
    }

    /// Whether a route stands in the optimum.
    pub(crate) fn is_used(&self, route: &Route) -> bool {
        self.amount_of(route) > LEAST_AMOUNT
    }

    /// Bans the routes that are no near routes any more.
    pub(crate) fn ban_others(&mut self, terms: &NearTerms) {
        for route in self.routes.iter_mut() {
            if route.is_open() && !route.is_near(terms) {
                ban(&mut self.cover, route);
            }
        }
    }

    /// Bans the routes on which somebody comes next who may not.
    pub(crate) fn ban_forbidden(&mut self, follow: &Follow) {
        for route in self.routes.iter_mut() {
            if route.is_open() && !route.is_allowed(follow) {
                ban(&mut self.cover, route);
            }
        }
    }
}

/// Bans a route.
pub(crate) fn ban(cover: &mut Cover, route: &mut Route) {
    if let Standing::Column(place) = route.standing {
        cover.ban(place);
    }
    route.standing = Standing::Banned;
}

/// The rows of the customers, and of each counted set two: so many entries at the least, and so
/// many at the most.
fn all_rows(
    alloc: Global,
    customers: usize,
    entries: &[EntryRange],
    sense: Sense,
) -> Result<Vec<Row>, AllocError> {
    let mut rows = vec![in alloc; Row { sense, count: 1 }; customers]?;
    for entry in entries {
        rows.push(Row {
            sense: Sense::AtLeast,
            count: i64::from(entry.least),
        })?;
        rows.push(Row {
            sense: Sense::AtMost,
            count: i64::from(entry.most),
        })?;
    }
    Ok(rows)
}
