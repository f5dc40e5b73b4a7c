//! Who watches an improvement.

use crate::route::Route;

/// How far an improvement is.
#[derive(Clone, Copy, Debug, PartialEq, Eq)]
pub struct MoveProgress {
    /// How many moves were made, joins of routes among them.
    pub moves: u64,
    /// The scaled cost of the routes.
    pub cost: u128,
}

/// Who is told how far an improvement is. Nothing is promised of it, and the plan doesn't depend on
/// it.
pub trait MoveWatcher {
    /// Is told how far the improvement is, once behind each pair of routes or of customers that was
    /// looked at, whether a move was made or not.
    fn watch_moves(&mut self, progress: MoveProgress);
}

/// Nobody.
#[derive(Drop)]
pub struct Nobody {}

impl MoveWatcher for Nobody {
    fn watch_moves(&mut self, _progress: MoveProgress) {}
}

/// How far an improvement is, and who is told.
#[derive(Drop)]
pub(crate) struct Course<'a, W: MoveWatcher> {
    watcher: &'a mut W,
    progress: MoveProgress,
}

impl<'a, W: MoveWatcher> Course<'a, W> {
    /// No move was made of these routes yet.
    pub(crate) fn new(watcher: &'a mut W, routes: &[Route]) -> Self {
        let progress = MoveProgress {
            moves: 0,
            cost: cost_of(routes),
        };
        Course { watcher, progress }
    }

    /// Counts a move, which left these routes.
    pub(crate) fn moved(&mut self, routes: &[Route]) {
        self.progress.moves = self.progress.moves.saturating_add(1);
        self.progress.cost = cost_of(routes);
    }

    /// Tells how far the improvement is.
    pub(crate) fn tell(&mut self) {
        self.watcher.watch_moves(self.progress);
    }
}

/// What the routes take together. It is told to who watches, and nothing rests on it.
fn cost_of(routes: &[Route]) -> u128 {
    let mut cost: u128 = 0;
    for route in routes {
        cost = cost.saturating_add(u128::from(route.time));
    }
    cost
}
