//! Routes while they are made cheaper.

/// The order in which a vehicle serves its customers, and the scaled time of a fastest plan for it;
/// 0 where it serves none.
#[derive(Drop)]
pub(crate) struct Route {
    pub(crate) order: Vec<usize>,
    pub(crate) time: u64,
}
