//! What is known of orders that were charged.

use std::alloc::{AllocError, Global};

/// How many orders are remembered, by their hashes; of two with the same place the later one.
const PLACES: usize = 1 << 18;

/// What is known of an order.
#[derive(Clone, Copy)]
struct Known {
    /// The hash of the order, 0 where nothing is known.
    hash: u64,
    /// Its time, or one that it isn't below.
    time: u64,
    is_exact: bool,
}

/// What the memory says of an order below a bar.
#[derive(Clone, Copy)]
pub(crate) enum Recalled {
    /// Its least time.
    Time(u64),
    /// That it has none below the bar.
    NotBelow,
    /// Nothing.
    Nothing,
}

/// What is known of orders that were charged.
#[derive(Drop)]
pub(crate) struct Memo {
    known: Vec<Known>,
}

impl Memo {
    pub(crate) fn new(alloc: Global) -> Result<Memo, AllocError> {
        let none = Known {
            hash: 0,
            time: 0,
            is_exact: false,
        };
        Ok(Memo {
            known: vec![in alloc; none; PLACES]?,
        })
    }

    /// What is known of the order with a hash, below a bar.
    pub(crate) fn recall(&self, hash: u64, bar: u64) -> Recalled {
        match self.known.get(place_of(hash)) {
            Some(known) if known.hash == hash => {
                if known.is_exact && known.time < bar {
                    Recalled::Time(known.time)
                } else if known.time >= bar {
                    Recalled::NotBelow
                } else {
                    Recalled::Nothing
                }
            }
            _ => Recalled::Nothing,
        }
    }

    /// Remembers what was found of the order with a hash, below a bar.
    pub(crate) fn remember(&mut self, hash: u64, bar: u64, found: Option<u64>) {
        if let Some(known) = self.known.get_mut(place_of(hash)) {
            *known = Known {
                hash,
                time: found.unwrap_or(bar),
                is_exact: found.is_some(),
            };
        }
    }
}

/// Where the order with a hash is remembered.
fn place_of(hash: u64) -> usize {
    (hash >> 20) as usize % PLACES
}

/// The hash of an order: never 0.
pub(crate) fn hash_of(order: &[usize]) -> u64 {
    let mut hash: u64 = 0x9E37_79B9_7F4A_7C15;
    for customer in order {
        hash = (hash ^ (*customer as u64).wrapping_add(1)).wrapping_mul(0xBF58_476D_1CE4_E5B9);
        hash ^= hash >> 29;
    }
    hash | 1
}

/// The hash of the customers of an order, whatever their order.
pub(crate) fn hash_of_set(order: &[usize]) -> u64 {
    let mut sum: u64 = 0;
    for customer in order {
        sum = sum.wrapping_add(hash_of(&[*customer]));
    }
    sum
}
