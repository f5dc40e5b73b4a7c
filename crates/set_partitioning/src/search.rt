//! A depth-first search for candidates that serve each customer once. It is counted, and nothing
//! rests on what it finds: the judge says whether it is a partition.

use crate::candidate::Candidate;
use crate::choices::{Choice, choices_by_customer, is_among};
use std::alloc::{AllocError, Global};

/// After how many steps the search ends.
const STEPS: u64 = 1 << 24;

/// The search: the customers who wait, one below another, and what is taken.
#[derive(Drop)]
struct Partition {
    /// For each customer, by number, the choices that serve him, by rising excess.
    by_customer: Vec<Vec<Choice>>,
    levels: Vec<Level>,
    /// The places of the candidates that are taken.
    taken: Vec<usize>,
    /// The places of those that were found last to serve each customer.
    found: Vec<usize>,
    /// What the excess of a choice that is worth it is below.
    room: i128,
    /// How many candidates may still be looked at.
    looks: u64,
}

/// A customer who is served next.
#[derive(Clone, Copy)]
struct Level {
    customer: usize,
    /// The place among his choices from which on they are tried.
    next: usize,
    /// Who is served already.
    served: u128,
    /// The excess of what is taken already.
    excess: i128,
}

/// The places of candidates that serve each of so many customers once, and whose excesses come to
/// less than `room`; none where so many looks at candidates find no such choice.
pub(crate) fn search(
    alloc: Global,
    candidates: &[Candidate],
    customers: usize,
    room: i128,
    looks: u64,
) -> Result<Vec<usize>, AllocError> {
    let mut partition = Partition {
        by_customer: choices_by_customer(alloc, candidates, customers, room)?,
        levels: Vec::new(alloc),
        taken: Vec::new(alloc),
        found: Vec::new(alloc),
        room,
        looks,
    };
    partition.run(alloc)?;
    Ok(partition.found)
}

impl Partition {
    /// Takes steps until there is none, or the count is over.
    fn run(&mut self, alloc: Global) -> Result<(), AllocError> {
        self.enter(alloc, 0, 0)?;
        for _ in 0..STEPS {
            if self.looks == 0 || !self.step(alloc)? {
                return Ok(());
            }
        }
        Ok(())
    }

    /// Tries the next choice of the last customer, or gives him up. Whether there is one.
    fn step(&mut self, alloc: Global) -> Result<bool, AllocError> {
        let Some(level) = self.levels.pop() else {
            return Ok(false);
        };
        match self.next_of(&level) {
            Some((place, choice)) => {
                self.levels.push(Level {
                    next: place.saturating_add(1),
                    ..level
                })?;
                self.taken.push(choice.at)?;
                let excess = level.excess.saturating_add(choice.excess);
                self.enter(alloc, level.served | choice.served, excess)?;
            }
            None => {
                self.taken.pop();
            }
        }
        Ok(true)
    }

    /// Goes on to the customer with the fewest choices, once these are served. Where one has none,
    /// or all are served, the last choice is given back.
    fn enter(&mut self, alloc: Global, served: u128, excess: i128) -> Result<(), AllocError> {
        match self.rarest(served, excess) {
            Rarest::Customer(customer) => {
                self.levels.push(Level {
                    customer,
                    next: 0,
                    served,
                    excess,
                })?;
                return Ok(());
            }
            Rarest::AllServed => {
                self.room = excess;
                let mut found = Vec::with_capacity(alloc, self.taken.len())?;
                found.extend_from_slice(&self.taken)?;
                self.found = found;
            }
            Rarest::Stuck => {}
        }
        self.taken.pop();
        Ok(())
    }

    /// The first choice of a customer from the place on that may be taken, with its place.
    fn next_of(&mut self, level: &Level) -> Option<(usize, Choice)> {
        let choices = self.by_customer.get(level.customer)?;
        let least = self.room.saturating_sub(level.excess);
        for place in level.next..choices.len() {
            self.looks = self.looks.saturating_sub(1);
            let choice = choices[place];
            if choice.excess >= least {
                return None;
            }
            if choice.served & level.served == 0 {
                return Some((place, choice));
            }
        }
        None
    }

    /// Of the customers who aren't served the one with the fewest choices that may be taken.
    fn rarest(&mut self, served: u128, excess: i128) -> Rarest {
        let mut rarest = Rarest::AllServed;
        let mut fewest = usize::MAX;
        for customer in 0..self.by_customer.len() {
            if is_among(served, customer) {
                continue;
            }
            let count = self.choices(customer, served, excess, fewest);
            if count == 0 {
                return Rarest::Stuck;
            }
            if count < fewest {
                fewest = count;
                rarest = Rarest::Customer(customer);
            }
        }
        rarest
    }

    /// How many choices of the customer may be taken, counted up to so many.
    fn choices(&mut self, customer: usize, served: u128, excess: i128, most: usize) -> usize {
        let least = self.room.saturating_sub(excess);
        let mut count = 0usize;
        let mut looks = 0u64;
        let Some(choices) = self.by_customer.get(customer) else {
            return 0;
        };
        for choice in choices {
            looks = looks.saturating_add(1);
            if count >= most || choice.excess >= least {
                break;
            }
            if choice.served & served == 0 {
                count = count.saturating_add(1);
            }
        }
        self.looks = self.looks.saturating_sub(looks);
        count
    }
}

/// What is left to be served.
#[derive(Clone, Copy)]
enum Rarest {
    /// Each customer is served.
    AllServed,
    /// The customer with the fewest choices.
    Customer(usize),
    /// A customer whom none of the choices serves.
    Stuck,
}
