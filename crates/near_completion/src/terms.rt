//! What near routes are judged by: prices, near sets, and classes of who was served last. No clause
//! rests on this.

ghost use Rattle.std.specs.Prelude.{◌≤◌, ◌^◌, unsigned_abs};

use crate::follow::{Counted, Follow, everybody, is_in, with, without};
use customer_sets::LargeSet;
use std::alloc::{AllocError, Global};

/// After whom a vehicle comes next.
#[derive(Clone, Copy, Debug, PartialEq, Eq)]
pub enum Last {
    /// It served nobody yet.
    Nobody,
    /// It served the customer with a number last.
    Customer(usize),
    /// Whom it served last is forgotten: everybody may come next, home too, and entering a counted
    /// set earns its price where that is no loss.
    Anybody,
}

/// Those served last after whom the same may come next and earn the same by counted sets.
#[derive(Drop)]
struct Class {
    next: LargeSet,
    /// Whether home may come next.
    home: bool,
    /// What each customer earns by counted sets when he comes next.
    extra: Vec<i64>,
}

/// What near routes are judged by. A customer that isn't there has the price 0, remembers nobody
/// and comes after nobody.
#[derive(Drop)]
pub struct NearTerms {
    customers: usize,
    weight: u32,
    prices: Vec<i64>,
    near: Vec<LargeSet>,
    first_near: Vec<LargeSet>,
    /// The class of each customer, by number.
    class_of: Vec<usize>,
    class_of_nobody: usize,
    class_of_anybody: usize,
    classes: Vec<Class>,
    /// By two classes, whether the first stands for the second.
    stands: Vec<Vec<bool>>,
}

impl Class {
    /// Tells what the next customer earns by counted sets; where that doesn't fit he may not come.
    fn push_extra(&mut self, customer: usize, extra: Option<i64>) -> Result<(), AllocError> {
        if extra.is_none() {
            self.next = without(self.next, customer);
        }
        self.extra.push(extra.unwrap_or(0))?;
        Ok(())
    }
}

impl NearTerms {
    /// The terms of those who may follow each other, with a weight of time. Each price is 0, and each
    /// near set the customer alone. A customer for whom the sum of entry prices doesn't fit comes
    /// after nobody.
    pub fn new(alloc: Global, weight: u32, follow: &Follow) -> Result<NearTerms, AllocError> {
        let customers = follow.customers();
        let mut classes = Vec::new(alloc);
        let mut class_of = Vec::with_capacity(alloc, customers)?;
        for customer in 0..customers {
            let class = class_after(alloc, follow, Last::Customer(customer))?;
            class_of.push(place_of(&mut classes, class)?)?;
        }
        let nobody = class_after(alloc, follow, Last::Nobody)?;
        let class_of_nobody = place_of(&mut classes, nobody)?;
        let anybody = class_after(alloc, follow, Last::Anybody)?;
        let class_of_anybody = place_of(&mut classes, anybody)?;
        let near = own_sets(alloc, customers)?;
        Ok(NearTerms {
            customers,
            weight,
            prices: vec![in alloc; 0; customers]?,
            first_near: near.clone()?,
            near,
            class_of,
            class_of_nobody,
            class_of_anybody,
            stands: all_stands(alloc, &classes)?,
            classes,
        })
    }

    /// How many customers there are.
    pub fn customers(&self) -> usize {
        self.customers
    }

    /// The weight of a unit of scaled time.
    pub fn weight(&self) -> u32 {
        self.weight
    }

    /// How many classes there are of those served last.
    pub fn classes(&self) -> usize {
        self.classes.len()
    }

    /// The class of those served last.
    pub fn class_of(&self, last: Last) -> usize {
        match last {
            Last::Nobody => self.class_of_nobody,
            Last::Customer(customer) => self.class_of.get(customer).copied().unwrap_or(0),
            Last::Anybody => self.class_of_anybody,
        }
    }

    /// What serving a customer earns.
    pub fn price(&self, customer: usize) -> i64 {
        self.prices.get(customer).copied().unwrap_or(0)
    }

    /// Sets what serving a customer earns.
    pub fn set_price(&mut self, customer: usize, price: i64) {
        if let Some(own) = self.prices.get_mut(customer) {
            *own = price;
        }
    }

    /// The prices, by customer.
    pub fn prices(&self) -> &[i64] {
        self.prices.as_slice()
    }

    /// Whom a vehicle that serves a customer goes on to remember, himself among them.
    pub fn near(&self, customer: usize) -> LargeSet {
        self.near
            .get(customer)
            .copied()
            .unwrap_or(LargeSet::empty())
    }

    /// Sets whom a vehicle that serves a customer goes on to remember. He himself joins them.
    pub fn set_near(&mut self, customer: usize, set: LargeSet) {
        if let Some(own) = self.near.get_mut(customer) {
            *own = with(set, customer);
        }
    }

    /// The set with which the near set of a customer began.
    pub fn first_near(&self, customer: usize) -> LargeSet {
        self.first_near
            .get(customer)
            .copied()
            .unwrap_or(LargeSet::empty())
    }

    /// Sets the set with which the near set of a customer began. He himself joins it.
    pub fn set_first_near(&mut self, customer: usize, set: LargeSet) {
        if let Some(own) = self.first_near.get_mut(customer) {
            *own = with(set, customer);
        }
    }

    /// Whether a customer may come next after a class.
    pub fn may_follow(&self, class: usize, customer: usize) -> bool {
        match self.classes.get(class) {
            Some(class) => is_in(class.next, customer),
            None => false,
        }
    }

    /// Whether home may come next after a class.
    pub fn may_end(&self, class: usize) -> bool {
        match self.classes.get(class) {
            Some(class) => class.home,
            None => false,
        }
    }

    /// What serving a customer earns after a class, by his price and by counted sets.
    pub fn gain(&self, class: usize, customer: usize) -> i128
        ensures { unsigned_abs result ≤ 2 ^ 64 }
    {
        i128::from(self.price(customer)) + i128::from(self.extra(class, customer))
    }

    /// What serving a customer earns after a class by counted sets.
    fn extra(&self, class: usize, customer: usize) -> i64 {
        match self.classes.get(class) {
            Some(class) => class.extra.get(customer).copied().unwrap_or(0),
            None => 0,
        }
    }

    /// Whether a class stands for another: it is the same, or all who may come next after the other
    /// may come after it, and earn no less.
    pub fn stands_for(&self, class: usize, other: usize) -> bool {
        match self.stands.get(class) {
            Some(row) => row.get(other).copied().unwrap_or(false),
            None => false,
        }
    }

    /// Whom a vehicle remembers that served a customer, by whom it remembered before.
    pub fn after(&self, memory: LargeSet, customer: usize) -> LargeSet {
        with(memory.common(self.near(customer)), customer)
    }
}

/// The set of each customer alone.
fn own_sets(alloc: Global, customers: usize) -> Result<Vec<LargeSet>, AllocError> {
    let mut sets = Vec::with_capacity(alloc, customers)?;
    for customer in 0..customers {
        sets.push(with(LargeSet::empty(), customer))?;
    }
    Ok(sets)
}

/// The class of those served last, by itself.
fn class_after(alloc: Global, follow: &Follow, last: Last) -> Result<Class, AllocError> {
    let (next, home) = match last {
        Last::Nobody => (follow.next_of(None), !follow.tells_nobody()),
        Last::Customer(customer) => (
            follow.next_of(Some(customer)),
            follow.allows(Some(customer), None),
        ),
        Last::Anybody => (everybody(follow.customers()), true),
    };
    let mut class = Class {
        next,
        home,
        extra: Vec::with_capacity(alloc, follow.customers())?,
    };
    let inside = sets_of(alloc, follow.counted(), last)?;
    for customer in 0..follow.customers() {
        let extra = extra_of(follow.counted(), &inside, customer);
        class.push_extra(customer, extra)?;
    }
    Ok(class)
}

/// For each counted set, whether those served last are in it; none for anybody.
fn sets_of(alloc: Global, counted: &[Counted], last: Last) -> Result<Vec<bool>, AllocError> {
    let mut inside = Vec::new(alloc);
    for one in counted {
        match last {
            Last::Nobody => inside.push(false)?,
            Last::Customer(customer) => inside.push(is_in(one.set, customer))?,
            Last::Anybody => {}
        }
    }
    Ok(inside)
}

/// What a customer earns by counted sets, after one who is in these or, where none is told, after
/// anybody. `None` where the sum doesn't fit.
fn extra_of(counted: &[Counted], inside: &[bool], customer: usize) -> Option<i64> {
    let mut sum: i64 = 0;
    for (place, one) in counted.iter().enumerate() {
        if is_in(one.set, customer) {
            let earned = match inside.get(place) {
                Some(true) => 0,
                Some(false) => one.price,
                None => one.price.max(0),
            };
            sum = sum.checked_add(earned)?;
        }
    }
    Some(sum)
}

/// The place of a class, which joins the others where none is the same.
fn place_of(classes: &mut Vec<Class>, class: Class) -> Result<usize, AllocError> {
    for (place, other) in classes.iter().enumerate() {
        if is_same(other, &class) {
            return Ok(place);
        }
    }
    let place = classes.len();
    classes.push(class)?;
    Ok(place)
}

/// Whether the same may come next after two classes and earn the same.
fn is_same(one: &Class, other: &Class) -> bool {
    one.next == other.next && one.home == other.home && one.extra == other.extra
}

/// By two classes, whether the first stands for the second.
fn all_stands(alloc: Global, classes: &[Class]) -> Result<Vec<Vec<bool>>, AllocError> {
    let mut all = Vec::with_capacity(alloc, classes.len())?;
    for class in classes {
        let mut row = Vec::with_capacity(alloc, classes.len())?;
        for other in classes {
            row.push(does_stand(class, other))?;
        }
        all.push(row)?;
    }
    Ok(all)
}

/// Whether all who may come next after the other class may come after the class, and earn no less.
fn does_stand(class: &Class, other: &Class) -> bool {
    if !other.next.is_subset(class.next) || other.home && !class.home {
        return false;
    }
    for (customer, (own, its)) in class.extra.iter().zip(other.extra.iter()).enumerate() {
        if own < its && is_in(other.next, customer) {
            return false;
        }
    }
    true
}
