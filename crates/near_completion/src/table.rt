//! The table of what ways home can still earn. No clause rests on this.

use crate::cells::{Ahead, Bounds, Cell, NO_WAY, settle};
use crate::ground::Ground;
use crate::legs::{AllLegs, Legs};
use crate::plan::{Layers, Stranded};
use crate::terms::{Last, NearTerms};
use customer_sets::LargeSet;
use std::alloc::{AllocError, Global};

/// What ways home take at the least beyond what they earn.
#[derive(Clone, Copy, Debug, PartialEq, Eq)]
pub struct HomeCost {
    pub least: i64,
    /// The customer who is left out by that, of those remembered.
    pub known: Option<usize>,
}

/// What ways home take at the least beyond what they earn, by place, by class of those served last,
/// and by layer of the time left. It forgets who was served, but for whoever was last and the first
/// one of the best way on.
///
/// A vehicle's lateness is its time less what its level is worth; charging never lowers it. The
/// layer tells how much later it may be at the horizon.
#[derive(Drop)]
pub struct WayTable {
    customers: usize,
    layers: Layers,
    is_whole: bool,
    unit: u32,
    /// Those of the customers, by number and layer.
    at_customers: Vec<Vec<Cell>>,
    /// Those of the stations, by class, order and layer.
    at_stations: Vec<Vec<Vec<Cell>>>,
    /// Bounds by the first step, in units: of the customers by number and layer, of the stations by
    /// class, order and layer. None where they weren't asked for.
    from_customers: Vec<Vec<Vec<i32>>>,
    from_stations: Vec<Vec<Vec<Vec<i32>>>>,
}

/// What a table is made by.
#[derive(Drop)]
struct Making<'t> {
    terms: &'t NearTerms,
    legs: &'t AllLegs,
    stranded: Stranded,
    has_rows: bool,
    /// The bounds by the first step from a place, while they are reckoned.
    to_customers: Vec<i32>,
    to_stations: Vec<i32>,
}

impl WayTable {
    /// A table of about so many layers; `None` where it would be too large, or arcs take nothing.
    /// With rows it has bounds by the first step.
    pub fn new(
        alloc: Global,
        ground: &Ground,
        terms: &NearTerms,
        layers: usize,
        has_rows: bool,
    ) -> Result<Option<WayTable>, AllocError> {
        let Some(layers) = Layers::new(ground, terms, layers) else {
            return Ok(None);
        };
        let Some(mut legs) = AllLegs::new(alloc, ground, terms, layers.step)? else {
            return Ok(None);
        };
        let Some(stranded) = Stranded::new(&legs, layers.count) else {
            return Ok(None);
        };
        legs.scale(stranded.unit);
        let mut table = WayTable::empty(alloc, ground, terms, layers, stranded.unit)?;
        let customers = ground.customers();
        let stations = ground.depot().max(customers) - customers;
        let mut making = Making {
            terms,
            legs: &legs,
            stranded,
            has_rows,
            to_customers: vec![in alloc; NO_WAY; customers]?,
            to_stations: vec![in alloc; NO_WAY; stations]?,
        };
        for layer in 0..layers.count {
            table.push_layer(alloc, &mut making, layer)?;
        }
        Ok(Some(table))
    }

    /// A table without layers.
    fn empty(
        alloc: Global,
        ground: &Ground,
        terms: &NearTerms,
        layers: Layers,
        unit: u32,
    ) -> Result<WayTable, AllocError> {
        let customers = ground.customers();
        let stations = ground.depot().max(customers) - customers;
        let mut table = WayTable {
            customers,
            layers,
            is_whole: layers.horizon == ground.limit(),
            unit,
            at_customers: Vec::with_capacity(alloc, customers)?,
            at_stations: Vec::with_capacity(alloc, terms.classes())?,
            from_customers: Vec::with_capacity(alloc, customers)?,
            from_stations: Vec::with_capacity(alloc, terms.classes())?,
        };
        for _ in 0..customers {
            table.at_customers.push(Vec::new(alloc))?;
            table.from_customers.push(Vec::new(alloc))?;
        }
        for _ in 0..terms.classes() {
            table.push_class(alloc, stations)?;
        }
        Ok(table)
    }

    /// Makes room for the cells of stations after one class more.
    fn push_class(&mut self, alloc: Global, stations: usize) -> Result<(), AllocError> {
        let mut cells = Vec::with_capacity(alloc, stations)?;
        let mut rows = Vec::with_capacity(alloc, stations)?;
        for _ in 0..stations {
            cells.push(Vec::new(alloc))?;
            rows.push(Vec::new(alloc))?;
        }
        self.at_stations.push(cells)?;
        self.from_stations.push(rows)?;
        Ok(())
    }

    /// Appends a layer. Arcs to customers fall by one layer at the least, those to stations may
    /// stay: so stations come first, and settle among themselves.
    fn push_layer(
        &mut self,
        alloc: Global,
        making: &mut Making<'_>,
        layer: u32,
    ) -> Result<(), AllocError> {
        let legs = making.legs;
        for (class, rows) in legs.stations.iter().enumerate() {
            self.push_stations(alloc, making, rows, class, layer)?;
        }
        for (customer, row) in legs.customers.iter().enumerate() {
            self.push_customer(alloc, making, row, customer, layer)?;
        }
        Ok(())
    }

    /// Appends a layer to the cells of the stations after a class.
    fn push_stations(
        &mut self,
        alloc: Global,
        making: &mut Making<'_>,
        rows: &[Legs],
        class: usize,
        layer: u32,
    ) -> Result<(), AllocError> {
        let mut cells = Vec::with_capacity(alloc, rows.len())?;
        for legs in rows {
            cells.push(self.cell(making, legs, class, layer))?;
        }
        settle(&mut cells, rows);
        if let Some(stations) = self.at_stations.get_mut(class) {
            for (row, cell) in stations.iter_mut().zip(cells.iter()) {
                row.push(*cell)?;
            }
        }
        if making.has_rows {
            self.push_station_rows(alloc, making, rows, class, layer)?;
        }
        Ok(())
    }

    /// Appends the bounds by the first step of the stations after a class.
    fn push_station_rows(
        &mut self,
        alloc: Global,
        making: &mut Making<'_>,
        rows: &[Legs],
        class: usize,
        layer: u32,
    ) -> Result<(), AllocError> {
        for (station, legs) in rows.iter().enumerate() {
            self.cell(making, legs, class, layer);
            let bounds = making.bounds(alloc)?;
            if let Some(stations) = self.from_stations.get_mut(class) {
                if let Some(row) = stations.get_mut(station) {
                    row.push(bounds)?;
                }
            }
        }
        Ok(())
    }

    /// Appends a layer to the cells of a customer.
    fn push_customer(
        &mut self,
        alloc: Global,
        making: &mut Making<'_>,
        legs: &Legs,
        customer: usize,
        layer: u32,
    ) -> Result<(), AllocError> {
        let class = making.terms.class_of(Last::Customer(customer));
        let cell = self.cell(making, legs, class, layer);
        if let Some(row) = self.at_customers.get_mut(customer) {
            row.push(cell)?;
        }
        if making.has_rows {
            let bounds = making.bounds(alloc)?;
            if let Some(row) = self.from_customers.get_mut(customer) {
                row.push(bounds)?;
            }
        }
        Ok(())
    }

    /// The cell of a place in a layer; the bounds by the first step are reckoned for it.
    fn cell(&self, making: &mut Making<'_>, legs: &Legs, class: usize, layer: u32) -> Cell {
        let ahead = Ahead {
            customers: self.at_customers.as_slice(),
            stations: match self.at_stations.get(class) {
                Some(stations) => stations.as_slice(),
                None => &[],
            },
        };
        let stranded = making.stranded.at(layer);
        let mut bounds = Bounds {
            customers: making.to_customers.as_mut_slice(),
            stations: making.to_stations.as_mut_slice(),
        };
        ahead.cell(making.terms, legs, layer as usize, stranded, &mut bounds)
    }

    /// Whether all ways home are reckoned with that the limit allows.
    pub fn is_whole(&self) -> bool {
        self.is_whole
    }

    /// How many layers there are.
    pub fn layers(&self) -> usize {
        self.layers.count as usize
    }

    /// Bounds are multiples of it.
    pub fn unit(&self) -> u32 {
        self.unit
    }

    /// The layer of a lateness; `None` where it is past the horizon.
    pub fn layer(&self, lateness: i64) -> Option<usize> {
        let left = i128::from(self.layers.horizon) - i128::from(lateness);
        if left < 0 {
            return None;
        }
        let layers = match u64::try_from(left) {
            Ok(left) => left / self.layers.step.max(1),
            Err(_) => u64::MAX,
        };
        let last = u64::from(self.layers.count.max(1) - 1);
        Some(layers.min(last) as usize)
    }

    /// The least lateness in a layer, `None` where that is below 0.
    pub fn latest(&self, layer: usize) -> Option<u64> {
        self.layers.latest(layer)
    }

    /// What is known of the ways home from a place after a class, in a layer, that leave out those
    /// in a memory. `None` where there is no such place, class or layer.
    pub fn rest(
        &self,
        place: usize,
        class: usize,
        layer: usize,
        memory: LargeSet,
    ) -> Option<HomeCost> {
        let cell = self.cell_at(place, class, layer)?;
        let (least, known) = cell.without(memory);
        Some(HomeCost {
            least: i64::from(least) * i64::from(self.unit),
            known,
        })
    }

    /// The cell of a place after a class, in a layer.
    fn cell_at(&self, place: usize, class: usize, layer: usize) -> Option<&Cell> {
        if place < self.customers {
            return self.at_customers.get(place)?.get(layer);
        }
        let station = place - self.customers;
        self.at_stations.get(class)?.get(station)?.get(layer)
    }

    /// The bounds by the first step from a place after a class, in a layer, by the places where it
    /// leads, in units; none where there are none.
    pub fn row(&self, place: usize, class: usize, layer: usize) -> &[i32] {
        match self.row_at(place, class, layer) {
            Some(row) => row.as_slice(),
            None => &[],
        }
    }

    /// The bounds by the first step.
    fn row_at(&self, place: usize, class: usize, layer: usize) -> Option<&Vec<i32>> {
        if place < self.customers {
            return self.from_customers.get(place)?.get(layer);
        }
        let station = place - self.customers;
        self.from_stations.get(class)?.get(station)?.get(layer)
    }
}

impl Making<'_> {
    /// The bounds that were reckoned, by place.
    fn bounds(&self, alloc: Global) -> Result<Vec<i32>, AllocError> {
        let places = self
            .to_customers
            .len()
            .saturating_add(self.to_stations.len());
        let mut bounds = Vec::with_capacity(alloc, places)?;
        bounds.extend_from_slice(&self.to_customers)?;
        bounds.extend_from_slice(&self.to_stations)?;
        Ok(bounds)
    }
}
