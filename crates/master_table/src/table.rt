//! The table: what it is, what its calls tell, and pivots.

ghost use Rattle.std.specs.Prelude.{◌≡◌, ◌≢◌, ◌+◌, ◌<◌, ◌≤◌, ◌^◌, ℕ, ℤ, pos, IfOk, IfErr, OnOk, OnErr, IsErrOf, Some, None, length, get_or};
ghost use Rattle.fleet_model.specs.Basis.{IsBasis};
ghost use Rattle.fleet_model.specs.Equations.{route};
ghost use Rattle.master_table.specs.Adding.{first_past_row, with_column};
ghost use Rattle.master_table.specs.FirstPast.{first_past};
ghost use Rattle.master_table.specs.Fresh.{fresh};
ghost use Rattle.master_table.specs.Pivoting.{pivoted, IsPivotOf};
ghost use Rattle.master_table.specs.RowView.{limits_of};
ghost use Rattle.master_table.specs.Solutions.{HaveSameSolutions};
ghost use Rattle.master_table.specs.Tableau.{basis_columns, entry_at, row_at, size, IsBasisPast, IsTableau, IsWithinCaps};

use crate::adding::{make_room, new_entries, past_row, push_entries};
use crate::caps::{Caps, TableFault};
use crate::fresh::{fresh_basis, fresh_rows};
use crate::rows::{Row, rows_after, turn_row};
use customer_sets::CustSet;
use std::alloc::Global;
use std::marker::Model;

/// A column that was added: its customers and what it costs.
#[derive(Drop)]
pub struct AddedColumn {
    pub set: CustSet,
    pub cost: u64,
}

/// The equations of a master problem, brought to the present basis by pivots.
///
/// There is a row for each customer, with whole coefficients of greatest common divisor 1: the body
/// equation of the row's basis column. Behind them stand the cost row, which is the price list of
/// the basis, and the helper row, which is its helper list. The first columns are the helpers, one
/// for each customer, and behind them stand the columns that were added. Contracts see the table as
/// a `Tableau`.
#[derive(Drop)]
pub struct Table {
    rows: Vec<Row>,
    basis: Vec<usize>,
    added: Vec<AddedColumn>,
    caps: Caps,
}

impl Model for Table {
    ghost use Rattle.master_table.specs.Tableau.{Tableau};

    ghost Value = { Tableau };

    ghost use Rattle.master_table.specs.TableView.{IsTable, tableau_of};

    ghost view = { tableau_of };

    ghost invariant = { IsTable };
}

impl Table {
    /// The table of `n` customers without a column but the helpers, which are its basis.
    pub fn new(alloc: Global, n: usize, caps: Caps) -> Result<Table, TableFault>
        requires customers { n ≤ 128 }
        requires body { 1 ≤ caps.body }
        requires body_cap { caps.body ≤ 2 ^ 40 }
        requires cost { 1 ≤ caps.cost }
        requires cost_cap { caps.cost ≤ 2 ^ 84 }
        requires room { n ≤ caps.cost }
        ensures value { IfOk result (λ t. t ≡ fresh n (limits_of caps)) }
        ensures memory { IfErr result (λ fault. fault ≡ TableFault.Memory) }
    {
        let rows = fresh_rows(alloc, n)?;
        let basis = fresh_basis(alloc, n)?;
        Ok(Table {
            rows,
            basis,
            added: Vec::new(alloc),
            caps,
        })
    }

    /// Adds a column with a 1 in the row of each customer of the set, brought to the present rows,
    /// and answers its number.
    ///
    /// `Wide` comes exactly where an entry of the column is past its cap, and names the first row
    /// with such an entry, and the column by the number that it would have. After a refusal the
    /// table is as before.
    pub fn add_column(&mut self, set: CustSet, cost: u64) -> Result<usize, TableFault>
        ensures number { IfOk result (λ col. col ≡ length self.old.columns) }
        ensures ok { OnOk result (self.new ≡ with_column (route set cost) self.old) }
        ensures within { OnOk result (first_past_row (route set cost) self.old ≡ None) }
        ensures wide { (row col : ℕ) → IsErrOf result (TableFault.Wide row col) →
            (first_past_row (route set cost) self.old ≡ Some row) ×
            (col ≡ length self.old.columns) }
        ensures unchanged { OnErr result (self.new ≡ self.old) }
        ensures tableau { IsTableau (with_column (route set cost) self.old) }
    {
        let alloc = *self.basis.allocator();
        let n = self.basis.len();
        let col = self.columns();
        let entries = new_entries(alloc, self.rows.as_slice(), n, set, cost)?;
        if let Some(row) = past_row(entries.as_slice(), self.caps, n) {
            return Err(TableFault::Wide { row, col });
        }
        make_room(&mut self.rows)?;
        self.added.reserve(1)?;
        push_entries(&mut self.rows, entries.as_slice());
        let pushed = self.added.push(AddedColumn { set, cost }).is_ok();
        prove!(pushed);
        Ok(col)
    }

    /// The entry of a row at a column. The row after the customers' is the cost row, the next one
    /// the helper row; the column after the last is the right side. It takes no memory.
    pub fn entry(&self, row: usize, col: usize) -> i128
        requires row { row < size self.now + 2 }
        requires col { col ≤ length self.now.columns }
        ensures entry { col < length self.now.columns → result ≡ entry_at self.now row col }
        ensures right { col ≡ length self.now.columns → result ≡ (row_at self.now row).right }
    {
        let row = &self.rows[row];
        if col < row.entries.len() {
            row.entries[col]
        } else {
            row.right
        }
    }

    /// The number of columns, helpers included. It takes no memory.
    pub fn columns(&self) -> usize
        ensures { result ≡ length self.now.columns }
    {
        self.basis.len() + self.added.len()
    }

    /// The basis column of a row. It takes no memory.
    pub fn basic(&self, row: usize) -> usize
        requires { row < size self.now }
        ensures value { result ≡ get_or self.now.basis row 0 }
        ensures column { result < length self.now.columns }
    {
        self.basis[row]
    }

    /// The weight of the cost row. It takes no memory.
    pub fn weight(&self) -> u64
        ensures value { pos result ≡ (row_at self.now (size self.now)).weight }
        ensures positive { 0 < result }
    {
        let weight = self.rows[self.basis.len()].weight;
        weight as u64
    }

    /// The number of customers. It takes no memory.
    pub fn rows(&self) -> usize
        ensures value { result ≡ size self.now }
        ensures small { result ≤ 128 }
        ensures tableau { IsTableau self.now }
        ensures basis { IsBasis (size self.now) (basis_columns self.now) }
        ensures within { IsWithinCaps self.now }
    {
        self.basis.len()
    }

    /// The caps that the table was made with. It takes no memory.
    pub fn caps(&self) -> Caps
        ensures value { limits_of result ≡ self.now.caps }
        ensures body { self.now.caps.body ≤ 2 ^ 40 }
        ensures cost { self.now.caps.cost ≤ 2 ^ 84 }
    {
        self.caps
    }

    /// Brings the column into the basis, in place of the row's basis column. Afterwards the column
    /// stands, among the customers' rows, in that row alone, with a coefficient above 0.
    ///
    /// `Wide` comes exactly where a number of the new rows is past its cap, and names the first.
    /// After a refusal the table is as before.
    pub fn pivot(&mut self, row: usize, col: usize) -> Result<(), TableFault>
        requires row { row < size self.old }
        requires col { col < length self.old.columns }
        requires entry { entry_at self.old row col ≢ pos 0 }
        ensures ok { OnOk result (self.new ≡ pivoted row col self.old) }
        ensures within { OnOk result (first_past (pivoted row col self.old) ≡ None) }
        ensures wide { (past_row past_col : ℕ) →
            IsErrOf result (TableFault.Wide past_row past_col) →
            first_past (pivoted row col self.old) ≡ Some (past_row, past_col) }
        ensures past { (past_row past_col : ℕ) →
            IsErrOf result (TableFault.Wide past_row past_col) →
            IsBasisPast (pivoted row col self.old) }
        ensures unchanged { OnErr result (self.new ≡ self.old) }
        ensures tableau { IsTableau (pivoted row col self.old) }
        ensures rows { IsPivotOf row col self.old (pivoted row col self.old) }
        ensures solutions { HaveSameSolutions self.old (pivoted row col self.old) }
    {
        let alloc = *self.basis.allocator();
        let n = self.basis.len();
        let turn = turn_row(alloc, &self.rows[row], col)?;
        let rows = rows_after(alloc, self.rows.as_slice(), n, row, col, &turn, self.caps)?;
        self.rows = rows;
        self.basis[row] = col;
        Ok(())
    }
}
