//! Reduced and forward lists, told by their definitions.
ghost use Rattle.std.specs.Prelude.{◌≡◌, ◌≢◌, ℕ, ◌%◌, ◌<◌, ◌≤◌, ◌+◌, ◌↔◌, IsTrue, length, slice_index};
ghost use Rattle.zeta_model.specs.Modular.{Same};
ghost use Rattle.linear_model.specs.Tables.{entry_of};
ghost use Rattle.linear_model.specs.Reduced.{IsReduced};
ghost use Rattle.linear_model.specs.Forward.{IsForward};

use crate::rows::{entry, same};

/// Whether row `i` is zero before column `lead`, and 1 there.
fn begins_with_one(m: u64, width: usize, table: &[u64], i: usize, lead: usize) -> bool
    requires { 0 < m }
    ensures { IsTrue result ↔ (Same m (entry_of width table.now i lead) 1 × ((j : ℕ) → j < lead → Same m (entry_of width table.now i j) 0)) }
{
    for j in 0..lead {
        if !same(m, entry(width, table, i, j), 0) {
            return false;
        }
    }
    same(m, entry(width, table, i, lead), 1)
}

/// Whether row `i` is zero at the leads of the rows from `first` to below `end`.
fn is_zero_at_leads(
    m: u64,
    width: usize,
    leads: &[usize],
    table: &[u64],
    i: usize,
    first: usize,
    end: usize,
) -> bool
    requires modulus { 0 < m }
    requires places { end ≤ length leads.now }
    ensures { IsTrue result ↔ ((k : ℕ) → first ≤ k → k < end → Same m (entry_of width table.now i (slice_index leads.now k)) 0) }
{
    for k in first..end {
        if !same(m, entry(width, table, i, leads[k]), 0) {
            return false;
        }
    }
    true
}

/// Whether each lead is above the one before it.
fn leads_rise(leads: &[usize]) -> bool
    ensures { IsTrue result ↔ ((i k : ℕ) → i < k → k < length leads.now → slice_index leads.now i < slice_index leads.now k) }
{
    for k in 1..leads.len() {
        if leads[k] <= leads[k - 1] {
            return false;
        }
    }
    true
}

/// Whether the rows of a table, one for each of the leads, are a forward list with these leads, modulo `m`, which is at least 1.
/// The rows have `width` entries each.
pub fn is_forward(m: u64, width: usize, leads: &[usize], table: &[u64]) -> bool
    requires { 0 < m }
    ensures { IsTrue result ↔ IsForward m (length leads.now) (slice_index leads.now) (entry_of width table.now) }
{
    for i in 0..leads.len() {
        if !begins_with_one(m, width, table, i, leads[i]) {
            return false;
        }
        if !is_zero_at_leads(m, width, leads, table, i, 0, i) {
            return false;
        }
    }
    true
}

/// Whether the rows of a table, one for each of the leads, are a reduced list with these leads, modulo `m`, which is at least 1.
/// The rows have `width` entries each.
pub fn is_reduced(m: u64, width: usize, leads: &[usize], table: &[u64]) -> bool
    requires { 0 < m }
    ensures { IsTrue result ↔ IsReduced m (length leads.now) (slice_index leads.now) (entry_of width table.now) }
{
    if !leads_rise(leads) || !is_forward(m, width, leads, table) {
        return false;
    }
    for i in 0..leads.len() {
        if !is_zero_at_leads(m, width, leads, table, i, i + 1, leads.len()) {
            return false;
        }
    }
    true
}
