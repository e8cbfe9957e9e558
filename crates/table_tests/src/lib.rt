//! Tests of columns, rows, elimination and the pages of a table file, with worked values.
//!
//! They stand above the crates that they try, since a crate with tests of its own is proved twice.
#![tactic(auto)]

#[cfg(test)]
mod certificates;
#[cfg(test)]
mod columns;
#[cfg(test)]
mod elimination;
#[cfg(test)]
mod fraction_texts;
#[cfg(test)]
mod held_rows;
#[cfg(test)]
mod made_rows;
#[cfg(test)]
mod pages;
#[cfg(test)]
mod printed;
#[cfg(test)]
mod rewriting;
#[cfg(test)]
mod rows;
