//! The check of the table in a file: that its pages fit their places, and that its final rows are complete.
//!
//! [`check_table`] reads the pages of a file, makes the table of its header, and decides its final rows by `cert_checker`; it answers the
//! table with its reduced rows, or the first test that the file fails. [`product_lead`] finds in such a table the row that leads with a
//! product, of a lead of a table of lower weight and a monomial. Contracts speak of pages by `page_codec` and `file_model`, and of rows and
//! verdicts by `table_model`. The crate stands on `page_file` for reading, on `page_rows` for rows out of pages, on `lyndon_polys` for the
//! table, on `cert_checker` for the rows, and on `leading_products` for the law of products.
#![tactic(auto)]

mod fault;
mod file_pages;
mod final_rows;
mod leading;
mod table_check;

pub use fault::CheckFault;
pub use leading::product_lead;
pub use table_check::{Checked, check_table};
