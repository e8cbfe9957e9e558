//! An old file, page by page, into a new one.
//!
//! A version 1 file comes from a source (`specs/OldFiles.antt`), and goes as version 2 onto an empty disk, each page sealed as it comes. What
//! is passed and how it ends is told by the source's bytes alone (`specs/Migrations.antt`). It stands on `outside_io` for sources, on
//! `page_codec` for pages and their places, and on `page_file` for sealing.
#![tactic(auto)]

mod fault;
mod laws;
mod migrating;
mod old_pages;
mod reading;

pub use fault::MigrateFault;
pub use laws::migration_laws;
pub use migrating::{Migrated, migrate};
