//! A file of sealed pages on a disk that may stop at any moment.
//!
//! A page is sealed where it stands behind an open gate (`specs/Files.antt`). Contracts see a `PageFile` as the notes of `specs/Notes.antt`,
//! and what a crash may leave as the images of the disk's moments (`specs/Stays.antt`). It stands on `page_codec` for pages, and on
//! `outside_io` for disks.
#![tactic(auto)]

mod fault;
mod filling;
mod front;
mod laws;
mod looking;
mod page_file;
mod putting;
mod sealing;
mod window;

pub use fault::FileFault;
pub use laws::reading_laws;
pub use looking::look;
pub use page_file::PageFile;
