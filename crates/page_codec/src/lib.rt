//! Pages of a table file as bytes: each page has one spelling, and no spelling begins another.
#![tactic(auto)]

mod bounds;
mod decoding;
mod fault;
mod laws;
mod old;
mod page;
mod params;
mod parts;
mod reading;
mod testing;
mod walk;
mod writing;

pub use bounds::is_page;
pub use decoding::decode;
pub use fault::ParamFault;
pub use laws::{file_laws, param_laws, place_laws, row_laws, spelling_laws};
pub use old::decode_old;
pub use page::Page;
pub use params::Params;
pub use parts::{
    CombData, FinalEntries, FinalEntry, FinalPage, ForwardEntries, ForwardEntry, ForwardPage,
    RowData,
};
pub use walk::Walk;
pub use writing::encode;
