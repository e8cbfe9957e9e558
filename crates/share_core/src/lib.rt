//! A coordinator of the shares of a table: who gives them to workers, and counts what comes back.
//!
//! The core is pure: events come one after another, and each has its answer. Contracts see a [`Coordinator`] as what it is set to and the two
//! lists that it keeps, and say what each step answers and leaves; [`coordinator_laws`] says what follows for every list of events. The crate
//! stands on `share_check` for the rows of a share, and on `share_merge` for what the counted shares give.
#![tactic(auto)]

mod coordinator;
mod delivering;
mod entries;
mod events;
mod finish;
mod fitting;
mod granting;
mod laws;
mod lists;
mod losing;
mod same_params;
mod setting;

pub use coordinator::Coordinator;
pub use events::{Answer, Event, Refusal};
pub use laws::coordinator_laws;
