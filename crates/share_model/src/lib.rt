//! The model of shares of a listing: what a share is, which relations it has, what a result of it is, and that results of all shares together
//! give the reduced rows of all listed relations.
//!
//! A table is divided so that it is made on many machines: each share takes some of the listed relations, and its rows are what these give
//! alone. Beside the types there is no code: the function does nothing, and its contract is the laws. The crate stands on `table_model` for rows,
//! sums and spans, and on `page_codec` and `file_model` for what rows are as pages hold them.
#![tactic(auto)]

mod checked;
mod fault;
mod laws;
mod share;

pub use checked::CheckedShare;
pub use fault::ShareFault;
pub use laws::share_laws;
pub use share::{Share, ShareId};
