//! The one spelling of each share of a table as bytes.
//!
//! The crate stands on `page_codec` for the pages of a share, and on `share_model` for what a share is.
#![tactic(auto)]

mod copying;
mod decoding;
mod encoding;
mod heads;
mod laws;
mod limits;
mod tails;

pub use decoding::decode_share;
pub use encoding::encode_share;
pub use laws::share_spelling_laws;
