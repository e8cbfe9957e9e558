//! Tests of version 1 files that are migrated.
#![tactic(auto)]

#[cfg(test)]
mod migrated;
