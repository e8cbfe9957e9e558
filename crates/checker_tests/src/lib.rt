//! Tests of tables that are checked in their files.
#![tactic(auto)]

#[cfg(test)]
mod leading;
