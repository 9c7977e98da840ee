//! The memo: verdicts that were worked out once, each under the entity, the stamp and the box that
//! it is of. Contracts see a memo as the list of its entries, the most recently used first, each
//! key once, and its capacity, and a key with its digest as the key. The modules are read in this
//! order: `key`, `hashed_key`, `memo`, `laws`; then `digest`, `packed_key` and `recent`.
#![tactic(auto)]

mod crossing;
mod digest;
mod hashed_key;
mod key;
pub mod laws;
mod memo;
mod packed_key;
mod recent;

pub use crossing::memo_crosses;
pub use hashed_key::HashedKey;
pub use key::Key;
pub use memo::Memo;

#[cfg(test)]
mod tests;
