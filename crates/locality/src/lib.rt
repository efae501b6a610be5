// The theory of bursts: what a footprint, an interval, a distance and a cache miss are, and what holds of them.
// The definitions stand in specs/; each theorem is the contract of a function here.
#![tactic(auto)]

mod call;
mod entry;
mod table;
mod tables;
#[cfg(test)]
mod tests;
pub mod theorems;

pub use call::Call;
pub use entry::Entry;
