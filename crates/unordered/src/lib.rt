// A recency store that leaves its entries in whatever slots they took, in a slice that the caller provides, and finds a
// depth by counting later times.
#![tactic(auto)]

mod scans;
mod store;
#[cfg(test)]
mod tests;
mod writes;

pub use store::Unordered;
