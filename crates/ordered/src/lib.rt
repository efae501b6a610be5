// A recency store that keeps its entries in recency order, at the front of a slice that the caller provides.
#![tactic(auto)]

mod moves;
mod store;
#[cfg(test)]
mod tests;

pub use store::Ordered;
