// Counts afresh, over a slice of keys with the oldest access first: every window, every cache and every interval.
// Slow on purpose and plain, and proved equal to the definitions: what faster code is compared with.
#![tactic(auto)]

mod finds;
pub mod gaps;
pub mod looks;
mod position;
pub mod simulation;
#[cfg(test)]
mod tests;
pub mod windows;
