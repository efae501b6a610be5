// Key kinds: what a burst takes for one thing. A kind says when two of its keys are the same.
#![tactic(auto)]

mod block;
mod in_block;
mod kind;
mod line;
mod object;
mod page;

pub use block::Block;
pub use in_block::{BlockSize, InBlock};
pub use kind::Key;
pub use line::{CacheLine, Line};
pub use object::Object;
pub use page::{MemoryPage, Page};
