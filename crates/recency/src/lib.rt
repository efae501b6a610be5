// Recency stores: what has been accessed, newest first. A store is known by the calls of one trait.
#![tactic(auto)]

mod entries;
mod laws;
mod places;
mod store;

pub use entries::touched_entry;
pub use laws::{first_touch, peek, rules_keep_lists, touch_keeping};
pub use places::{MOST_PLACES, places_in};
pub use store::RecencyStore;
