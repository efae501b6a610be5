// An entry of a recency list: a key, as it was first stored, and the time of its newest access.
#[derive(Clone, Copy)]
pub struct Entry<K> {
    pub key: K,
    pub time: u16,
}
