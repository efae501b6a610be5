// A call that can change which accesses stand.
#[derive(Clone, Copy)]
pub enum Call<K> {
    Record(K),
    Retract,
    Clear,
}
