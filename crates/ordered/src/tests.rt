// Both ends of every bound, and what a store leaves in the caller's slice. (The tests of the crate `unordered` are
// alike, on the other store: the two crates share nothing that is only for tests.)
ghost use Rattle.std.specs.Prelude.{◌≡◌, []};
ghost use Rattle.locality.specs.Slices.{in_front};
ghost use Rattle.recency.specs.Rules.{places_in, touch_list};

use crate::Ordered;
use keys::{Key, Line};
use locality::Entry;
use recency::RecencyStore;
use std::test::Fail;

fn line(address: u64, time: u16) -> Entry<Line> {
    Entry {
        key: Line::at(address),
        time,
    }
}

// One touch by a store that is then done: the caller's slice holds what the store left.
fn touched_once<K: Key>(slots: &mut [Entry<K>], key: K)
    ensures { slots.new ≡ in_front (touch_list K.same (places_in slots.old) key 1 []) slots.old }
{
    let mut store = Ordered::new(slots);
    let _ = store.touch(key, 1);
}

#[test]
fn slices_of_every_length(rt: HostRuntime) {
    let mut more = [line(0, 9); 4097];
    let mut most = [line(0, 9); 4096];
    let mut fewer = [line(0, 9); 4095];
    let mut none: [Entry<Line>; 0] = [];
    assert_eq!(rt; Ordered::new(&mut more).places(), 4096);
    assert_eq!(rt; Ordered::new(&mut most).places(), 4096);
    assert_eq!(rt; Ordered::new(&mut fewer).places(), 4095);
    assert_eq!(rt; Ordered::new(&mut none).places(), 0);
}

#[test]
fn entries_at_both_ends(rt: HostRuntime) -> Result<(), Fail> {
    let mut slots = [line(0, 9); 3];
    let mut store = Ordered::new(&mut slots);
    let _ = store.touch(Line::at(64), 1);
    let _ = store.touch(Line::at(128), 2);
    assert!(rt; store.entry(0).is_none());
    assert_eq!(rt; store.entry(1).ok_or("none")?.time, 2);
    assert_eq!(rt; store.entry(2).ok_or("none")?.key.address, 64);
    assert!(rt; store.entry(3).is_none());
    assert!(rt; store.entry(u32::MAX).is_none());
    Ok(())
}

#[test]
fn left_in_the_slice(rt: HostRuntime) {
    let mut slots = [line(5, 9); 2];
    touched_once(&mut slots, Line::at(64));
    assert_eq!(rt; slots[0].time, 1);
    assert_eq!(rt; slots[1].key.address, 5);
}
