// Both ends of every bound, and what a store leaves in the caller's slice. (The tests of the crate `ordered` are alike,
// on the other store: the two crates share nothing that is only for tests.)
ghost use Rattle.std.specs.Prelude.{◌≡◌};
ghost use Rattle.unordered.specs.Shown.{freed};

use crate::Unordered;
use keys::{Key, Line};
use locality::Entry;
use recency::RecencyStore;
use std::test::Fail;

fn line(address: u64, time: u16) -> Entry<Line> {
    Entry {
        key: Line::at(address),
        time,
    }
}

// A store that is made and at once done: the caller's slice holds what the store left.
fn made_and_done<K: Key>(slots: &mut [Entry<K>])
    ensures { slots.new ≡ freed slots.old }
{
    let _store = Unordered::new(slots);
}

#[test]
fn slices_of_every_length(rt: HostRuntime) {
    let mut more = [line(0, 9); 4097];
    let mut most = [line(0, 9); 4096];
    let mut fewer = [line(0, 9); 4095];
    let mut none: [Entry<Line>; 0] = [];
    assert_eq!(rt; Unordered::new(&mut more).places(), 4096);
    assert_eq!(rt; Unordered::new(&mut most).places(), 4096);
    assert_eq!(rt; Unordered::new(&mut fewer).places(), 4095);
    assert_eq!(rt; Unordered::new(&mut none).places(), 0);
}

#[test]
fn entries_at_both_ends(rt: HostRuntime) -> Result<(), Fail> {
    let mut slots = [line(0, 9); 3];
    let mut store = Unordered::new(&mut slots);
    let _ = store.touch(Line::at(64), 1);
    let _ = store.touch(Line::at(128), 2);
    assert!(rt; store.entry(0).is_none());
    assert_eq!(rt; store.entry(1).ok_or("none")?.time, 2);
    assert_eq!(rt; store.entry(2).ok_or("none")?.key.address, 64);
    assert!(rt; store.entry(3).is_none());
    assert!(rt; store.entry(u32::MAX).is_none());
    Ok(())
}

#[test]
fn past_the_places(rt: HostRuntime) {
    let mut slots = [line(5, 9); 4097];
    made_and_done(&mut slots);
    assert!(rt; slots.len() == 4097);
    assert_eq!(rt; slots[4095].time, 0);
    assert_eq!(rt; slots[4095].key.address, 5);
    assert_eq!(rt; slots[4096].time, 9);
}
