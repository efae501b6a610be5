// Line keys at both ends of a block and of every bound.
use crate::gaps::gap_count;
use crate::looks::{distance, interval};
use crate::simulation::lru_misses;
use crate::windows::{distinct_keys, footprint};
use keys::Line;
use refusals::Refusal;

// abbb: 0 is in one line, 64, 127 and 64 in the next.
fn abbb() -> [Line; 4] {
    let a = Line::at(0);
    let b = Line::at(64);
    [a, b, Line::at(127), b]
}

#[test]
fn windows_of_abbb(rt: HostRuntime) {
    let keys = abbb();
    assert_eq!(rt; distinct_keys(&keys), 2);
    assert_eq!(rt; footprint(&keys, 0), (0, 5));
    assert_eq!(rt; footprint(&keys, 2), (4, 3));
    assert_eq!(rt; footprint(&keys, 4), (2, 1));
    assert_eq!(rt; footprint(&keys, 5), (0, 0));
    assert_eq!(rt; footprint(&keys, usize::MAX), (0, 0));
}

#[test]
fn positions_of_abbb(rt: HostRuntime) {
    let keys = abbb();
    assert_eq!(rt; interval(&keys, 0), Err(Refusal::NoSuchPosition));
    assert_eq!(rt; interval(&keys, 1), Ok(None));
    assert_eq!(rt; interval(&keys, 4), Ok(Some(1)));
    assert_eq!(rt; interval(&keys, 5), Err(Refusal::NoSuchPosition));
    assert_eq!(rt; distance(&keys, 2), Ok(None));
    assert_eq!(rt; distance(&keys, 3), Ok(Some(1)));
    assert_eq!(rt; distance(&keys, usize::MAX), Err(Refusal::NoSuchPosition));
}

#[test]
fn gaps_of_abbb(rt: HostRuntime) {
    let keys = abbb();
    assert_eq!(rt; gap_count(&keys, 0), 0);
    assert_eq!(rt; gap_count(&keys, 1), 4);
    assert_eq!(rt; gap_count(&keys, 4), 1);
    assert_eq!(rt; gap_count(&keys, 5), 0);
}

#[test]
fn cache_without_places(rt: HostRuntime) {
    let mut places: [Line; 0] = [];
    assert_eq!(rt; lru_misses(&abbb(), &mut places), 4);
}

#[test]
fn cache_of_one_place(rt: HostRuntime) {
    let mut places = [Line::at(9000)];
    assert_eq!(rt; lru_misses(&abbb(), &mut places), 2);
    assert_eq!(rt; places[0].address, 64);
}

#[test]
fn cache_with_a_place_to_spare(rt: HostRuntime) {
    let mut places = [Line::at(9000); 3];
    assert_eq!(rt; lru_misses(&abbb(), &mut places), 2);
    assert_eq!(rt; places[0].address, 64);
    assert_eq!(rt; places[1].address, 0);
    assert_eq!(rt; places[2].address, 9000);
}
