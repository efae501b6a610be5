// Curves from the tables of abbb and abccba, and both ends of what is taken.
use crate::theorems::{gaps_tell_totals, misses_from_depths, total_from_gaps};
use keys::{Line, Object};

#[test]
fn totals_of_abbb(rt: HostRuntime) {
    let gaps = [0u32, 4, 1, 0, 1];
    assert_eq!(rt; total_from_gaps::<Line>(&gaps, 2, 0), Some(0));
    assert_eq!(rt; total_from_gaps::<Line>(&gaps, 2, 2), Some(4));
    assert_eq!(rt; total_from_gaps::<Line>(&gaps, 2, 4), Some(2));
    assert_eq!(rt; total_from_gaps::<Line>(&gaps, 2, 5), None);
    assert_eq!(rt; total_from_gaps::<Line>(&gaps, 2, u32::MAX), None);
}

#[test]
fn misses_of_abccba(rt: HostRuntime) {
    let depths = [0u32, 1, 1, 1, 0, 0, 0];
    assert_eq!(rt; misses_from_depths::<Object>(&depths, 3, 0), Some(6));
    assert_eq!(rt; misses_from_depths::<Object>(&depths, 3, 2), Some(4));
    assert_eq!(rt; misses_from_depths::<Object>(&depths, 3, 3), Some(3));
    assert_eq!(rt; misses_from_depths::<Object>(&depths, 3, u32::MAX), Some(3));
}

#[test]
fn what_is_no_table(rt: HostRuntime) {
    let most = [0u32; 4097];
    let more = [0u32; 4098];
    assert_eq!(rt; total_from_gaps::<Line>(&[], 0, 0), None);
    assert_eq!(rt; total_from_gaps::<Line>(&[0], 0, 0), Some(0));
    assert_eq!(rt; total_from_gaps::<Line>(&[0, 3], 1, 0), None);
    assert_eq!(rt; total_from_gaps::<Line>(&most, 1, 4096), Some(1));
    assert_eq!(rt; total_from_gaps::<Line>(&more, 1, 4096), None);
    assert_eq!(rt; misses_from_depths::<Line>(&[], 1, 0), None);
    assert_eq!(rt; misses_from_depths::<Line>(&most, 1, 0), Some(1));
    assert_eq!(rt; misses_from_depths::<Line>(&more, 1, 0), None);
}

#[test]
fn gaps_of_aab_abb_and_aba(rt: HostRuntime) {
    assert_eq!(rt;
        gaps_tell_totals::<Line, Object>(&[0, 3, 1, 1], &[0, 3, 1, 1]),
        true
    );
    assert_eq!(rt;
        gaps_tell_totals::<Line, Object>(&[0, 3, 1, 1], &[0, 2, 3, 0]),
        false
    );
    assert_eq!(rt;
        gaps_tell_totals::<Line, Object>(&[0, 3, 1], &[0, 3, 1, 1]),
        false
    );
}
