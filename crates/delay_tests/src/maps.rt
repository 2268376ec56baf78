use blocks::map::BlockMap;
use blocks::sets::CacheSets;
use names::Priority;
use names::refusal::Refusal;
use std::test::Fail;

const SETS: [u8; 8] = [0, 7, 8, 63, 64, 127, 192, 255];

#[test]
fn a_reload_time_is_at_most_1023(rt: HostRuntime) -> Result<(), Fail> {
    for reload in [0, 1, 1023] {
        assert_eq!(rt; BlockMap::new(reload)?.reload(), reload);
    }
    for reload in [1024, 65535] {
        match BlockMap::new(reload) {
            Ok(_) => assert!(rt; false),
            Err(refusal) => assert_eq!(rt; (refusal.number(), refusal.place()), (11, 0)),
        }
    }
    Ok(())
}

#[test]
fn each_set_by_itself(rt: HostRuntime) {
    for s in SETS {
        let one = CacheSets::empty().with(s);
        assert_eq!(rt; one.size(), 1);
        for t in SETS {
            let other = CacheSets::of(&[t]);
            assert_eq!(rt; one.contains(t), s == t);
            assert_eq!(rt; one.union(&other).size(), if s == t { 1 } else { 2 });
            assert_eq!(rt; one.intersection(&other).size(), if s == t { 1 } else { 0 });
        }
    }
    assert_eq!(rt; CacheSets::of(&SETS).size(), 8);
    assert_eq!(rt; CacheSets::of(&[9, 9, 9]).size(), 1);
    assert_eq!(rt; CacheSets::full().size(), 256);
}

#[test]
fn the_first_set_outside(rt: HostRuntime) {
    let full = CacheSets::full();
    for s in SETS {
        let one = CacheSets::of(&[s]);
        assert_eq!(rt; one.first_outside(&CacheSets::empty()), Some(s));
        assert_eq!(rt; full.first_outside(&one), Some(if s == 0 { 1 } else { 0 }));
        assert_eq!(rt; one.first_outside(&full), None);
    }
    assert_eq!(rt;
        CacheSets::of(&[255, 64, 9]).first_outside(&CacheSets::of(&[9])),
        Some(64)
    );
}

#[test]
fn a_footprint_replaces_both_sets(rt: HostRuntime) -> Result<(), Fail> {
    let mut map = BlockMap::new(4)?;
    for sets in [
        CacheSets::of(&SETS),
        CacheSets::of(&[9]),
        CacheSets::empty(),
    ] {
        assert_eq!(rt; map.footprint(Priority(5), CacheSets::full(), sets), Ok(()));
        assert_eq!(rt; map.footprint(Priority(5), sets, sets), Ok(()));
        for s in 0..=255 {
            assert_eq!(rt; map.is_evicting(Priority(5), s), sets.contains(s));
            assert_eq!(rt; map.is_useful(Priority(5), s), sets.contains(s));
            assert!(rt; !map.is_evicting(Priority(4), s));
            assert!(rt; !map.is_useful(Priority(6), s));
        }
    }
    Ok(())
}

#[test]
fn a_refused_footprint_changes_nothing(rt: HostRuntime) -> Result<(), Fail> {
    let mut map = BlockMap::new(4)?;
    let old = CacheSets::of(&[3]);
    assert_eq!(rt; map.footprint(Priority(1), old, old), Ok(()));
    let sets = CacheSets::of(&[200, 64, 5]);
    for (p, evicting, expected) in [
        (0, CacheSets::full(), Refusal::PriorityRange(0)),
        (33, CacheSets::empty(), Refusal::PriorityRange(33)),
        (255, CacheSets::empty(), Refusal::PriorityRange(255)),
        (1, CacheSets::empty(), Refusal::UsefulNotEvicting(5)),
        (1, CacheSets::of(&[5]), Refusal::UsefulNotEvicting(64)),
        (1, CacheSets::of(&[5, 64]), Refusal::UsefulNotEvicting(200)),
    ] {
        assert_eq!(rt; map.footprint(Priority(p), evicting, sets), Err(expected));
        for s in 0..=255 {
            assert_eq!(rt; map.is_evicting(Priority(1), s), s == 3);
            assert_eq!(rt; map.is_useful(Priority(1), s), s == 3);
        }
    }
    Ok(())
}

#[test]
fn nothing_is_read_outside_the_priorities(rt: HostRuntime) -> Result<(), Fail> {
    let mut map = BlockMap::new(4)?;
    let full = CacheSets::full();
    for p in 1..=32 {
        assert_eq!(rt; map.footprint(Priority(p), full, full), Ok(()));
    }
    for (p, size) in [(0, 0), (1, 256), (32, 256), (33, 0), (255, 0)] {
        assert_eq!(rt; map.evicting(Priority(p)).size(), size);
        assert_eq!(rt; map.useful(Priority(p)).size(), size);
    }
    Ok(())
}
