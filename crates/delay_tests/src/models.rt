ghost use Rattle.std.specs.Prelude.{if◌then◌else◌};
ghost use Rattle.std.proofs.Common.{rules};

use super::ask::question;
use blocks::map::BlockMap;
use blocks::sets::CacheSets;
use delay::map_model::MapModel;
use delay::model::{DelayModel, NoDelay, TOO_MUCH};
use delay::question::Question;
use delay::reckoning::Reckoning;
use delay::switch::Switch;
use delay::switch_cost::SwitchCost;
use names::Priority;
use names::refusal::Refusal;
use std::test::Fail;

// The charges by each reckoning, E, U, V and X.
fn charges(map: BlockMap, i: u8, blocker: Option<u8>, j: u8, column: &[u8]) -> [u32; 4] {
    let asked = question(i, blocker, j, column);
    [
        Reckoning::EvictingOnly,
        Reckoning::UsefulOnly,
        Reckoning::UsefulUnion,
        Reckoning::EvictingUnion,
    ]
    .map(|reckoning| MapModel { reckoning, map }.charge_of(&asked))
}

fn two_rows() -> Result<BlockMap, Refusal> {
    let mut map = BlockMap::new(4)?;
    let own = CacheSets::of(&[2, 3, 9]);
    map.footprint(
        Priority(1),
        CacheSets::of(&[0, 1, 2, 3]),
        CacheSets::empty(),
    )?;
    map.footprint(Priority(2), own, own)?;
    Ok(map)
}

#[test]
fn charges_of_two_rows(rt: HostRuntime) -> Result<(), Fail> {
    let map = two_rows()?;
    assert_eq!(rt; charges(map, 2, None, 1, &[1, 2]), [16, 12, 8, 8]);
    assert_eq!(rt; charges(map, 2, None, 1, &[1, 1]), [0; 4]);
    assert_eq!(rt; NoDelay.charge_of(&question(2, None, 1, &[1, 2])), 0);
    Ok(())
}

// Row 1 evicts 0 to 9 and row 2 evicts 20 to 22. Rows 3 and 4 use some of these again.
fn four_rows() -> Result<BlockMap, Refusal> {
    let mut map = BlockMap::new(10)?;
    let third = CacheSets::of(&[0, 1, 2, 20]);
    let fourth = CacheSets::of(&[2, 3, 4, 21, 99]);
    let ten = CacheSets::of(&[0, 1, 2, 3, 4, 5, 6, 7, 8, 9]);
    map.footprint(Priority(1), ten, CacheSets::empty())?;
    map.footprint(
        Priority(2),
        CacheSets::of(&[20, 21, 22]),
        CacheSets::empty(),
    )?;
    map.footprint(Priority(3), third, third)?;
    map.footprint(Priority(4), fourth, fourth)?;
    Ok(map)
}

#[test]
fn reckonings_differ(rt: HostRuntime) -> Result<(), Fail> {
    let map = four_rows()?;
    let own = [1, 2, 3, 4];
    assert_eq!(rt; charges(map, 4, None, 1, &own), [100, 50, 50, 30]);
    assert_eq!(rt; charges(map, 4, None, 2, &own), [30, 50, 20, 40]);
    assert_eq!(rt; charges(map, 3, None, 1, &own), [100, 40, 30, 30]);
    assert_eq!(rt; charges(map, 3, Some(4), 1, &own), [100, 50, 50, 30]);
    assert_eq!(rt; charges(map, 3, Some(4), 2, &own), [30, 50, 20, 40]);
    Ok(())
}

// Row 3 has threshold 1, so that row 1 cannot pre-empt it, though 1 is more urgent than 3.
#[test]
fn rows_are_affected_by_threshold(rt: HostRuntime) -> Result<(), Fail> {
    let map = four_rows()?;
    assert_eq!(rt; charges(map, 4, None, 1, &[1, 2, 1, 4]), [100, 50, 30, 30]);
    assert_eq!(rt; charges(map, 3, None, 1, &[1, 1, 1, 4]), [0; 4]);
    assert_eq!(rt;
        charges(map, 3, Some(4), 1, &[1, 1, 1, 4]),
        [100, 50, 30, 30]
    );
    assert_eq!(rt; charges(map, 4, None, 2, &[1, 2, 2, 2]), [0; 4]);
    assert_eq!(rt; charges(map, 4, None, 2, &[1, 2, 2, 3]), [30, 50, 10, 40]);
    Ok(())
}

#[test]
fn the_greatest_charge_of_a_map(rt: HostRuntime) -> Result<(), Fail> {
    let mut map = BlockMap::new(1023)?;
    for p in 1..=32 {
        map.footprint(Priority(p), CacheSets::full(), CacheSets::full())?;
    }
    let column = [32; 32];
    assert_eq!(rt; charges(map, 1, None, 31, &column), [261_888; 4]);
    assert_eq!(rt; charges(map, 32, None, 31, &column), [261_888; 4]);
    assert_eq!(rt; charges(map, 32, None, 32, &column), [0; 4]);
    Ok(())
}

fn over<M: DelayModel>(below: M, ticks: u16) -> Result<Switch<M>, Refusal>
where
    M: Drop,
{
    let cost = SwitchCost::new(ticks)?;
    Ok(Switch { below, cost })
}

#[test]
fn a_switch_costs_at_most_4095(rt: HostRuntime) -> Result<(), Fail> {
    for ticks in [0, 1, 4095] {
        assert_eq!(rt; SwitchCost::new(ticks)?.ticks(), ticks);
    }
    for ticks in [4096, 65535] {
        match SwitchCost::new(ticks) {
            Ok(_) => assert!(rt; false),
            Err(refusal) => assert_eq!(rt; (refusal.number(), refusal.place()), (12, 0)),
        }
    }
    Ok(())
}

#[test]
fn a_switch_over_each_model(rt: HostRuntime) -> Result<(), Fail> {
    let below = MapModel {
        reckoning: Reckoning::UsefulUnion,
        map: two_rows()?,
    };
    let one = over(below, 1)?;
    assert_eq!(rt; one.charge_of(&question(2, None, 1, &[1, 2])), 9);
    assert_eq!(rt; one.charge_of(&question(2, None, 1, &[1, 1])), 0);
    let more = over(one, 4095)?;
    assert_eq!(rt; more.charge_of(&question(2, None, 1, &[1, 2])), 4104);
    assert_eq!(rt; more.charge_of(&question(2, None, 1, &[1, 1])), 0);
    let none = over(NoDelay, 5)?;
    assert_eq!(rt; none.charge_of(&question(2, None, 1, &[1, 2])), 5);
    Ok(())
}

// A model that always says "too much", or one tick less.
#[derive(Clone, Copy, Drop)]
struct Fixed(bool);

impl DelayModel for Fixed {
    ghost charge = { λ m i b j h. (if m.0 then 1048575 else 1048574) };

    ghost monotone = { Prim.search rules };

    ghost bounded = { Prim.search rules };

    fn charge_of(&self, _question: &Question<'_>) -> u32 {
        if self.0 { TOO_MUCH } else { TOO_MUCH - 1 }
    }
}

#[test]
fn a_switch_stops_at_too_much(rt: HostRuntime) -> Result<(), Fail> {
    for (top, ticks, expected) in [
        (true, 0, TOO_MUCH),
        (true, 4095, TOO_MUCH),
        (false, 0, TOO_MUCH - 1),
        (false, 1, TOO_MUCH),
        (false, 2, TOO_MUCH),
        (false, 4095, TOO_MUCH),
    ] {
        let model = over(Fixed(top), ticks)?;
        assert_eq!(rt; model.charge_of(&question(2, None, 1, &[1, 2])), expected);
    }
    Ok(())
}
