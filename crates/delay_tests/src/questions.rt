use super::ask::question;
use blocks::map::BlockMap;
use blocks::sets::CacheSets;
use delay::map_model::MapModel;
use delay::model::DelayModel;
use delay::reckoning::Reckoning;
use delay::switch::Switch;
use delay::switch_cost::SwitchCost;
use names::Priority;
use names::refusal::Refusal;
use std::test::Fail;

// Every row has every block, and a switch costs 7.
fn full_model() -> Result<Switch<MapModel>, Refusal> {
    let mut map = BlockMap::new(2)?;
    for p in 1..=32 {
        map.footprint(Priority(p), CacheSets::full(), CacheSets::full())?;
    }
    let below = MapModel {
        reckoning: Reckoning::UsefulUnion,
        map,
    };
    let cost = SwitchCost::new(7)?;
    Ok(Switch { below, cost })
}

#[test]
fn a_question_out_of_range_costs_nothing(rt: HostRuntime) -> Result<(), Fail> {
    let model = full_model()?;
    let column = [255; 40];
    for (i, b, j, expected) in [
        (1, None, 1, 519),
        (1, Some(0), 1, 519),
        (32, Some(32), 32, 519),
        (0, None, 1, 0),
        (33, None, 1, 0),
        (255, None, 1, 0),
        (2, Some(33), 1, 0),
        (2, Some(255), 1, 0),
        (2, None, 0, 0),
        (2, None, 33, 0),
        (2, None, 255, 0),
    ] {
        assert_eq!(rt; model.charge_of(&question(i, b, j, &column)), expected);
    }
    Ok(())
}

#[test]
fn a_missing_entry_is_0(rt: HostRuntime) -> Result<(), Fail> {
    let model = full_model()?;
    let column = [0, 0, 3, 0, 5];
    for (len, expected) in [(0, 0), (2, 0), (3, 519), (5, 519)] {
        assert_eq!(rt;
            model.charge_of(&question(4, None, 1, &column[..len])),
            expected
        );
    }
    assert_eq!(rt; model.charge_of(&question(4, Some(5), 3, &column[..4])), 0);
    assert_eq!(rt; model.charge_of(&question(4, Some(5), 3, &column)), 519);
    assert_eq!(rt; model.charge_of(&question(4, None, 3, &column)), 0);
    Ok(())
}

#[test]
fn affected_rows_one_by_one(rt: HostRuntime) {
    let column = [1, 1, 3, 2, 5, 4];
    let rows = question(4, Some(6), 1, &column).affected_rows();
    for (k, expected) in [
        (0, false),
        (1, false),
        (2, false),
        (3, true),
        (4, true),
        (5, false),
        (6, true),
        (7, false),
        (32, false),
        (33, false),
    ] {
        assert_eq!(rt; rows.contains(Priority(k)), expected);
    }
    assert!(rt; !rows.is_empty());
    assert!(rt; question(2, None, 1, &column).affected_rows().is_empty());
}
