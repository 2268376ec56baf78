// Prints what every delay model charges on a small sheet of two rows.
#![tactic(auto)]

use anyhow::Context;
use blocks::map::BlockMap;
use blocks::sets::CacheSets;
use delay::map_model::MapModel;
use delay::model::{DelayModel, NoDelay};
use delay::question::{Pair, Question};
use delay::reckoning::Reckoning;
use delay::switch::Switch;
use delay::switch_cost::SwitchCost;
use names::Priority;
use names::refusal::Refusal;
use std::io;

const RECKONINGS: [Reckoning; 4] = [
    Reckoning::EvictingOnly,
    Reckoning::UsefulOnly,
    Reckoning::UsefulUnion,
    Reckoning::EvictingUnion,
];

// Row 1 loads blocks into sets 0 to 3. Row 2 loads blocks into sets 2, 3 and 9, and uses them again.
fn example_map() -> Result<BlockMap, Refusal> {
    let mut map = BlockMap::new(4)?;
    let own = CacheSets::of(&[2, 3, 9]);
    map.footprint(
        Priority(1),
        CacheSets::of(&[0, 1, 2, 3]),
        CacheSets::empty(),
    )?;
    map.footprint(Priority(2), own, own)?;
    Ok(map)
}

// What each job of row 1 costs, while row 2 is judged without a blocker.
fn charge(model: &impl DelayModel, column: &[u8]) -> u32 {
    let pair = Pair {
        row: Priority(2),
        blocker: None,
    };
    model.charge_of(&Question {
        pair,
        preempting: Priority(1),
        column,
    })
}

fn print_charges(
    rt: &HostRuntime,
    map: BlockMap,
    cost: SwitchCost,
    column: &[u8; 2],
) -> io::Result<()> {
    let [first, second] = *column;
    let none = charge(&NoDelay, column);
    print!(rt; "{first}, {second}  {none:>6}")?;
    for reckoning in RECKONINGS {
        let reckoned = charge(&MapModel { reckoning, map }, column);
        print!(rt; "{reckoned:>6}")?;
    }
    let below = MapModel {
        reckoning: Reckoning::UsefulUnion,
        map,
    };
    let switched = charge(&Switch { below, cost }, column);
    println!(rt; "{switched:>14}")
}

fn print_table(rt: &HostRuntime, map: BlockMap, cost: SwitchCost) -> io::Result<()> {
    println!(rt; "A block takes 4 ticks to load again, and a switch costs 1 tick.")?;
    println!(rt; "Row 1 evicts 0, 1, 2, 3. Row 2 evicts 2, 3, 9, and uses them again.")?;
    println!(rt; "Ticks for each job of row 1, while row 2 is judged without a blocker:")?;
    println!(rt)?;
    println!(rt; "column     N     E     U     V     X  V and switch")?;
    print_charges(rt, map, cost, &[1, 2])?;
    print_charges(rt, map, cost, &[1, 1])
}

fn run(rt: &HostRuntime) -> anyhow::Result<()> {
    let map = example_map().context("the map is refused")?;
    let cost = SwitchCost::new(1).context("the switch cost is refused")?;
    print_table(rt, map, cost)?;
    Ok(())
}

fn main(rt: HostRuntime) -> anyhow::Result<()> {
    run(&rt)
}
