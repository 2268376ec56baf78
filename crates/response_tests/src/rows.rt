ghost use Rattle.std.specs.Prelude.{◌==◌, if◌then◌else◌};
ghost use Rattle.std.proofs.Common.{rules};

use super::sheets::{alone, blocked, column_of, sheet_of};
use blocks::map::BlockMap;
use blocks::sets::CacheSets;
use delay::map_model::MapModel;
use delay::model::{DelayModel, NoDelay, TOO_MUCH};
use delay::question::Question;
use delay::reckoning::Reckoning;
use names::Priority;
use names::refusal::Refusal;
use response::outcome::Outcome;
use response::tests::row_test;
use std::test::Fail;

// Deadlines of row 2 at its greatest response, and below the responses of two of its jobs.
#[test]
fn the_greatest_response_and_the_first_late_job(rt: HostRuntime) -> Result<(), Fail> {
    let own = column_of([1, 2, 0]);
    for (deadline, expected) in [
        (90, Outcome::Passes { response: 86 }),
        (86, Outcome::Passes { response: 86 }),
        (
            85,
            Outcome::Late {
                job: 2,
                response: 86,
            },
        ),
        (
            81,
            Outcome::Late {
                job: 0,
                response: 82,
            },
        ),
    ] {
        let sheet = sheet_of(&[(20, 50, 50), (42, 70, deadline)])?;
        assert_eq!(rt; row_test(&sheet, &NoDelay, &own, alone(2)), Ok(expected));
        assert_eq!(rt;
            row_test(&sheet, &NoDelay, &own, alone(1)),
            Ok(Outcome::Passes { response: 20 })
        );
    }
    Ok(())
}

#[test]
fn a_blocker_holds_the_row_off(rt: HostRuntime) -> Result<(), Fail> {
    let sheet = sheet_of(&[(20, 50, 62), (42, 70, 90)])?;
    let strong = column_of([1, 1, 0]);
    for (pair, response) in [(alone(1), 20), (blocked(1, 2), 62), (alone(2), 62)] {
        assert_eq!(rt;
            row_test(&sheet, &NoDelay, &strong, pair),
            Ok(Outcome::Passes { response })
        );
    }
    Ok(())
}

#[test]
fn a_processor_that_is_full_above(rt: HostRuntime) -> Result<(), Fail> {
    let sheet = sheet_of(&[(10, 10, 10), (1, 100, 100)])?;
    let own = column_of([1, 2, 0]);
    assert_eq!(rt;
        row_test(&sheet, &NoDelay, &own, alone(1)),
        Ok(Outcome::Passes { response: 10 })
    );
    assert_eq!(rt;
        row_test(&sheet, &NoDelay, &own, alone(2)),
        Ok(Outcome::NoPeriod)
    );
    Ok(())
}

// Row 1 throws out the block of row 2 that it uses again, which takes 5 ticks.
#[test]
fn a_reload_makes_a_row_late(rt: HostRuntime) -> Result<(), Fail> {
    let mut map = BlockMap::new(5)?;
    let block = CacheSets::of(&[0]);
    map.footprint(Priority(1), block, CacheSets::empty())?;
    map.footprint(Priority(2), block, block)?;
    let model = MapModel {
        reckoning: Reckoning::UsefulUnion,
        map,
    };
    let sheet = sheet_of(&[(10, 100, 100), (20, 100, 100), (30, 100, 64)])?;
    assert_eq!(rt;
        row_test(&sheet, &model, &column_of([1, 2, 3]), alone(3)),
        Ok(Outcome::Late {
            job: 0,
            response: 65
        })
    );
    Ok(())
}

// A model that says "too much" for the jobs of one row.
#[derive(Clone, Copy, Drop)]
struct Dear(u8);

impl DelayModel for Dear {
    ghost charge = { λ m i b j h. (if j == m.0 then 1048575 else 0) };

    ghost monotone = { Prim.search rules };

    ghost bounded = { Prim.search rules };

    fn charge_of(&self, question: &Question<'_>) -> u32 {
        if question.preempting.0 == self.0 {
            TOO_MUCH
        } else {
            0
        }
    }
}

#[test]
fn a_row_above_is_charged_too_much(rt: HostRuntime) -> Result<(), Fail> {
    let sheet = sheet_of(&[(1, 100, 100), (1, 100, 100), (1, 100, 100)])?;
    let own = column_of([1, 2, 3]);
    for (dear, expected) in [
        (1, Outcome::TooMuch(Priority(1))),
        (2, Outcome::TooMuch(Priority(2))),
        (3, Outcome::Passes { response: 3 }),
    ] {
        assert_eq!(rt; row_test(&sheet, &Dear(dear), &own, alone(3)), Ok(expected));
    }
    Ok(())
}

#[test]
fn a_row_test_is_refused_by_the_smallest_number(rt: HostRuntime) -> Result<(), Fail> {
    let sheet = sheet_of(&[(20, 50, 50), (42, 70, 90)])?;
    let own = column_of([1, 2, 0]);
    let misfit = column_of([1, 3, 0]);
    assert_eq!(rt;
        row_test(&sheet, &NoDelay, &own[0..31], blocked(0, 9)),
        Err(Refusal::ListTooShort)
    );
    for (column, i, b, expected) in [
        (misfit, 0, 9, Refusal::PriorityRange(0)),
        (misfit, 33, 9, Refusal::PriorityRange(33)),
        (misfit, 3, 9, Refusal::NoRow(3)),
        (misfit, 1, 9, Refusal::ColumnMisfit(2)),
        (own, 1, 1, Refusal::NotBlocking(1)),
        (own, 1, 2, Refusal::NotBlocking(2)),
        (own, 1, 33, Refusal::NotBlocking(33)),
        (own, 2, 1, Refusal::NotBlocking(1)),
    ] {
        assert_eq!(rt;
            row_test(&sheet, &NoDelay, &column, blocked(i, b)),
            Err(expected)
        );
    }
    Ok(())
}
