use super::sheets::{column_of, sheet_of};
use delay::model::NoDelay;
use names::refusal::Refusal;
use names::{Priority, Threshold};
use response::outcome::Outcome;
use response::own::{own_column, own_outcomes};
use response::tests::column_test;
use response::trial::trial;
use std::test::Fail;

#[test]
fn the_first_failure_of_a_column(rt: HostRuntime) -> Result<(), Fail> {
    let late = |job, response| Outcome::Late { job, response };
    for (first, second, column, expected) in [
        (50, 90, [1, 2, 0], None),
        (50, 85, [1, 2, 0], Some((Priority(2), None, late(2, 86)))),
        (
            61,
            90,
            [1, 1, 0],
            Some((Priority(1), Some(Priority(2)), late(0, 62))),
        ),
        (62, 90, [1, 1, 0], None),
        (19, 85, [1, 2, 0], Some((Priority(1), None, late(0, 20)))),
    ] {
        let sheet = sheet_of(&[(20, 50, first), (42, 70, second)])?;
        assert_eq!(rt;
            column_test(&sheet, &NoDelay, &column_of(column)),
            Ok(expected)
        );
    }
    Ok(())
}

#[test]
fn a_trial_leaves_the_column_as_it_was(rt: HostRuntime) -> Result<(), Fail> {
    let sheet = sheet_of(&[(20, 50, 61), (42, 70, 90)])?;
    let own = column_of([1, 2, 0]);
    let mut column = own;
    let failure = (
        Priority(1),
        Some(Priority(2)),
        Outcome::Late {
            job: 0,
            response: 62,
        },
    );
    for (p, q, expected) in [
        (2, 2, Ok(None)),
        (2, 1, Ok(Some(failure))),
        (2, 3, Err(Refusal::ColumnMisfit(2))),
        (3, 1, Err(Refusal::NoRow(3))),
        (0, 1, Err(Refusal::PriorityRange(0))),
    ] {
        let found = trial(&sheet, &NoDelay, &mut column, Priority(p), Threshold(q));
        assert_eq!(rt; found, expected);
        assert_eq!(rt; column, own);
    }
    Ok(())
}

#[test]
fn own_priorities(rt: HostRuntime) -> Result<(), Fail> {
    let sheet = sheet_of(&[(20, 50, 50), (42, 70, 85)])?;
    assert_eq!(rt; own_column(&sheet), column_of([1, 2, 0]));
    let outcomes = own_outcomes(&sheet, &NoDelay);
    assert_eq!(rt; outcomes[0], Some(Outcome::Passes { response: 20 }));
    assert_eq!(rt;
        outcomes[1],
        Some(Outcome::Late {
            job: 2,
            response: 86
        })
    );
    assert_eq!(rt; outcomes[2], None);
    assert_eq!(rt; outcomes[31], None);
    Ok(())
}

#[test]
fn outcomes_in_their_order(rt: HostRuntime) {
    for (outcome, number) in [
        (Outcome::TooMuch(Priority(1)), 1),
        (Outcome::NoPeriod, 2),
        (
            Outcome::Late {
                job: 0,
                response: 9,
            },
            3,
        ),
        (Outcome::Passes { response: 9 }, 4),
    ] {
        assert_eq!(rt; outcome.number(), number);
        assert_eq!(rt; outcome.passes(), number == 4);
    }
}
