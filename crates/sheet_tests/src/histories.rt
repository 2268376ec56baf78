use history::call::{Answer, Call};
use history::{replay, replay_into};
use names::refusal::Refusal;
use names::{Priority, Threshold, Timing};
use sheet::row::Row;
use std::test::Fail;

fn enter(p: u8, run_time: u32) -> Call {
    Call::Enter(
        Priority(p),
        Timing {
            run_time,
            separation: 100,
            deadline: 90,
        },
    )
}

fn cap(p: u8, k: u8) -> Call {
    Call::Cap(Priority(p), Threshold(k))
}

fn strike(p: u8) -> Call {
    Call::Strike(Priority(p))
}

// Run time and cap of a row, zeros where there is none.
fn shown(row: Option<Row>) -> (u32, u8) {
    row.map_or((0, 0), |row| (row.timing.run_time, row.cap.0))
}

const DONE: Answer = Ok(());

#[test]
fn a_replay_with_repeats_and_refusals(rt: HostRuntime) -> Result<(), Fail> {
    let history = [
        (enter(2, 20), DONE),
        (enter(5, 50), DONE),
        (cap(5, 3), DONE),
        (cap(5, 6), Err(Refusal::CapRange(5))),
        (enter(2, 0), Err(Refusal::RunTimeRange(2))),
        (cap(2, 2), DONE),
        (enter(2, 21), DONE),
        (strike(5), DONE),
        (strike(5), Err(Refusal::NoRow(5))),
        (cap(5, 1), Err(Refusal::NoRow(5))),
        (enter(5, 51), DONE),
        (enter(9, 90), DONE),
        (cap(9, 9), DONE),
        (cap(9, 4), DONE),
        (strike(2), DONE),
    ];
    let calls = history.map(|(call, _)| call);
    let transcript = replay(&calls, rt.alloc())?;
    let expected = history.map(|(_, answer)| answer);
    assert_eq!(rt; transcript.answers.as_slice(), expected.as_slice());
    assert_eq!(rt; transcript.answers.len(), 15);
    for (p, expected) in [
        (1, (0, 0)),
        (2, (0, 0)),
        (5, (51, 1)),
        (9, (90, 4)),
        (33, (0, 0)),
    ] {
        assert_eq!(rt; shown(transcript.sheet.row(Priority(p))), expected);
    }
    Ok(())
}

#[test]
fn a_replay_into_a_list(rt: HostRuntime) -> Result<(), Fail> {
    let calls = [enter(2, 20), strike(3)];
    let other = Err(Refusal::NoColumn(9));
    let mut answers = [other; 3];
    assert!(rt; replay_into(&calls, &mut answers[0..1]).is_err());
    assert_eq!(rt; answers, [other; 3]);
    let sheet = replay_into(&calls, &mut answers)?;
    assert_eq!(rt; shown(sheet.row(Priority(2))), (20, 1));
    assert_eq!(rt; answers, [DONE, Err(Refusal::NoRow(3)), other]);
    Ok(())
}
