use names::refusal::Refusal;
use names::{Priority, Threshold, Timing};
use sheet::table::Sheet;

const C_TOP: u32 = 16_777_215;

const TOP: u32 = 100_000_000;

#[test]
fn enter_at_both_ends_of_each_range(rt: HostRuntime) {
    let cases = [
        (0, 20, 50, 50, Err(Refusal::PriorityRange(0))),
        (1, 20, 50, 50, Ok(())),
        (32, 20, 50, 50, Ok(())),
        (33, 20, 50, 50, Err(Refusal::PriorityRange(33))),
        (255, 20, 50, 50, Err(Refusal::PriorityRange(255))),
        (4, 0, 50, 50, Err(Refusal::RunTimeRange(4))),
        (4, 1, 50, 50, Ok(())),
        (4, C_TOP, 50, 50, Ok(())),
        (4, C_TOP + 1, 50, 50, Err(Refusal::RunTimeRange(4))),
        (4, 20, 0, 50, Err(Refusal::SeparationRange(4))),
        (4, 20, 1, 50, Ok(())),
        (4, 20, TOP, 50, Ok(())),
        (4, 20, TOP + 1, 50, Err(Refusal::SeparationRange(4))),
        (4, 20, 50, 0, Err(Refusal::DeadlineRange(4))),
        (4, 20, 50, 1, Ok(())),
        (4, 20, 50, TOP, Ok(())),
        (4, 20, 50, TOP + 1, Err(Refusal::DeadlineRange(4))),
        (0, 0, 0, 0, Err(Refusal::PriorityRange(0))),
        (4, 0, 0, 0, Err(Refusal::RunTimeRange(4))),
        (4, 20, 0, 0, Err(Refusal::SeparationRange(4))),
    ];
    for (p, run_time, separation, deadline, expected) in cases {
        let timing = Timing {
            run_time,
            separation,
            deadline,
        };
        assert_eq!(rt; Sheet::new().enter(Priority(p), timing), expected);
    }
}

fn timing(run_time: u32) -> Timing {
    Timing {
        run_time,
        separation: 100,
        deadline: 90,
    }
}

#[test]
fn strike_and_cap_refuse_by_the_smallest_number(rt: HostRuntime) {
    let mut sheet = Sheet::new();
    assert_eq!(rt; sheet.strike(Priority(4)), Err(Refusal::NoRow(4)));
    assert_eq!(rt;
        sheet.cap(Priority(4), Threshold(0)),
        Err(Refusal::NoRow(4))
    );
    assert_eq!(rt; sheet.enter(Priority(4), timing(7)), Ok(()));
    for (p, k, expected) in [
        (0, 1, Err(Refusal::PriorityRange(0))),
        (33, 0, Err(Refusal::PriorityRange(33))),
        (3, 1, Err(Refusal::NoRow(3))),
        (4, 0, Err(Refusal::CapRange(4))),
        (4, 1, Ok(())),
        (4, 4, Ok(())),
        (4, 5, Err(Refusal::CapRange(4))),
    ] {
        assert_eq!(rt; sheet.cap(Priority(p), Threshold(k)), expected);
    }
    assert_eq!(rt; sheet.strike(Priority(0)), Err(Refusal::PriorityRange(0)));
    assert_eq!(rt; sheet.strike(Priority(33)), Err(Refusal::PriorityRange(33)));
    assert_eq!(rt; sheet.strike(Priority(4)), Ok(()));
    assert_eq!(rt; sheet.strike(Priority(4)), Err(Refusal::NoRow(4)));
}

// A column for rows at 2, 3 and 5, with entries after the 32nd, which nobody reads.
fn column(fifth: u8, last: u8) -> [u8; 40] {
    std::array::from_fn(|i| match i {
        1 | 2 => 2,
        4 => fifth,
        31 => last,
        32.. => 9,
        _ => 0,
    })
}

#[test]
fn columns_that_fit(rt: HostRuntime) {
    let mut sheet = Sheet::new();
    for p in [2, 3, 5] {
        assert_eq!(rt; sheet.enter(Priority(p), timing(7)), Ok(()));
    }
    assert_eq!(rt; sheet.cap(Priority(5), Threshold(3)), Ok(()));
    assert_eq!(rt; sheet.check_column(&[0; 31]), Err(Refusal::ListTooShort));
    assert_eq!(rt; sheet.check_column(&[0; 32]), Err(Refusal::ColumnMisfit(2)));
    for (q, last, expected) in [
        (2, 0, Err(Refusal::ColumnMisfit(5))),
        (3, 0, Ok(())),
        (4, 0, Err(Refusal::ColumnMisfit(5))),
        (5, 0, Ok(())),
        (6, 0, Err(Refusal::ColumnMisfit(5))),
        (5, 1, Err(Refusal::ColumnMisfit(32))),
    ] {
        assert_eq!(rt; sheet.check_column(&column(q, last)), expected);
    }
}

#[test]
fn refusals_have_their_numbers(rt: HostRuntime) {
    let all = [
        (Refusal::ListTooShort, 1, 0),
        (Refusal::PriorityRange(33), 2, 33),
        (Refusal::RunTimeRange(3), 3, 3),
        (Refusal::SeparationRange(4), 4, 4),
        (Refusal::DeadlineRange(5), 5, 5),
        (Refusal::NoRow(6), 6, 6),
        (Refusal::CapRange(7), 7, 7),
        (Refusal::ColumnMisfit(8), 8, 8),
        (Refusal::NotBlocking(9), 9, 9),
        (Refusal::UsefulNotEvicting(255), 10, 255),
        (Refusal::ReloadRange, 11, 0),
        (Refusal::SwitchCostRange, 12, 0),
        (Refusal::NoColumn(32), 13, 32),
        (Refusal::FileTooShort, 14, 0),
        (Refusal::UnknownVersion, 15, 0),
        (Refusal::UnknownLetter, 16, 0),
        (Refusal::WrongLayout, 17, 0),
        (Refusal::SpareByte(63), 18, 63),
        (Refusal::PriorityOrder(1), 19, 1),
    ];
    for (refusal, number, place) in all {
        assert_eq!(rt; refusal.number(), number);
        assert_eq!(rt; refusal.place(), place);
    }
}
