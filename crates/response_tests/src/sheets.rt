use delay::question::Pair;
use names::refusal::Refusal;
use names::{Priority, Timing};
use sheet::table::Sheet;

// Rows as run time, separation and deadline, from priority 1 on.
pub(super) fn sheet_of(rows: &[(u32, u32, u32)]) -> Result<Sheet, Refusal> {
    let mut sheet = Sheet::new();
    for (p, (run_time, separation, deadline)) in (1..).zip(rows) {
        let timing = Timing {
            run_time: *run_time,
            separation: *separation,
            deadline: *deadline,
        };
        sheet.enter(Priority(p), timing)?;
    }
    Ok(sheet)
}

// A column that begins with these entries, and has no rows after them.
pub(super) fn column_of(entries: [u8; 3]) -> [u8; 32] {
    let mut column = [0; 32];
    column[..3].copy_from_slice(&entries);
    column
}

// A row without a blocker.
pub(super) fn alone(row: u8) -> Pair {
    Pair {
        row: Priority(row),
        blocker: None,
    }
}

// A row with a blocker.
pub(super) fn blocked(row: u8, by: u8) -> Pair {
    Pair {
        row: Priority(row),
        blocker: Some(Priority(by)),
    }
}
