// Reads lines of calls on a sheet from standard input, and prints the answer to each and the sheet that they leave.
#![tactic(auto)]

use anyhow::ensure;
use names::{PRIORITIES, Priority};
use script::answer::{Answered, Misread};
use script::line::Reply;
use script::run::run_script;
use sheet::row::Row;
use sheet::table::Sheet;
use std::io;
use std::io::Read;

// Longer scripts are turned away, so that an input without an end is one too.
const LONGEST: usize = 1_048_576;

fn print_answer(rt: &impl Print, answered: Answered) -> io::Result<()> {
    match answered.answer {
        Ok(()) => rt.println(answered),
        Err(refusal) => println!(rt; "{answered} ({refusal})"),
    }
}

fn print_reply(rt: &impl Print, number: usize, reply: Reply) -> io::Result<()> {
    match reply {
        Ok(None) => Ok(()),
        Ok(Some(answered)) => print_answer(rt, answered),
        Err(mistake) => rt.println(Misread { number, mistake }),
    }
}

fn print_replies(rt: &impl Print, replies: &[Reply]) -> io::Result<()> {
    for (number, reply) in (1..).zip(replies) {
        print_reply(rt, number, *reply)?;
    }
    Ok(())
}

fn print_row(rt: &impl Print, p: Priority, row: Row) -> io::Result<()> {
    println!(rt;
        "{p:>8}  {:>8}  {:>10}  {:>9}  {:>3}",
        row.timing.run_time, row.timing.separation, row.timing.deadline, row.cap
    )
}

fn print_sheet(rt: &impl Print, sheet: &Sheet) -> io::Result<()> {
    println!(rt; "priority  run time  separation   deadline  cap")?;
    let mut rows = (1..=PRIORITIES)
        .map(Priority)
        .filter_map(|p| Some((p, sheet.row(p)?)))
        .peekable();
    if rows.peek().is_none() {
        println!(rt; "  (none)")?;
    }
    for (p, row) in rows {
        print_row(rt, p, row)?;
    }
    Ok(())
}

fn run(rt: &HostRuntime) -> anyhow::Result<()> {
    let mut text = Vec::new(rt.alloc());
    rt.stdin().take(LONGEST as u64 + 1).read_to_end(&mut text)?;
    ensure!(
        text.len() <= LONGEST,
        "the script is longer than {LONGEST} bytes"
    );
    let report = run_script(&text, rt.alloc())?;
    print_replies(rt, &report.replies)?;
    println!(rt)?;
    print_sheet(rt, &report.sheet)?;
    Ok(())
}

fn main(rt: HostRuntime) -> anyhow::Result<()> {
    run(&rt)
}
