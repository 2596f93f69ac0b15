//! Whole runs of the program as data, how the adapters over std meet a fault, and calls that no command makes.
//!
//! Standard input is a table (`table.rt` says what its lines mean): texts, and with each text
//! questions, which are the words of a run and the status and the answer that must come. Each
//! question is put to `serve` over a source and a sink in memory. A line says what came. After the table come
//! readers and writers of std that fail, and public calls of the lower crates that no command makes by itself. The last
//! line says how many cases there were and how many agree.
//!
//! ```
//! crates/um_tests/out/um_tests < crates/um_tests/stdin
//! ```
#![tactic(auto)]

mod calls;
mod certificates;
mod faults;
mod machine;
mod piece;
mod run;
mod table;
mod trees;
mod turns;

use calls::report_calls;
use faults::report_faults;
use run::{Tally, report};
use std::io;
use std::test::Fail;
use table::Case;

fn main(rt: HostRuntime) -> Result<(), Fail> {
    let table = io::read_to_string(rt.alloc(), rt.stdin())?;
    let mut total = Tally { runs: 0, agree: 0 };
    report_table(&rt, &table, &mut total)?;
    report_faults(&rt, &mut total)?;
    report_calls(&rt, &mut total)?;
    let Tally { runs, agree } = total;
    println!(rt; "{runs} cases, {agree} agree")?;
    Ok(())
}

fn report_table<R: Print + AllocGlobal>(
    rt: &R,
    table: &str,
    total: &mut Tally,
) -> Result<(), Fail> {
    let mut case = Case::new(rt.alloc());
    for (before, line) in table.lines().enumerate() {
        put_line(rt, &mut case, line, total)?;
        if let Some(why) = case.fault {
            return refuse(rt, before.saturating_add(1), why);
        }
    }
    report(rt, &case, total)
}

// A question is put when the next question, the next text or the table's end comes.
fn put_line<'a, R: Print + AllocGlobal>(
    rt: &R,
    case: &mut Case<'a>,
    line: &'a str,
    total: &mut Tally,
) -> Result<(), Fail> {
    let (key, rest) = line.split_once(' ').unwrap_or((line, ""));
    if key == "text" || key == "$" {
        report(rt, case, total)?;
    }
    Ok(case.add_line(rt.alloc(), key, rest)?)
}

fn refuse<R: Print>(rt: &R, line: usize, why: &str) -> Result<(), Fail> {
    println!(rt; "line {line}: {why}")?;
    Err(Fail::new("the table was not read"))
}
