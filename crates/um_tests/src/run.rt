// Putting a question, and saying what came.
use crate::table::{Case, WHOLE, Wire};
use crate::turns::report_turns;
use std::alloc::{AllocError, Global};
use std::str;
use std::test::Fail;
use um_tool::serve;
use um_wire::{MemSink, MemSource};

/// How many runs there were, and how many came out as the table has them.
#[derive(Clone, Copy)]
pub struct Tally {
    pub runs: u64,
    pub agree: u64,
}

impl Tally {
    /// Counts one more run.
    pub fn add(&mut self, agrees: bool) {
        self.runs = self.runs.saturating_add(1);
        if agrees {
            self.agree = self.agree.saturating_add(1);
        }
    }
}

/// Puts the question, if there is one, over each of its sources, and prints what came.
pub fn report<R: Print + AllocGlobal>(rt: &R, case: &Case, total: &mut Tally) -> Result<(), Fail> {
    if !case.is_asked {
        return Ok(());
    }
    if let Some(turns) = case.turns {
        return report_turns(rt, case, turns, total);
    }
    if case.sources.is_empty() {
        return report_run(rt, case, WHOLE, total);
    }
    for source in &case.sources {
        report_run(rt, case, *source, total)?;
    }
    Ok(())
}

fn report_run<R: Print + AllocGlobal>(
    rt: &R,
    case: &Case,
    source: Wire,
    total: &mut Tally,
) -> Result<(), Fail> {
    let (status, sink) = ask(rt.alloc(), case, &case.text, source, case.sink)?;
    report_answer(rt, case, status, sink.bytes(), total)
}

fn report_answer<R: Print>(
    rt: &R,
    case: &Case,
    status: usize,
    answer: &[u8],
    total: &mut Tally,
) -> Result<(), Fail> {
    let agrees = is_wanted(case, status, answer);
    total.add(agrees);
    let (title, question) = (case.title, case.question);
    let (lines, shown) = (count_of_lines(answer), first_line(answer));
    println!(rt; "{title}: {question}: {status}, {lines} lines: {shown}")?;
    if agrees {
        return Ok(());
    }
    let (wanted, shown) = (
        case.status.unwrap_or(u8::MAX as usize),
        first_line(&case.answer),
    );
    println!(rt; "  THAT DIFFERS: wanted {wanted}: {shown}")?;
    Ok(())
}

/// Prints how a try came out, and counts it.
pub fn report_try<R: Print>(
    rt: &R,
    title: &str,
    agrees: bool,
    total: &mut Tally,
) -> Result<(), Fail> {
    total.add(agrees);
    let shown = if agrees { "agrees" } else { "DIFFERS" };
    println!(rt; "{title}: {shown}")?;
    Ok(())
}

/// The status of one run of the question's words over the bytes, and the sink with its answer.
pub fn ask(
    alloc: Global,
    case: &Case,
    bytes: &[u8],
    source: Wire,
    sink: Wire,
) -> Result<(usize, MemSink), AllocError> {
    let mut sink = sink_of(alloc, case.room, sink)?;
    let mut source = source_of(alloc, bytes, source)?;
    let status = serve(alloc, &case.words, &mut source, &mut sink);
    Ok((status.number() as usize, sink))
}

fn sink_of(alloc: Global, room: usize, wire: Wire) -> Result<MemSink, AllocError> {
    let fails = calls(alloc, wire.fail)?;
    MemSink::new(alloc, room, wire.piece.max(1), fails)
}

fn source_of(alloc: Global, bytes: &[u8], wire: Wire) -> Result<MemSource, AllocError> {
    let fails = calls(alloc, wire.fail)?;
    let bytes = bytes.to_vec(alloc)?;
    Ok(MemSource::new(bytes, wire.piece.max(1), fails))
}

fn calls(alloc: Global, fail: Option<u64>) -> Result<Vec<u64>, AllocError> {
    let mut calls = Vec::new(alloc);
    if let Some(call) = fail {
        calls.push(call)?;
    }
    Ok(calls)
}

/// Whether a run came out as the table has it.
pub fn is_wanted(case: &Case, status: usize, answer: &[u8]) -> bool {
    case.status == Some(status) && case.answer.as_slice() == answer
}

fn count_of_lines(answer: &[u8]) -> usize {
    let mut lines: usize = 0;
    for byte in answer {
        if *byte == b'\n' {
            lines = lines.saturating_add(1);
        }
    }
    lines
}

/// The first line of an answer, and no more than its first hundred bytes.
pub fn first_line(answer: &[u8]) -> &str {
    let text = str::from_utf8(answer).unwrap_or("(not UTF-8)");
    let line = text.lines().next().unwrap_or("");
    line.get(..100).unwrap_or(line)
}
