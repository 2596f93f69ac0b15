// Questions that are put many times, while one thing changes from run to run.
use crate::piece::number;
use crate::run::{Tally, ask, first_line, is_wanted};
use crate::table::{Case, Turns, WHOLE, Wire};
use std::alloc::{AllocError, Global};
use std::str;
use std::test::Fail;

/// Puts a question in all its turns, and prints how many runs came out as they must.
pub fn report_turns<R: Print + AllocGlobal>(
    rt: &R,
    case: &Case,
    turns: Turns,
    total: &mut Tally,
) -> Result<(), Fail> {
    let (asked, faulty) = count_of_runs(case, turns);
    let mut agree: usize = 0;
    for turn in 0..asked {
        if turn_agrees(rt.alloc(), case, turns, turn, faulty)? {
            agree = agree.saturating_add(1);
        }
    }
    total.add(asked == agree);
    let (title, question, shown) = (case.title, case.question, first_line(&case.answer));
    println!(rt; "{title}: {question}: {agree} of {asked} runs: {shown}")?;
    Ok(())
}

// How many runs there are, and how many of them meet a fault or a text that is cut off: a read for each piece
// of the text and one at its end, a write for each piece of the answer, or each proper prefix of the text. After
// the reads and the writes comes a run that meets no fault.
fn count_of_runs(case: &Case, turns: Turns) -> (usize, usize) {
    let faulty = match turns {
        Turns::Reads(piece) => pieces(case.text.len(), piece).saturating_add(1),
        Turns::Writes => pieces(case.answer.len(), case.sink.piece),
        Turns::Prefixes(_) => return (case.text.len(), case.text.len()),
    };
    (faulty.saturating_add(1), faulty)
}

// Whether the run of one turn comes out right.
fn turn_agrees(
    alloc: Global,
    case: &Case,
    turns: Turns,
    turn: usize,
    faulty: usize,
) -> Result<bool, AllocError> {
    let fail = Some(turn as u64);
    let (bytes, source, sink) = match turns {
        Turns::Reads(piece) => (case.text.as_slice(), Wire { piece, fail }, case.sink),
        Turns::Writes => {
            let piece = case.sink.piece;
            (case.text.as_slice(), WHOLE, Wire { piece, fail })
        }
        Turns::Prefixes(_) => (case.text.get(..turn).unwrap_or(b""), WHOLE, WHOLE),
    };
    let (status, sink) = ask(alloc, case, bytes, source, sink)?;
    let answer = sink.bytes();
    Ok(if turn == faulty {
        is_wanted(case, status, answer)
    } else {
        match turns {
            Turns::Reads(_) => status == 15 && answer == b"error 15: read\n".as_slice(),
            Turns::Writes => status == 16 && answer == taken_before(case, turn),
            Turns::Prefixes(most) => status <= most && (status == 0 || is_within(answer, bytes)),
        }
    })
}

// The bytes that a sink took before the write with this number.
fn taken_before<'a>(case: &'a Case, call: usize) -> &'a [u8] {
    let taken = call.saturating_mul(case.sink.piece.max(1));
    case.answer.get(..taken).unwrap_or(&case.answer)
}

// How many pieces so many bytes make.
fn pieces(bytes: usize, piece: usize) -> usize {
    let most = piece.max(1);
    bytes / most + if bytes % most == 0 { 0 } else { 1 }
}

// Whether the place that a report line names, if it names one, isn't after the end of an ASCII text.
fn is_within(report: &[u8], text: &[u8]) -> bool {
    let report = str::from_utf8(report).unwrap_or(" at nowhere");
    let line = report.strip_suffix("\n").unwrap_or(report);
    let Some((_, place)) = line.rsplit_once(" at ") else {
        return true;
    };
    let Some((line, column)) = place.split_once(':') else {
        return place == "end";
    };
    let mut fault = None;
    let (line, column) = (number(line, &mut fault), number(column, &mut fault));
    let (mut last, mut end): (usize, usize) = (1, 1);
    for byte in text {
        (last, end) = if *byte == b'\n' {
            (last.saturating_add(1), 1)
        } else {
            (last, end.saturating_add(1))
        };
    }
    fault.is_none() && (line < last || line == last && column <= end)
}
