// The bytes that a line of the table stands for.
use std::alloc::AllocError;

/// What is wrong with a line of the table, if anything is.
pub type Fault = Option<&'static str>;

/// Adds the bytes of a line of a text or of an answer.
pub fn push_line(
    out: &mut Vec<u8>,
    fault: &mut Fault,
    key: &str,
    rest: &str,
) -> Result<(), AllocError> {
    match key {
        "|" => {
            push_piece(out, fault, rest, 0)?;
            out.extend_from_slice(b"\n")
        }
        "+" => push_piece(out, fault, rest, 0),
        "*" => push_rounds(out, fault, rest),
        _ => {
            *fault = Some("no such line");
            Ok(())
        }
    }
}

fn push_rounds(out: &mut Vec<u8>, fault: &mut Fault, rest: &str) -> Result<(), AllocError> {
    let (count, piece) = rest.split_once(' ').unwrap_or((rest, ""));
    for before in 0..number(count, fault) {
        push_piece(out, fault, piece, before.saturating_add(1))?;
    }
    Ok(())
}

/// Adds the bytes of a piece, its escapes put in, where `round` counts how often it stands.
pub fn push_piece(
    out: &mut Vec<u8>,
    fault: &mut Fault,
    piece: &str,
    round: usize,
) -> Result<(), AllocError> {
    let mut is_first = true;
    for part in piece.split('\\') {
        let plain = if is_first {
            part
        } else {
            push_escape(out, fault, part, round)?
        };
        out.extend_from_slice(plain.as_bytes())?;
        is_first = false;
    }
    Ok(())
}

// The escape at the start of a part after a backslash. Returns the rest of the part.
fn push_escape<'a>(
    out: &mut Vec<u8>,
    fault: &mut Fault,
    part: &'a str,
    round: usize,
) -> Result<&'a str, AllocError> {
    let (name, rest) = part.split_at_checked(1).unwrap_or((part, ""));
    let is_pushed = match name {
        "n" => out.extend_from_slice(b"\n"),
        "k" => push_number(out, round),
        "K" => push_number(out, round.saturating_add(1)),
        "m" => out.resize(out.len().saturating_add(LONGEST_WORD), b'a'),
        "x" => return push_byte(out, fault, rest),
        _ => {
            *fault = Some("no such escape");
            Ok(())
        }
    };
    match is_pushed {
        Ok(()) => Ok(rest),
        Err(error) => Err(error),
    }
}

// As many letters as a word of the program may have.
const LONGEST_WORD: usize = 1 << 20;

fn push_number(out: &mut Vec<u8>, number: usize) -> Result<(), AllocError> {
    out.extend_from_slice(itoa::Buffer::new().format(number).as_bytes())
}

// The byte of two hexadecimal digits.
fn push_byte<'a>(
    out: &mut Vec<u8>,
    fault: &mut Fault,
    part: &'a str,
) -> Result<&'a str, AllocError> {
    let (digits, rest) = part.split_at_checked(2).unwrap_or(("", part));
    match u8::from_str_radix(digits, 16) {
        Ok(byte) => out.extend_from_slice(&[byte])?,
        Err(_) => *fault = Some("no such escape"),
    }
    Ok(rest)
}

/// The number that a text spells.
pub fn number(text: &str, fault: &mut Fault) -> usize {
    match text.parse() {
        Ok(number) => number,
        Err(_) => {
            *fault = Some("no number");
            0
        }
    }
}
