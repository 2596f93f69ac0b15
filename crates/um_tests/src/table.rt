// The table. Its lines, by their first word:
//
//   text TITLE      begins a text
//   | BYTES         adds the bytes to the text or to the answer, and a line feed
//   + BYTES         adds the bytes without a line feed
//   * COUNT BYTES   adds them COUNT times
//   $ WORDS         begins a question about the text: its words, parted by spaces or put in "
//   < PIECE [CALL]  a run with this many bytes a read, whose read CALL fails; a question has one run
//                   for each such line, or one run with a whole text a read
//   > PIECE ROOM [CALL]   the sink takes this many bytes a write and in all, and its write CALL fails
//   < PIECE each, > PIECE ROOM each   one run for each call in turn, which fails, and one that meets no
//                   fault: this one has the answer, the others the line on a failed read or its first bytes
//   ~ STATUS        one run for each proper prefix of the text: its status is at most this one, and it names
//                   no place after the prefix
//   = STATUS        begins the answer
//   # ..            says something to a reader, as an empty line does
//
// Calls are counted from 0. In BYTES and WORDS `\n` is a line feed and `\xFF` the byte of two
// hexadecimal digits, `\m` is 1,048,576 letters a; in a repeated piece `\k` is the number of the round,
// from 1, and `\K` the next.
use crate::piece::{Fault, number, push_line, push_piece};
use std::alloc::{AllocError, Global};
use std::str;
use um_tool::Words;

/// The lines of the table since the last text and its last question.
#[derive(Drop)]
pub struct Case<'a> {
    pub is_begun: bool,
    pub title: &'a str,
    pub text: Vec<u8>,
    pub is_asked: bool,
    pub question: &'a str,
    pub words: Words,
    pub sources: Vec<Wire>,
    pub turns: Option<Turns>,
    pub sink: Wire,
    pub room: usize,
    pub status: Option<usize>,
    pub answer: Vec<u8>,
    /// Why the last line was not read, if it wasn't.
    pub fault: Fault,
}

/// What changes from run to run of one question.
#[derive(Clone, Copy)]
pub enum Turns {
    /// The read that fails, with the most bytes a read.
    Reads(usize),
    /// The write that fails.
    Writes,
    /// Where the text is cut off, with the greatest status.
    Prefixes(usize),
}

/// The most bytes that a call moves, and the call that fails.
#[derive(Clone, Copy)]
pub struct Wire {
    pub piece: usize,
    pub fail: Option<u64>,
}

/// A source or a sink that moves all bytes at once and doesn't fail.
pub const WHOLE: Wire = Wire {
    piece: 1 << 21,
    fail: None,
};

impl<'a> Case<'a> {
    /// What stands before the first text.
    pub fn new(alloc: Global) -> Case<'a> {
        Case {
            is_begun: false,
            title: "",
            text: Vec::new(alloc),
            is_asked: false,
            question: "",
            words: Words::new(alloc),
            sources: Vec::new(alloc),
            turns: None,
            sink: WHOLE,
            room: WHOLE.piece,
            status: None,
            answer: Vec::new(alloc),
            fault: None,
        }
    }

    /// Adds a line of the table: its first word, and what follows a space.
    pub fn add_line(&mut self, alloc: Global, key: &str, rest: &'a str) -> Result<(), AllocError> {
        if key.is_empty() && rest.is_empty() || key.starts_with('#') {
            return Ok(());
        }
        if key == "text" {
            self.begin_text(rest);
            return Ok(());
        }
        if !self.is_begun {
            self.fault = Some("no text before this line");
            return Ok(());
        }
        if key == "$" {
            return self.begin_question(alloc, rest);
        }
        if self.is_asked {
            return self.add_to_question(key, rest);
        }
        push_line(&mut self.text, &mut self.fault, key, rest)
    }

    fn begin_text(&mut self, title: &'a str) {
        self.is_begun = true;
        self.title = title;
        self.text.clear();
        self.is_asked = false;
    }

    fn begin_question(&mut self, alloc: Global, line: &'a str) -> Result<(), AllocError> {
        self.is_asked = true;
        self.question = line;
        self.words = Words::new(alloc);
        self.sources.clear();
        self.turns = None;
        self.sink = WHOLE;
        self.room = WHOLE.piece;
        self.status = None;
        self.answer.clear();
        push_words(alloc, &mut self.words, &mut self.fault, line)
    }

    fn add_to_question(&mut self, key: &str, rest: &str) -> Result<(), AllocError> {
        match key {
            "=" => self.status = Some(number(rest, &mut self.fault)),
            "~" => self.turns = Some(Turns::Prefixes(number(rest, &mut self.fault))),
            "<" => return self.add_source(rest),
            ">" => self.set_sink(rest),
            _ if self.status.is_none() => self.fault = Some("no status before this line"),
            _ => return push_line(&mut self.answer, &mut self.fault, key, rest),
        }
        Ok(())
    }

    fn add_source(&mut self, rest: &str) -> Result<(), AllocError> {
        let (piece, call) = rest.split_once(' ').unwrap_or((rest, ""));
        let source = wire_of(piece, call, &mut self.fault);
        if call == "each" {
            self.turns = Some(Turns::Reads(source.piece));
            return Ok(());
        }
        Ok(self.sources.push(source)?)
    }

    fn set_sink(&mut self, rest: &str) {
        let (piece, rest) = rest.split_once(' ').unwrap_or((rest, ""));
        let (room, call) = rest.split_once(' ').unwrap_or((rest, ""));
        if call == "each" {
            self.turns = Some(Turns::Writes);
        }
        self.sink = wire_of(piece, call, &mut self.fault);
        self.room = number(room, &mut self.fault);
    }
}

// The most bytes that a call moves, and the call that fails, if one number is named.
fn wire_of(piece: &str, call: &str, fault: &mut Fault) -> Wire {
    Wire {
        piece: number(piece, fault),
        fail: match call {
            "" | "each" => None,
            _ => Some(number(call, fault) as u64),
        },
    }
}

fn push_words(
    alloc: Global,
    words: &mut Words,
    fault: &mut Fault,
    line: &str,
) -> Result<(), AllocError> {
    let mut is_quoted = false;
    for part in line.split('"') {
        for word in part.split(if is_quoted { '"' } else { ' ' }) {
            if is_quoted || !word.is_empty() {
                push_word(alloc, words, fault, word)?;
            }
        }
        is_quoted = !is_quoted;
    }
    Ok(())
}

fn push_word(
    alloc: Global,
    words: &mut Words,
    fault: &mut Fault,
    word: &str,
) -> Result<(), AllocError> {
    let mut bytes = Vec::new(alloc);
    push_piece(&mut bytes, fault, word, 0)?;
    match str::from_utf8(&bytes) {
        Ok(word) => words.push(alloc, word),
        Err(_) => {
            *fault = Some("a word that isn't UTF-8");
            Ok(())
        }
    }
}
