//! The program `n2_board_cases`: cases of images, boards, layouts, devices, memories, buses, journals and
//! watches, a row of standard input each, are answered by the libraries. `n2_cases` says how rows are written.
#![tactic(auto)]

mod boards;
mod bus;
mod devices;
mod images;
mod journals;
mod layouts;
mod memories;
mod watches;

ghost use Rattle.n2_parts.specs.Valid.{IsValid};

use n2_cases::{Cases, NoAnswer, answer_rows, put};
use n2_parts::Board;
use std::alloc::Global;
use std::io;

/// Threads can share and move a value of such a type.
fn shared<T: Send + Sync>(_value: &T) {}

struct BoardCases;

impl Cases for BoardCases {
    fn answer(&self, alloc: Global, case: &str, out: &mut Vec<u8>) -> Result<(), NoAnswer> {
        let (kind, rest) = halves(case, ' ')?;
        match kind {
            "elf" | "raw" | "iself" | "written" => images::answer(alloc, kind, rest, out),
            "names" => boards::names(out),
            "journal" => journals::journal(alloc, rest, out),
            "board" | "parts" => by_board(alloc, kind, rest, "", out),
            _ => {
                let (text, fields) = halves(rest, '|')?;
                by_board(alloc, kind, text, fields, out)
            }
        }
    }
}

/// What a text has before and behind the first of a character.
fn halves(text: &str, at: char) -> Result<(&str, &str), NoAnswer> {
    match text.split_once(at) {
        Some(halves) => Ok(halves),
        None => Err(NoAnswer::NoCase),
    }
}

/// A case of the board of a text; where that has none, what is wrong with it is the answer.
fn by_board(
    alloc: Global,
    kind: &str,
    text: &str,
    fields: &str,
    out: &mut Vec<u8>,
) -> Result<(), NoAnswer> {
    match boards::board_of(alloc, text, out)? {
        Some(board) => of_board(alloc, kind, &board, fields, out),
        None => Ok(()),
    }
}

fn of_board(
    alloc: Global,
    kind: &str,
    board: &Board,
    fields: &str,
    out: &mut Vec<u8>,
) -> Result<(), NoAnswer>
    requires { IsValid board.now }
{
    match kind {
        "board" => put(out, "valid"),
        "parts" => boards::parts(alloc, board, out),
        "layout" => layouts::layout(alloc, board, fields, out),
        "devices" => devices::devices(alloc, board, fields, out),
        "memory" => memories::memory(alloc, board, fields, out),
        "bus" => bus::bus(alloc, board, fields, out),
        "watch" => watches::watch(alloc, board, fields, out),
        _ => Err(NoAnswer::NoCase),
    }
}

fn main(rt: HostRuntime) -> io::Result<()> {
    answer_rows(&rt, &BoardCases)
}
