//! Cases of boards and their texts.

ghost use Rattle.std.specs.Prelude.{IfOk, IfSome};
ghost use Rattle.n2_parts.specs.Valid.{IsValid};

use n2_boardtext::{TextFault, key_name, kind_name, put_fault};
use n2_cases::{NoAnswer, bytes_in, put, put_shown};
use n2_parts::{ARRAYS, Board, Key, valid};
use n2_text::Items;
use std::alloc::Global;
use std::fmt::Debug;

/// The board of a field that is a text; where it has none, what is wrong with it is appended.
pub fn board_of(alloc: Global, field: &str, out: &mut Vec<u8>) -> Result<Option<Board>, NoAnswer>
    ensures { IfOk result (λ found. IfSome found IsValid) }
{
    board_in(alloc, &bytes_in(alloc, field.trim())?, out)
}

fn board_in(alloc: Global, text: &[u8], out: &mut Vec<u8>) -> Result<Option<Board>, NoAnswer>
    ensures { IfOk result (λ found. IfSome found IsValid) }
{
    match n2_boardtext::read(alloc, text) {
        Ok(board) => Ok(Some(board)),
        Err(TextFault::NoMemory) => Err(NoAnswer::NoMemory),
        Err(fault) => {
            put_fault(out, &fault)?;
            Ok(None)
        }
    }
}

/// `parts TEXT`: the numbers and parts of a copy of the board of a text. (`board TEXT` answers that the
/// text has a board, or what is wrong with it.)
pub fn parts(alloc: Global, board: &Board, out: &mut Vec<u8>) -> Result<(), NoAnswer> {
    put_board(&board.copy(alloc)?, out)
}

fn put_board(board: &Board, out: &mut Vec<u8>) -> Result<(), NoAnswer> {
    if valid(board).is_err() {
        put(out, "not valid: ")?;
    }
    put_parts(board, out)
}

fn put_parts(board: &Board, out: &mut Vec<u8>) -> Result<(), NoAnswer> {
    put_shown(out, "turns ", &board.turns)?;
    put_shown(out, " journal ", &board.journal)?;
    put_rows(out, &board.memory)?;
    put_rows(out, &board.core)?;
    put_devices(board, out)?;
    put_rows(out, &board.region)?;
    put_rows(out, &board.dump)?;
    put_rows(out, &board.script)
}

fn put_devices(board: &Board, out: &mut Vec<u8>) -> Result<(), NoAnswer> {
    put_rows(out, &board.mutex)?;
    put_rows(out, &board.mailbox)?;
    put_rows(out, &board.timer)?;
    put_rows(out, &board.uart)
}

fn put_rows<T: Debug>(out: &mut Vec<u8>, rows: &Items<T>) -> Result<(), NoAnswer> {
    for row in rows.as_slice() {
        put_shown(out, "; ", row)?;
    }
    Ok(())
}

/// `names ..`: the arrays of a board in order, and then the name of a key.
pub fn names(out: &mut Vec<u8>) -> Result<(), NoAnswer> {
    for kind in ARRAYS {
        put(out, kind_name(kind))?;
        put(out, " ")?;
    }
    put(out, key_name(Key::SendIrq))
}
