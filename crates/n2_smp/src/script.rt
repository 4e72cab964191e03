//! The script of the device actor.

ghost use Rattle.std.specs.Prelude.{◌≡◌, IsTrue, IfSome, length, drop, slice_get};
ghost use Rattle.n2_parts.specs.declared.board.Board.{Board as BoardValue};
ghost use Rattle.n2_parts.specs.Valid.{IsValid};
ghost use Rattle.n2_bus.specs.Transfer.{request_for};
ghost use Rattle.n2_bus.specs.Wiring.{wiring_of, proper};
ghost use Rattle.n2_runs.specs.Machine.{events_of};
ghost use Rattle.n2_smp.specs.Scripts.{left, IsReached};

use n2_board::{Board, DeviceEvent};
use n2_parts::row;
use std::marker::Model;

/// How far the device actor has come in the script of a board: so many rows are passed, and the next
/// row's event was made so often. Contracts say which events are left.
#[derive(Debug, Drop)]
pub struct Script {
    row: u32,
    made: u32,
}

impl Model for Script {
    ghost use Rattle.n2_smp.specs.Scripts.{Reached};

    ghost Value = { Reached };

    ghost view = { λ s. record { row = s.row; made = s.made } };
}

impl Script {
    /// Before the first event of a script.
    pub fn new() -> Script
        ensures all { (b : BoardValue) → left b result ≡ events_of b.script }
        ensures reached { (b : BoardValue) → IsValid b → IsReached b result }
    {
        Script { row: 0, made: 0 }
    }

    /// The next event, or None where the script is used up. The board is the same at every call.
    #[inline(always)]
    pub fn event(&self, board: &Board) -> Option<DeviceEvent>
        requires { IsReached board.now self.now }
        ensures next { result ≡ slice_get (left board.now self.now) 0 }
        ensures proper { IfSome result (λ event. IsValid board.now → IsTrue (proper (wiring_of board.now) (length board.now.core) (request_for event))) }
    {
        match row(board.script.as_slice(), self.row) {
            Some(row) => Some(row.event),
            None => None,
        }
    }

    /// Goes past the next event, if there is one.
    pub fn pass(&mut self, board: &Board)
        requires valid { IsValid board.now }
        requires reached { IsReached board.now self.old }
        ensures next { left board.now self.new ≡ drop 1 (left board.now self.old) }
        ensures reached { IsReached board.now self.new }
    {
        match row(board.script.as_slice(), self.row) {
            Some(row) => {
                if self.made + 1 < row.times {
                    self.made += 1;
                } else {
                    self.row += 1;
                    self.made = 0;
                }
            }
            None => (),
        }
    }
}
