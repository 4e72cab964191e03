//! The commands of the tool, by their words.

ghost use Rattle.std.specs.Prelude.{◌≡◌, map, string_bytes};
ghost use Rattle.n2_text.specs.Fields.{numeral, at_most, from_one};
ghost use Rattle.n2_top.specs.Commands as spec;

use n2_order::Order;
use n2_text::numeral_up_to;

/// What the words of a command line ask for.
#[derive(Clone, Copy, Debug)]
pub enum Command<'a> {
    /// None of the table.
    Faulty,
    /// `plain FILE STEPS`: a file on the plain board for so many acts.
    Plain { file: &'a str, steps: u32 },
    /// `step BOARD ORDER`: a run of a board by an order.
    Step { board: &'a str, order: Order<'a> },
    /// `replay BOARD JOURNAL`: the run of a board that a journal tells.
    Replay { board: &'a str, journal: &'a str },
    /// `flat BOARD JOURNAL`: the flat machine along that run.
    Flat { board: &'a str, journal: &'a str },
    /// `asm FILE` and `asmhal FILE`: the ELF file of a source, without the routines of the HAL or with
    /// them.
    Assemble { file: &'a str, hal: bool },
    /// `dis FILE`: the words of an image as text.
    Disassemble { file: &'a str },
    /// `bench N`: the run of the workload of so many critical sections a core.
    Bench { sections: u32 },
}

/// `plain` makes at most so many acts.
const STEPS: u32 = 1_000_000;
/// A workload has at most so many critical sections a core.
const SECTIONS: u32 = 400;

/// A number from 1 to a limit.
fn number_in(limit: u32, word: &str) -> Option<u32>
    ensures { result ≡ from_one (at_most limit (numeral word.now)) }
{
    match numeral_up_to(u64::from(limit), word.as_bytes())? {
        0 => None,
        number => Some(number as u32),
    }
}

/// A command of three words.
#[tactic(auto, unfolding(crate::specs::Commands::three_words))]
fn in_three<'a>(name: &str, first: &'a str, second: &'a str) -> Command<'a>
    ensures command { spec.command_by result ≡ spec.three_words name.now first.now second.now }
    ensures turns { spec.HasTurnsIn result }
{
    match name {
        "plain" => match number_in(STEPS, second) {
            Some(steps) => Command::Plain { file: first, steps },
            None => Command::Faulty,
        },
        "step" => match Order::read(second) {
            Some(order) => Command::Step {
                board: first,
                order,
            },
            None => Command::Faulty,
        },
        "replay" => Command::Replay {
            board: first,
            journal: second,
        },
        "flat" => Command::Flat {
            board: first,
            journal: second,
        },
        _ => Command::Faulty,
    }
}

/// A command of two words.
#[tactic(auto, unfolding(crate::specs::Commands::two_words))]
fn in_two<'a>(name: &str, word: &'a str) -> Command<'a>
    ensures command { spec.command_by result ≡ spec.two_words name.now word.now }
    ensures turns { spec.HasTurnsIn result }
{
    match name {
        "asm" => Command::Assemble {
            file: word,
            hal: false,
        },
        "asmhal" => Command::Assemble {
            file: word,
            hal: true,
        },
        "dis" => Command::Disassemble { file: word },
        "bench" => match number_in(SECTIONS, word) {
            Some(sections) => Command::Bench { sections },
            None => Command::Faulty,
        },
        _ => Command::Faulty,
    }
}

/// What some words ask for.
pub fn command_in(words: &[String]) -> Command<'_>
    ensures command { spec.command_by result ≡ spec.command_of (map string_bytes words.now) }
    ensures turns { spec.HasTurnsIn result }
{
    match words {
        [name, first, second] => in_three(name.as_str(), first.as_str(), second.as_str()),
        [name, first] => in_two(name.as_str(), first.as_str()),
        _ => Command::Faulty,
    }
}
