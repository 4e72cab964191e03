//! Cases of layouts.

ghost use Rattle.std.specs.Prelude.{◌≡◌, IfOk, IfSome, length};
ghost use Rattle.n2_parts.specs.Valid.{IsValid};

use crate::shared;
use n2_board::{Direction, Layout, OpenFault, Place, Route};
use n2_boardtext::kind_name;
use n2_cases::{NoAnswer, number_in, put, put_shown, width_in, word_in, words_of};
use n2_elf::{Image, Segment};
use n2_parts::Board;
use n2_text::Items;
use n2_word::Width;
use std::alloc::Global;

/// `layout TEXT | IMAGE | .. | LOOK-UP | ..`: whether the images fit the board of a text, and then
/// what each look-up gives. An image for each core is `image ENTRY` with KIND, AT and SIZE of each
/// segment, of which KIND is `r`, `x`, `w` or `wx`; the segments hold no bytes. A look-up is `class
/// LINE ..`, `place ADDRESS ..`, `fetch ADDRESS ..`, or `load CORE WIDTH ADDRESS ..`, `store`, `loadio`
/// or `storeio`.
pub fn layout(alloc: Global, board: &Board, fields: &str, out: &mut Vec<u8>) -> Result<(), NoAnswer>
    requires { IsValid board.now }
{
    let images = images_in(alloc, fields)?;
    match opened(alloc, board, images.as_slice(), out)? {
        Some(layout) => put_look_ups(alloc, &layout, fields, out),
        None => Ok(()),
    }
}

/// The layout of a board with images; where they do not fit, why is appended.
fn opened(
    alloc: Global,
    board: &Board,
    images: &[Image],
    out: &mut Vec<u8>,
) -> Result<Option<Layout>, NoAnswer>
    requires { IsValid board.now }
{
    if images.len() != board.core.len() {
        return Err(NoAnswer::NoCase);
    }
    match Layout::open(alloc, board, images) {
        Ok(layout) => {
            put(out, "opens")?;
            Ok(Some(layout))
        }
        Err(OpenFault::NoMemory) => Err(NoAnswer::NoMemory),
        Err(fault) => {
            put_shown(out, "", &fault)?;
            Ok(None)
        }
    }
}

/// The images among some fields.
fn images_in(alloc: Global, fields: &str) -> Result<Items<Image>, NoAnswer> {
    let mut images = Items::new(alloc);
    for field in fields.split('|') {
        match image_in(alloc, &words_of(alloc, field)?)? {
            Some(image) => images.push(image)?,
            None => (),
        }
    }
    Ok(images)
}

/// The image of a field, if that is an image.
fn image_in(alloc: Global, words: &[&str]) -> Result<Option<Image>, NoAnswer> {
    match words {
        ["image", entry, segments @ ..] => Ok(Some(image_of(alloc, entry, segments)?)),
        _ => Ok(None),
    }
}

fn image_of(alloc: Global, entry: &str, words: &[&str]) -> Result<Image, NoAnswer> {
    let entry = word_in(entry)?;
    let mut segments = Items::new(alloc);
    for row in words.chunks(3) {
        match row {
            [kind, at, size] => segments.push(segment_in(alloc, kind, at, size)?)?,
            _ => return Err(NoAnswer::NoCase),
        }
    }
    Ok(Image { entry, segments })
}

fn segment_in(alloc: Global, kind: &str, at: &str, size: &str) -> Result<Segment, NoAnswer> {
    let (exec, write) = match kind {
        "r" => (false, false),
        "x" => (true, false),
        "w" => (false, true),
        "wx" => (true, true),
        _ => return Err(NoAnswer::NoCase),
    };
    Ok(Segment {
        at: word_in(at)?,
        bytes: Items::new(alloc),
        size: word_in(size)?,
        exec,
        write,
    })
}

/// Appends what the look-ups among some fields give.
fn put_look_ups(
    alloc: Global,
    layout: &Layout,
    fields: &str,
    out: &mut Vec<u8>,
) -> Result<(), NoAnswer> {
    shared(layout);
    for field in fields.split('|') {
        put_field(layout, &words_of(alloc, field)?, out)?;
    }
    Ok(())
}

fn put_field(layout: &Layout, words: &[&str], out: &mut Vec<u8>) -> Result<(), NoAnswer> {
    match words {
        ["image", ..] => Ok(()),
        [kind, words @ ..] => {
            put(out, "; ")?;
            put(out, kind)?;
            put_look_up(layout, kind, words, out)
        }
        [] => Err(NoAnswer::NoCase),
    }
}

fn put_look_up(
    layout: &Layout,
    kind: &str,
    words: &[&str],
    out: &mut Vec<u8>,
) -> Result<(), NoAnswer> {
    match kind {
        "class" => put_classes(layout, words, out),
        "place" => put_places(layout, words, out),
        "fetch" => put_fetches(layout, words, out),
        "load" => put_accesses(layout, Direction::Load, false, words, out),
        "store" => put_accesses(layout, Direction::Store, false, words, out),
        "loadio" => put_accesses(layout, Direction::Load, true, words, out),
        "storeio" => put_accesses(layout, Direction::Store, true, words, out),
        _ => Err(NoAnswer::NoCase),
    }
}

fn put_classes(layout: &Layout, lines: &[&str], out: &mut Vec<u8>) -> Result<(), NoAnswer> {
    for line in lines {
        put_shown(out, " ", &layout.class_of(word_in(line)?))?;
    }
    Ok(())
}

fn put_places(layout: &Layout, addresses: &[&str], out: &mut Vec<u8>) -> Result<(), NoAnswer> {
    for address in addresses {
        put_place(layout.place(word_in(address)?), out)?;
    }
    Ok(())
}

fn put_place(place: Place, out: &mut Vec<u8>) -> Result<(), NoAnswer> {
    match place {
        Place::Memory => put(out, " memory"),
        Place::Device { part, offset } => {
            put(out, " ")?;
            put_shown(out, kind_name(part.kind), &part.index)?;
            put_shown(out, "[", &offset)?;
            put(out, "]")
        }
        Place::Nothing => put(out, " nothing"),
    }
}

fn put_fetches(layout: &Layout, addresses: &[&str], out: &mut Vec<u8>) -> Result<(), NoAnswer> {
    for address in addresses {
        put_shown(out, " ", &layout.fetch_violation(word_in(address)?))?;
    }
    Ok(())
}

fn put_accesses(
    layout: &Layout,
    direction: Direction,
    io: bool,
    words: &[&str],
    out: &mut Vec<u8>,
) -> Result<(), NoAnswer> {
    let [core, width, addresses @ ..] = words else {
        return Err(NoAnswer::NoCase);
    };
    let core = number_in(7, core)? as u32;
    let width = width_in(width)?;
    for address in addresses {
        put_access(layout, core, word_in(address)?, width, direction, io, out)?;
    }
    Ok(())
}

fn put_access(
    layout: &Layout,
    core: u32,
    address: u32,
    width: Width,
    direction: Direction,
    io: bool,
    out: &mut Vec<u8>,
) -> Result<(), NoAnswer> {
    let route = Route::of(address, io);
    put_shown(
        out,
        " ",
        &layout.data_target(core, address, width, route, direction),
    )
}
