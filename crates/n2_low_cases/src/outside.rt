//! Cases of the outside.

use n2_cases::{NoAnswer, bytes_in, number_in, put, put_byte, put_shown, words_of};
use n2_outside::{
    DirFolder, FetchFault, FileSink, Folder, MemFolder, MemSink, NullSink, Sink, put_all,
};
use std::alloc::Global;
use std::rt::Files;

/// A case of one of the kinds below, without files.
pub fn answer(alloc: Global, kind: &str, rest: &str, out: &mut Vec<u8>) -> Result<(), NoAnswer> {
    let (first, rest) = rest.split_once('|').ok_or(NoAnswer::NoCase)?;
    let (second, rest) = rest.split_once('|').ok_or(NoAnswer::NoCase)?;
    match kind {
        "folder" => folder(alloc, [first, second, rest], out),
        _ => sink(alloc, kind == "all", [first, second, rest], out),
    }
}

/// `folder FILES | NUMBERS | NAME MOST | ..`: what a folder in memory answers to one fetch after
/// another, where the fetches of these numbers fail. FILES are names and texts without blanks.
fn folder(
    alloc: Global,
    [files, failing, fetches]: [&str; 3],
    out: &mut Vec<u8>,
) -> Result<(), NoAnswer> {
    let mut folder = folder_of(alloc, files, failing)?;
    for fetch in fetches.split('|') {
        put_fetch(alloc, &mut folder, fetch.trim(), out)?;
    }
    Ok(())
}

fn folder_of(alloc: Global, files: &str, failing: &str) -> Result<MemFolder, NoAnswer> {
    let files = files_in(alloc, words_of(alloc, files)?.as_slice())?;
    Ok(MemFolder::new(files, numbers_in(alloc, failing)?))
}

fn files_in(alloc: Global, words: &[&str]) -> Result<Vec<(String, Vec<u8>)>, NoAnswer> {
    let mut files = Vec::new(alloc);
    for pair in words.chunks(2) {
        let [name, text] = *pair else {
            return Err(NoAnswer::NoCase);
        };
        if files.push(file_of(alloc, name, text)?).is_err() {
            return Err(NoAnswer::NoMemory);
        }
    }
    Ok(files)
}

fn file_of(alloc: Global, name: &str, text: &str) -> Result<(String, Vec<u8>), NoAnswer> {
    Ok((name.to_string(alloc)?, bytes_in(alloc, text)?))
}

fn numbers_in(alloc: Global, text: &str) -> Result<Vec<u64>, NoAnswer> {
    let mut numbers = Vec::new(alloc);
    for word in text.split_whitespace() {
        if numbers.push(number_in(u64::MAX, word)?).is_err() {
            return Err(NoAnswer::NoMemory);
        }
    }
    Ok(numbers)
}

/// Appends the bytes of a file that is fetched, `NAME MOST`, or why it is not.
fn put_fetch<F: Folder>(
    alloc: Global,
    folder: &mut F,
    fetch: &str,
    out: &mut Vec<u8>,
) -> Result<(), NoAnswer> {
    let (name, most) = fetch.split_once(' ').ok_or(NoAnswer::NoCase)?;
    put_fetched(
        alloc,
        folder,
        name,
        number_in(u64::MAX, most)? as usize,
        out,
    )
}

fn put_fetched<F: Folder>(
    alloc: Global,
    folder: &mut F,
    name: &str,
    most: usize,
    out: &mut Vec<u8>,
) -> Result<(), NoAnswer> {
    match folder.fetch(alloc, name, most) {
        Ok(bytes) => put_bytes(&bytes, out),
        Err(FetchFault::NoMemory) => Err(NoAnswer::NoMemory),
        Err(fault) => {
            put_shown(out, "", &fault)?;
            put(out, ";")
        }
    }
}

fn put_bytes(bytes: &[u8], out: &mut Vec<u8>) -> Result<(), NoAnswer> {
    for byte in bytes {
        put_byte(out, *byte)?;
    }
    put(out, ";")
}

/// `file TEXT MOST`: what the current folder answers to the fetch of a file of that name.
pub fn file<R: Files>(
    alloc: Global,
    rt: &R,
    rest: &str,
    out: &mut Vec<u8>,
) -> Result<(), NoAnswer> {
    let (name, most) = rest.split_once(' ').ok_or(NoAnswer::NoCase)?;
    let most = number_in(u64::MAX, most)? as usize;
    let name = text_in(alloc, name)?;
    put_fetched(alloc, &mut DirFolder::new(rt), name.as_str(), most, out)
}

fn text_in(alloc: Global, text: &str) -> Result<String, NoAnswer> {
    match String::from_utf8(bytes_in(alloc, text)?) {
        Ok(text) => Ok(text),
        Err(_) => Err(NoAnswer::NoCase),
    }
}

/// `sink NUMBERS | MOST ROOM | TEXT | ..` and `all ..`: what a sink in memory answers to one put after
/// another, or to each text that is put whole, and what was written then. It takes at most MOST bytes
/// at a put and has ROOM for bytes, and the puts of these numbers fail.
fn sink(
    alloc: Global,
    whole: bool,
    [failing, sizes, texts]: [&str; 3],
    out: &mut Vec<u8>,
) -> Result<(), NoAnswer> {
    let mut sink = sink_of(alloc, failing, sizes.trim())?;
    put_texts(alloc, &mut sink, whole, texts, out)?;
    put_bytes(sink.written(), out)
}

/// Appends what the puts of some texts answer.
fn put_texts<S: Sink>(
    alloc: Global,
    sink: &mut S,
    whole: bool,
    texts: &str,
    out: &mut Vec<u8>,
) -> Result<(), NoAnswer> {
    for text in texts.split('|') {
        put_to(sink, whole, &bytes_in(alloc, text.trim())?, out)?;
    }
    Ok(())
}

fn sink_of(alloc: Global, failing: &str, sizes: &str) -> Result<MemSink, NoAnswer> {
    let (most, room) = sizes.split_once(' ').ok_or(NoAnswer::NoCase)?;
    let most = number_in(65_536, most)? as usize;
    let room = number_in(65_536, room)? as usize;
    let failing = numbers_in(alloc, failing)?;
    if most == 0 {
        return Err(NoAnswer::NoCase);
    }
    Ok(MemSink::new(alloc, failing, most, room)?)
}

/// Appends what a put of a text answers.
fn put_to<S: Sink>(
    sink: &mut S,
    whole: bool,
    text: &[u8],
    out: &mut Vec<u8>,
) -> Result<(), NoAnswer> {
    if whole {
        put_shown(out, "", &put_all(sink, text))?;
    } else {
        put_shown(out, "", &sink.put(text))?;
    }
    put(out, ";")
}

/// `put NAME | TEXT | ..`: what a sink over a file answers to one put after another, and what the current
/// folder then has in it. The file is `put.txt`, or with the name `.` the folder itself, which cannot be
/// made.
pub fn put_to_file<R: Files>(
    alloc: Global,
    rt: &R,
    rest: &str,
    out: &mut Vec<u8>,
) -> Result<(), NoAnswer> {
    let Some((first, texts)) = rest.split_once('|') else {
        return Err(NoAnswer::NoCase);
    };
    let name = if first.trim() == "." { "." } else { "put.txt" };
    put_texts(alloc, &mut FileSink::new(rt, name), false, texts, out)?;
    put_fetched(alloc, &mut DirFolder::new(rt), name, 64, out)
}

/// `null TEXT`: what the sink that keeps nothing answers.
pub fn null(text: &[u8], out: &mut Vec<u8>) -> Result<(), NoAnswer> {
    put_to(&mut NullSink::new(), true, text, out)
}
