//! The parts of a file.

ghost use Rattle.std.specs.Prelude.{◌≡◌, ◌+◌, ◌*◌, ◌<◌, ◌≤◌, ◌^◌, ◌++◌, OnOk, length};
ghost use Rattle.std.specs.List.{All};
ghost use Rattle.n2_elf.specs.Writing.{header_bytes, flags_of, program_bytes, programs_bytes, contents, contents_len};

use crate::image::Segment;
use n2_text::put_text;
use n2_word::{NoMemory, bytes_of};

/// The header of an executable whose program headers stand behind it.
#[tactic(auto, unfolding(crate::specs::Writing::header_bytes))]
fn header(entry: u32, count: u16) -> [u8; 52]
    ensures { result ≡ header_bytes entry count }
{
    let e = bytes_of(entry);
    let n = bytes_of(u32::from(count));
    [
        // e_ident
        0x7f, b'E', b'L', b'F', 1, 1, 1, 0, 0, 0, 0, 0, 0, 0, 0, 0, //
        // e_type, e_machine, e_version
        2, 0, 113, 0, 1, 0, 0, 0, //
        // e_entry, e_phoff, e_shoff, e_flags
        e[0], e[1], e[2], e[3], 52, 0, 0, 0, 0, 0, 0, 0, 0, 0, 0, 0, //
        // e_ehsize, e_phentsize, e_phnum, e_shentsize, e_shnum, e_shstrndx
        52, 0, 32, 0, n[0], n[1], 0, 0, 0, 0, 0, 0,
    ]
}

/// PF_R, PF_X and PF_W.
fn flags(segment: &Segment) -> u8
    ensures { result ≡ flags_of segment.now }
{
    4 + u8::from(segment.exec) + 2 * u8::from(segment.write)
}

/// The program header of a segment whose bytes stand at an offset.
#[tactic(auto, unfolding(crate::specs::Writing::program_bytes))]
fn program(offset: u32, segment: &Segment) -> [u8; 32]
    requires { length segment.now.bytes < 2 ^ 32 }
    ensures value { result ≡ program_bytes offset segment.now }
    ensures words { (segment.now.at < 2 ^ 32) × (segment.now.size < 2 ^ 32) }
{
    let o = bytes_of(offset);
    let a = bytes_of(segment.at);
    let n = bytes_of(segment.bytes.len() as u32);
    let s = bytes_of(segment.size);
    [
        // p_type, p_offset, p_vaddr, p_paddr
        1,
        0,
        0,
        0,
        o[0],
        o[1],
        o[2],
        o[3],
        a[0],
        a[1],
        a[2],
        a[3],
        a[0],
        a[1],
        a[2],
        a[3], //
        // p_filesz, p_memsz, p_flags, p_align
        n[0],
        n[1],
        n[2],
        n[3],
        s[0],
        s[1],
        s[2],
        s[3],
        flags(segment),
        0,
        0,
        0,
        1,
        0,
        0,
        0,
    ]
}

/// Appends the header.
pub fn put_header(out: &mut Vec<u8>, entry: u32, count: u16) -> Result<(), NoMemory>
    ensures { OnOk result (out.new.items ≡ out.old.items ++ header_bytes entry count) }
{
    put_text(out, &header(entry, count))
}

/// Appends the program headers of segments whose bytes stand behind them.
pub fn put_programs(out: &mut Vec<u8>, segments: &[Segment]) -> Result<(), NoMemory>
    requires few { length segments.now ≤ 64 }
    requires small { contents_len segments.now < 2 ^ 31 }
    ensures ok { OnOk result (out.new.items ≡ out.old.items ++ programs_bytes (52 + 32 * length segments.now) segments.now) }
    ensures words { OnOk result (All (λ s. (s.at < 2 ^ 32) × (s.size < 2 ^ 32)) segments.now) }
{
    let mut offset = 52 + 32 * segments.len() as u32;
    for segment in segments {
        put_text(out, &program(offset, segment))?;
        offset += segment.bytes.len() as u32;
    }
    Ok(())
}

/// Appends the bytes of segments.
pub fn put_contents(out: &mut Vec<u8>, segments: &[Segment]) -> Result<(), NoMemory>
    ensures { OnOk result (out.new.items ≡ out.old.items ++ contents segments.now) }
{
    for segment in segments {
        put_text(out, segment.bytes.as_slice())?;
    }
    Ok(())
}
