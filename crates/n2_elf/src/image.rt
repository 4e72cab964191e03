//! What an executable is to a system of cores: an entry and segments.

ghost use Rattle.std.specs.Prelude.{◌≡◌, ◌≢◌, ◌↔◌, ◌<◌, ◌^◌, IsTrue, IfOk, IfErr, Ok, Err, length, take};
ghost use Rattle.n2_elf.specs.Reading.{magic, has_magic, raw_image, elf, IsSized};
ghost use Rattle.n2_elf.specs.Writing.{IsWritable, file_of};

use crate::reading::{check_header, check_programs, load};
use crate::writing::{put_contents, put_header, put_programs};
use n2_text::Items;
use n2_word::{NoMemory, word_at};
use std::alloc::Global;

/// Bytes that stand at an address of memory, and how much memory they are part of: behind the
/// bytes the segment has zeros up to its size. `exec` and `write` are PF_X and PF_W of ELF32,
/// "Program Header", "Segment Permissions".
#[derive(Debug, Drop)]
pub struct Segment {
    pub at: u32,
    pub bytes: Items<u8>,
    pub size: u32,
    pub exec: bool,
    pub write: bool,
}

/// The address of the first instruction, and the segments in the order of their program headers.
#[derive(Debug, Drop)]
pub struct Image {
    pub entry: u32,
    pub segments: Items<Segment>,
}

/// What is wrong in a file: the first fault of the header's fields and then of the program headers
/// in order. `Cut` has the offset in the file of what does not fit in it, `Sizes` the number of the
/// program header, and the others the field's value.
#[derive(Clone, Copy, Debug, PartialEq, Eq)]
pub enum ElfFault {
    NotElf,
    Cut(u64),
    WrongClass,
    WrongMachine(u16),
    WrongType(u16),
    Flags(u32),
    EntrySize(u16),
    Sizes(u16),
    NoSegment,
    NoMemory,
}

impl From<NoMemory> for ElfFault {
    ghost use Rattle.n2_elf.specs.declared.image.ElfFault.TheVariants as faults;

    ghost from_gives = { λ _ fault. fault ≡ faults.NoMemory };

    fn from(_refused: NoMemory) -> ElfFault {
        ElfFault::NoMemory
    }
}

impl Image {
    /// Whether a file begins as ELF files do: 7F, `ELF` (ELF32, "ELF Identification").
    pub fn is_elf(bytes: &[u8]) -> bool
        ensures value { result ≡ has_magic bytes.now }
        ensures exact { IsTrue result ↔ (take 4 bytes.now ≡ magic) }
    {
        matches!(bytes, [0x7f, b'E', b'L', b'F', ..])
    }

    /// The image of a file without a header: one executable segment at an address, which is the
    /// entry too; no segment for an empty file.
    #[tactic(auto, unfolding(crate::specs::Reading::raw_image))]
    pub fn raw(alloc: Global, bytes: &[u8], at: u32) -> Result<Image, ElfFault>
        requires { length bytes.now < 2 ^ 32 }
        ensures ok { IfOk result (λ image. image ≡ raw_image bytes.now at) }
        ensures sized { IfOk result (λ image. IsSized image) }
        ensures fault { IfErr result (λ fault. fault ≡ ElfFault.NoMemory) }
    {
        let mut segments = Items::new(alloc);
        if !bytes.is_empty() {
            segments.push(Segment {
                at,
                bytes: Items::from_slice(alloc, bytes)?,
                size: bytes.len() as u32,
                exec: true,
                write: false,
            })?;
        }
        Ok(Image {
            entry: at,
            segments,
        })
    }

    /// The image of a file (ELF32, "ELF Header" and "Program Header"), or its first fault. Segments
    /// lie at their physical addresses. Sections, and program headers of other types than PT_LOAD
    /// or without memory, are passed over.
    #[tactic(auto, unfolding(crate::specs::Reading::elf, crate::specs::Reading::fault_of))]
    pub fn read(alloc: Global, bytes: &[u8]) -> Result<Image, ElfFault>
        ensures ok { IfOk result (λ image. elf bytes.now ≡ Ok image) }
        ensures sized { IfOk result (λ image. IsSized image) }
        ensures fault { IfErr result (λ fault. fault ≢ ElfFault.NoMemory → elf bytes.now ≡ Err fault) }
    {
        check_header(bytes)?;
        check_programs(bytes)?;
        let segments = load(alloc, bytes)?;
        if segments.len() == 0 {
            return Err(ElfFault::NoSegment);
        }
        Ok(Image {
            entry: word_at(bytes, 24),
            segments,
        })
    }

    /// The file of an image: the header, the program headers, and the bytes of the segments without
    /// gaps. There are no sections. The file is read as the same image.
    #[tactic(auto, unfolding(crate::specs::Writing::file_of))]
    pub fn write(&self, alloc: Global) -> Result<Vec<u8>, ElfFault>
        requires { IsWritable self.now }
        ensures ok { IfOk result (λ file. file.items ≡ file_of self.now) }
        ensures reads_back { IfOk result (λ file. elf file.items ≡ Ok self.now) }
        ensures fault { IfErr result (λ fault. fault ≡ ElfFault.NoMemory) }
    {
        let segments = self.segments.as_slice();
        let mut out = Vec::new(alloc);
        put_header(&mut out, self.entry, segments.len() as u16)?;
        put_programs(&mut out, segments)?;
        put_contents(&mut out, segments)?;
        Ok(out)
    }
}
