//! The segments of images that are loaded, and the lines that they cover.

ghost use Rattle.std.specs.Prelude.{◌≡◌, ◌<◌, ◌^◌, ◌++◌, [], ◌∷◌, IfOk, OnOk, length, map};
ghost use Rattle.n2_board.specs.Segments as spec;

use n2_elf::{Image, Segment};
use n2_parts::Span;
use n2_word::NoMemory;
use std::alloc::Global;

/// A segment of a core's image: its bytes, its lines, whether these are code, and whether they are
/// the core's own.
#[derive(Clone, Copy, Debug, PartialEq, Eq)]
pub struct LoadedSegment {
    pub core: u32,
    pub bytes: Span,
    pub lines: Span,
    pub code: bool,
    pub own: bool,
}

/// The lines of which some bytes cover a byte.
pub fn lines_of(from: u32, size: u32) -> Span
    ensures { result ≡ spec.lines_of from size }
{
    let from = u64::from(from);
    let size = u64::from(size);
    Span {
        from: from / 32,
        end: if size == 0 {
            from / 32
        } else {
            (from + size - 1) / 32 + 1
        },
    }
}

fn loaded_segment(core: u32, segment: &Segment) -> LoadedSegment
    ensures { result ≡ spec.loaded_segment core segment.now }
{
    let from = u64::from(segment.at);
    LoadedSegment {
        core,
        bytes: Span {
            from,
            end: from + u64::from(segment.size),
        },
        lines: lines_of(segment.at, segment.size),
        code: segment.exec || !segment.write,
        own: segment.write,
    }
}

/// Adds the segments of one image.
fn put_image(out: &mut Vec<LoadedSegment>, core: u32, segments: &[Segment]) -> Result<(), NoMemory>
    ensures { OnOk result (out.new.items ≡ out.old.items ++ map (spec.loaded_segment core) segments.now) }
{
    for segment in segments {
        out.push(loaded_segment(core, segment))?;
    }
    Ok(())
}

/// The segments of all images.
pub fn loaded_segments(alloc: Global, images: &[Image]) -> Result<Vec<LoadedSegment>, NoMemory>
    requires { length images.now < 2 ^ 32 }
    ensures { IfOk result (λ segments. segments.items ≡ spec.loaded_segments images.now) }
{
    let mut out = Vec::new(alloc);
    let mut core = 0;
    for image in images {
        put_image(&mut out, core, image.segments.as_slice())?;
        core += 1;
    }
    Ok(out)
}
