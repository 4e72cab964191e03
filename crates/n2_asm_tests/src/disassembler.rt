//! Words with texts that were made by hand after the instruction table.

use n2_dis::{line_text, put_listing};
use n2_elf::Image;
use std::test::Fail;

#[test]
fn prints_words(rt: HostRuntime) -> Result<(), Fail> {
    let back = line_text(rt.alloc(), 0xffff_fe06, 8)?;
    assert_eq!(rt; back.as_str(), "br 0x00000004");
    let outside = line_text(rt.alloc(), 0x0000_003f, 0)?;
    assert_eq!(rt; outside.as_str(), ".word 0x0000003f");
    Ok(())
}

#[test]
fn lists_an_image(rt: HostRuntime) -> Result<(), Fail> {
    let image = Image::raw(rt.alloc(), &[0x44, 1, 0x80, 0, 0x3a], 0)
        .ok()
        .ok_or("an image")?;
    let mut out = Vec::new(rt.alloc());
    put_listing(&mut out, image.segments.as_slice())?;
    assert_eq!(rt;
        out.as_slice(),
        b"00000000 00800144 addi r2, r0, 5\n00000004 0000003a .word 0x0000003a\n".as_slice()
    );
    Ok(())
}
