//! Sources with words that were made by hand after the instruction table.

use n2_asm::{AsmFault, AsmKind, assemble};
use std::alloc::Global;
use std::test::Fail;

/// The fault of a source.
fn fault(alloc: Global, source: &[u8]) -> Option<AsmFault> {
    assemble(alloc, source).err()
}

#[test]
fn assembles_a_source(rt: HostRuntime) -> Result<(), Fail> {
    let object = assemble(rt.alloc(), b".text 0\naddi r2, r0, 5\nbreak\n")
        .ok()
        .ok_or("a source")?;
    assert_eq!(rt; object.image.entry, 0);
    assert_eq!(rt; object.image.segments.len(), 1);
    for segment in object.image.segments.as_slice() {
        assert_eq!(rt;
            segment.bytes.as_slice(),
            [0x44, 1, 0x80, 0, 0x3a, 0xa0, 0x3d, 0].as_slice()
        );
    }
    Ok(())
}

#[test]
fn names_the_first_fault(rt: HostRuntime) {
    assert_eq!(rt;
        fault(rt.alloc(), b".text 0\naddi r2, r0, 40000\n"),
        Some(AsmFault::Row {
            row: 2,
            kind: AsmKind::Range
        })
    );
}
