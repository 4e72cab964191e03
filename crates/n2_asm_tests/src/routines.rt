use n2_hal::with_hal;
use std::test::Fail;

#[test]
fn puts_the_routines_behind_a_source(rt: HostRuntime) -> Result<(), Fail> {
    let text = with_hal(rt.alloc(), b"break")?;
    assert!(rt; text.starts_with(b"break\n.align 4\nalt_dcache_flush:\n"));
    assert!(rt; text.ends_with(b"    cmpeq r2, r6, r7\nhal_8:\n    ret\n"));
    Ok(())
}
