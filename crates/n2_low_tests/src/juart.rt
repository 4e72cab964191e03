use n2_juart::Uart;
use std::test::Fail;

fn crosses<T: Drop + Send + Sync>(value: T) {
    let _ = value;
}

/// The control register, and whether the interrupt line is up.
fn seen(uart: &mut Uart) -> (u32, bool) {
    (uart.read(1), uart.line())
}

#[test]
fn nine_bytes_into_eight_places(rt: HostRuntime) -> Result<(), Fail> {
    let mut uart = Uart::open(rt.alloc(), 8, 8)?;
    for byte in 0..9u32 {
        assert_eq!(rt; uart.write(0, 0xffff_ff41 + byte), byte < 8);
    }
    for byte in 0x41..0x49u8 {
        assert_eq!(rt; uart.drain(), Some(byte));
    }
    assert_eq!(rt; uart.drain(), None);
    crosses(uart);
    Ok(())
}

#[test]
fn places_and_the_host(rt: HostRuntime) -> Result<(), Fail> {
    let mut uart = Uart::open(rt.alloc(), 8, 8)?;
    for byte in 0..8u32 {
        assert!(rt; uart.write(0, byte));
    }
    let full = uart.read(1);
    let drained = uart.drain();
    let room = uart.read(1);
    uart.host();
    assert_eq!(rt;
        (full, drained, room, uart.read(1)),
        (0, Some(0), 0x1_0000, 0x1_0400)
    );
    Ok(())
}

#[test]
fn reads_what_was_received(rt: HostRuntime) -> Result<(), Fail> {
    let mut uart = Uart::open(rt.alloc(), 8, 16)?;
    assert_eq!(rt; (uart.read(0), seen(&mut uart)), (0, (0x10_0000, false)));
    for byte in 1..=9u8 {
        assert_eq!(rt; (uart.has_room(), uart.receive(byte)), (byte < 9, byte < 9));
    }
    assert_eq!(rt;
        (uart.write(1, 0xffff_ffff), seen(&mut uart)),
        (true, (0x10_0303, true))
    );
    for byte in 1..=8u32 {
        assert_eq!(rt; uart.read(0), 0x8000 + byte + (8 - byte) * 0x1_0000);
    }
    assert_eq!(rt; (uart.read(0), seen(&mut uart)), (0, (0x10_0203, true)));
    Ok(())
}

#[test]
fn line_of_a_queue_that_is_half_full(rt: HostRuntime) -> Result<(), Fail> {
    let mut uart = Uart::open(rt.alloc(), 8, 16)?;
    assert!(rt; uart.write(1, 0xffff_ffff));
    for byte in 1..=8u32 {
        assert!(rt; uart.write(0, byte));
    }
    assert_eq!(rt; seen(&mut uart), (0x8_0203, true));
    assert_eq!(rt;
        (uart.write(0, 9), seen(&mut uart)),
        (true, (0x7_0003, false))
    );
    Ok(())
}

#[test]
fn masks_and_the_host(rt: HostRuntime) -> Result<(), Fail> {
    let mut uart = Uart::open(rt.alloc(), 8, 16)?;
    for byte in 1..=9u32 {
        assert!(rt; uart.write(0, byte));
    }
    uart.host();
    assert!(rt; uart.receive(5));
    for (value, control, line) in [
        (0, 0x7_0400, false),
        (1, 0x7_0501, true),
        (2, 0x7_0402, false),
        (0x400, 0x7_0000, false),
    ] {
        assert_eq!(rt;
            (uart.write(1, value), seen(&mut uart)),
            (true, (control, line)),
            "writing {value:x}"
        );
    }
    Ok(())
}

#[test]
fn the_largest_queues(rt: HostRuntime) -> Result<(), Fail> {
    let mut uart = Uart::open(rt.alloc(), 32_768, 32_768)?;
    assert_eq!(rt; uart.read(1), 0x8000_0000);
    for _i in 0..32_768u32 {
        assert!(rt; uart.receive(0xff));
    }
    assert_eq!(rt; (uart.receive(0), uart.read(0)), (false, 0x7fff_80ff));
    Ok(())
}
