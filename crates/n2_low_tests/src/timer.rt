use n2_timer::Timer;

fn crosses<T: Drop + Send + Sync>(value: T) {
    let _ = value;
}

#[test]
fn nine_ticks_of_period_three(rt: HostRuntime) {
    for (control, registers) in [(6, (3, 2, 0)), (4, (1, 3, 0))] {
        let mut timer = Timer::new(3);
        timer.write(1, control);
        timer.ticks(9);
        timer.write(4, 0);
        assert_eq!(rt; (timer.read(0), timer.read(4), timer.read(5)), registers);
        let mut single = Timer::new(3);
        single.write(1, control);
        for _i in 0..9u32 {
            single.ticks(1);
        }
        single.write(5, 0);
        assert_eq!(rt; (single.read(0), single.read(4), single.read(5)), registers);
    }
}

#[test]
fn as_many_ticks_as_a_word_counts(rt: HostRuntime) {
    let mut timer = Timer::new(0);
    timer.write(1, 6);
    timer.ticks(4_294_967_295);
    timer.write(4, 0);
    assert_eq!(rt; (timer.read(0), timer.read(4), timer.read(5)), (3, 0, 0));
    crosses(timer);
}

/// The words of the six registers.
fn registers(timer: &Timer) -> [u32; 6] {
    [
        timer.read(0),
        timer.read(1),
        timer.read(2),
        timer.read(3),
        timer.read(4),
        timer.read(5),
    ]
}

#[test]
fn each_register(rt: HostRuntime) {
    let mut timer = Timer::new(0x0001_0002);
    assert_eq!(rt; registers(&timer), [0, 0, 2, 1, 0, 0]);
    for (offset, value, ticks, want, line) in [
        (1, 4, 3, [2, 0, 2, 1, 0, 0], false),
        (4, 9, 0, [2, 0, 2, 1, 0xffff, 0], false),
        (1, 0xffff_fffd, 7, [0, 1, 2, 1, 0xffff, 0], false),
        (2, 0xabcd_0001, 7, [0, 1, 1, 1, 0xffff, 0], false),
        (5, 0, 0, [0, 1, 1, 1, 1, 1], false),
        (3, 0xabcd_0000, 0, [0, 1, 1, 0, 1, 1], false),
        (1, 5, 2, [1, 1, 1, 0, 1, 1], true),
        (4, 0, 0, [1, 1, 1, 0, 1, 0], true),
        (1, 2, 5, [1, 2, 1, 0, 1, 0], false),
        (1, 7, 1, [3, 3, 1, 0, 1, 0], true),
        (4, 0, 0, [3, 3, 1, 0, 0, 0], true),
        (0, 0xffff_ffff, 0, [2, 3, 1, 0, 0, 0], false),
        (1, 15, 0, [0, 3, 1, 0, 0, 0], false),
    ] {
        assert!(rt; offset < 6);
        timer.write(offset, value);
        timer.ticks(ticks);
        assert_eq!(rt;
            (registers(&timer), timer.line()),
            (want, line),
            "writing {value:x} at {offset}"
        );
    }
}
