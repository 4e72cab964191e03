use n2_mutex::HwMutex;

fn crosses<T: Drop + Send + Sync>(value: T) {
    let _ = value;
}

#[test]
fn taken_refused_given_back(rt: HostRuntime) {
    let mut mutex = HwMutex::new();
    assert_eq!(rt; (mutex.read(0), mutex.read(1)), (0, 1));
    for (offset, value, takes, held, reset) in [
        (0, 0x0001_0005, true, 0x0001_0005, 1),
        (0, 0x0002_0005, false, 0x0001_0005, 1),
        (0, 0x0002_0000, false, 0x0001_0005, 1),
        (1, 0xffff_fffe, true, 0x0001_0005, 1),
        (0, 0x0001_ffff, true, 0x0001_ffff, 1),
        (1, 1, true, 0x0001_ffff, 0),
        (1, 0, true, 0x0001_ffff, 0),
        (0, 0x0001_0000, true, 0x0001_0000, 0),
        (0, 0xffff_8000, true, 0xffff_8000, 0),
    ] {
        assert_eq!(rt;
            (mutex.write(offset, value), mutex.read(0), mutex.read(1)),
            (takes, held, reset),
            "writing {value:x} at {offset}"
        );
    }
    crosses(mutex);
}
