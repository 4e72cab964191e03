use n2_word::{
    Width, aligned, byte_at, bytes_of, extract, line_of, merge, set_of, sign8, sign16, word_at,
};

#[test]
fn extends_signs(rt: HostRuntime) {
    assert_eq!(rt;
        [
            sign8(0x7f),
            sign8(0x80),
            sign16(0x7fff),
            sign16(0x8000),
            sign16(0xffff)
        ],
        [0x7f, 0xffff_ff80, 0x7fff, 0xffff_8000, 0xffff_ffff]
    );
}

#[test]
fn names_lines_and_sets(rt: HostRuntime) {
    assert_eq!(rt;
        [
            line_of(0x8000_801f),
            line_of(0xffff_ffff),
            set_of(0x401, 64)
        ],
        [0x400, 0x3ff_ffff, 1]
    );
    assert_eq!(rt;
        [
            aligned(3, Width::Byte),
            aligned(2, Width::Half),
            aligned(4, Width::Word)
        ],
        [true; 3]
    );
    assert_eq!(rt;
        [aligned(3, Width::Half), aligned(2, Width::Word)],
        [false; 2]
    );
}

#[test]
fn reads_and_writes_bytes(rt: HostRuntime) {
    for (lane, read, written) in [
        (0, 0x11, 0x4433_22aa),
        (1, 0x22, 0x4433_aa11),
        (2, 0x33, 0x44aa_2211),
        (3, 0x44, 0xaa33_2211),
    ] {
        assert!(rt; lane < 4);
        assert_eq!(rt;
            (
                extract(0x4433_2211, lane, Width::Byte),
                merge(0x4433_2211, lane, Width::Byte, 0xbbaa)
            ),
            (read, written)
        );
    }
}

#[test]
fn reads_and_writes_halves_and_words(rt: HostRuntime) {
    let word = 0x4433_2211;
    assert_eq!(rt;
        [
            extract(word, 0, Width::Half),
            extract(word, 2, Width::Half),
            merge(word, 0, Width::Half, 0x9_ccbb),
            merge(word, 2, Width::Half, 0x9_ccbb),
            extract(word, 0, Width::Word),
            merge(word, 0, Width::Word, 0xdead_beef),
        ],
        [0x2211, 0x4433, 0x4433_ccbb, 0xccbb_2211, word, 0xdead_beef]
    );
}

#[test]
fn gives_the_bytes_of_words(rt: HostRuntime) {
    assert_eq!(rt; bytes_of(0x4433_2211), [0x11, 0x22, 0x33, 0x44]);
    assert_eq!(rt;
        (
            word_at(&[0x12, 0x34, 0x56], 1),
            byte_at(&[0x12], 0),
            byte_at(&[0x12], 1)
        ),
        (0x5634, 0x12, 0)
    );
}
