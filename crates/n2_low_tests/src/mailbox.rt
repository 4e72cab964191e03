use n2_mailbox::{Mailbox, Side, Taken};

fn crosses<T: Drop + Send + Sync>(value: T) {
    let _ = value;
}

#[test]
fn posted_twice(rt: HostRuntime) {
    let mut mailbox = Mailbox::new();
    for (side, offset, value, takes, command, pointer, status) in [
        (Side::Send, 1, 0x9000, true, 0, 0x9000, 0),
        (Side::Send, 0, 7, true, 7, 0x9000, 3),
        (Side::Send, 1, 0x100, false, 7, 0x9000, 3),
        (Side::Send, 0, 8, false, 7, 0x9000, 3),
        (Side::Receive, 0, 9, false, 7, 0x9000, 3),
        (Side::Receive, 1, 9, false, 7, 0x9000, 3),
        (Side::Send, 2, 0, false, 7, 0x9000, 3),
        (Side::Receive, 2, 0, false, 7, 0x9000, 3),
    ] {
        assert_eq!(rt;
            (
                mailbox.write(side, offset, value),
                mailbox.read(Side::Send, 0).value,
                mailbox.read(Side::Receive, 1).value,
                mailbox.read(Side::Receive, 2).value
            ),
            (takes, command, pointer, status),
            "writing {value:x} at {offset}"
        );
    }
    crosses(mailbox);
}

/// A command that was taken, with its Pointer.
fn taken(value: u32) -> Taken {
    Taken {
        value,
        took: true,
        pointer: 0x9000,
    }
}

#[test]
fn taken_once_posted_again(rt: HostRuntime) {
    let mut mailbox = Mailbox::new();
    let again = Taken {
        value: 7,
        took: false,
        pointer: 0,
    };
    assert_eq!(rt;
        (
            mailbox.write(Side::Send, 1, 0x9000),
            mailbox.write(Side::Send, 0, 7)
        ),
        (true, true)
    );
    assert_eq!(rt;
        [
            mailbox.read(Side::Receive, 0),
            mailbox.read(Side::Receive, 0)
        ],
        [taken(7), again]
    );
    assert!(rt; mailbox.write(Side::Send, 0, 0xffff_ffff));
    assert_eq!(rt; mailbox.read(Side::Receive, 0), taken(0xffff_ffff));
}

/// The interrupt lines of the sending and of the receiving side.
fn lines(mailbox: &Mailbox) -> (bool, bool) {
    (mailbox.line(Side::Send), mailbox.line(Side::Receive))
}

#[test]
fn masks(rt: HostRuntime) {
    for (send, receive, masks) in [
        (0xffff_fffd, 0xffff_fffe, (0, 0)),
        (2, 0, (2, 0)),
        (0, 1, (0, 1)),
        (0xffff_ffff, 0xffff_ffff, (2, 1)),
    ] {
        let mut mailbox = Mailbox::new();
        assert_eq!(rt;
            (
                mailbox.write(Side::Send, 3, send),
                mailbox.write(Side::Receive, 3, receive),
                mailbox.read(Side::Send, 3).value,
                mailbox.read(Side::Receive, 3).value
            ),
            (true, true, masks.0, masks.1),
            "masks {send:x} and {receive:x}"
        );
    }
}

#[test]
fn lines_while_empty_and_full(rt: HostRuntime) {
    for (send, receive, free, full) in [
        (0xffff_fffd, 0xffff_fffe, (false, false), (false, false)),
        (2, 0, (true, false), (false, false)),
        (0, 1, (false, false), (false, true)),
        (0xffff_ffff, 0xffff_ffff, (true, false), (false, true)),
    ] {
        let mut mailbox = Mailbox::new();
        mailbox.write(Side::Send, 3, send);
        mailbox.write(Side::Receive, 3, receive);
        let before = lines(&mailbox);
        let posted = mailbox.write(Side::Send, 0, 5);
        let between = lines(&mailbox);
        let took = mailbox.read(Side::Receive, 0).took;
        assert_eq!(rt;
            (posted, took, before, between, lines(&mailbox)),
            (true, true, free, full, free),
            "masks {send:x} and {receive:x}"
        );
    }
}
