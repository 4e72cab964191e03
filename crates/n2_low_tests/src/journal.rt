use n2_bus::{Reply, Request};
use n2_journal::{Entry, Journal};
use n2_word::Width;
use std::test::Fail;

// A word that is written to the UART at 0x10000.
fn written(local: u64, value: u32) -> Entry {
    Entry {
        local,
        actor: 0,
        request: Request::Write(0x1_0000, Width::Word, value),
        reply: Reply {
            words: [0; 8],
            lines: 0,
            took: true,
            pointer: 0,
        },
    }
}

fn fetched() -> Entry {
    Entry {
        local: 0,
        actor: 0,
        request: Request::FillCode(0),
        reply: Reply {
            words: [
                0x0200_0074,
                0x0080_1a04,
                0x4080_0035,
                0x0080_1a44,
                0x4080_0035,
                0x003d_a03a,
                0,
                0,
            ],
            lines: 0,
            took: false,
            pointer: 0,
        },
    }
}

#[test]
fn keeps_entries_and_tails(rt: HostRuntime) -> Result<(), Fail> {
    let mut journal = Journal::with_room(rt.alloc(), 3, 1)?;
    journal.add(fetched());
    journal.add(written(2, 0x68));
    journal.add(written(1, 0x69));
    journal.set_tail(0, 1);
    assert_eq!(rt;
        (journal.limit(), journal.entries().len(), journal.tails()),
        (3, 3, [1].as_slice())
    );
    Ok(())
}
