use n2_dcache::{DCache, Held};
use n2_word::{NoMemory, Width, aligned, line_of, set_of};
use std::alloc::Global;
use std::process::Abort;
use std::test::Fail;

// The words whose bytes are 1 to 32, in their order.
const COUNTED: [u32; 8] = [
    0x0403_0201,
    0x0807_0605,
    0x0c0b_0a09,
    0x100f_0e0d,
    0x1413_1211,
    0x1817_1615,
    0x1c1b_1a19,
    0x201f_1e1d,
];

// A size that a proof does not see.
fn unseen(bytes: u32) -> u32 {
    bytes
}

fn opened_at(rt: &impl Abort, alloc: Global, bytes: u32) -> Result<DCache, NoMemory> {
    assert!(rt; bytes.is_power_of_two() && 512 <= bytes && bytes <= 65536);
    DCache::open(alloc, bytes)
}

fn put(rt: &impl Abort, cache: &mut DCache, line: u32, words: &[u32; 8]) {
    let set = set_of(line, cache.sets());
    assert!(rt; !cache.is_dirty(set));
    cache.fill(line, words);
}

fn held_at(rt: &impl Abort, cache: &DCache, set: u32) -> Option<Held> {
    assert!(rt; set < cache.sets());
    cache.held(set)
}

fn dirty_at(rt: &impl Abort, cache: &DCache, set: u32) -> bool {
    assert!(rt; set < cache.sets());
    cache.is_dirty(set)
}

fn empty(rt: &impl Abort, cache: &mut DCache, set: u32) {
    assert!(rt; set < cache.sets());
    cache.drop_set(set);
}

fn read(rt: &impl Abort, cache: &DCache, address: u32, width: Width) -> u32 {
    assert!(rt; cache.has(line_of(address)));
    assert!(rt; aligned(address, width));
    cache.load(address, width)
}

fn write(rt: &impl Abort, cache: &mut DCache, address: u32, width: Width, value: u32) {
    assert!(rt; cache.has(line_of(address)));
    assert!(rt; aligned(address, width));
    cache.store(address, width, value);
}

// What threads may share and move.
fn crosses<T: Send + Sync>(_value: &T) {}

#[test]
fn keeps_one_line_a_set(rt: HostRuntime) -> Result<(), Fail> {
    let mut cache = opened_at(&rt, rt.alloc(), unseen(512))?;
    crosses(&cache);
    assert_eq!(rt; (cache.sets(), held_at(&rt, &cache, 3)), (16, None));
    put(&rt, &mut cache, 3, &[7; 8]);
    assert_eq!(rt;
        [cache.has(3), cache.has(19), cache.has(4)],
        [true, false, false]
    );
    put(&rt, &mut cache, 19, &COUNTED);
    assert_eq!(rt; [cache.has(19), cache.has(3)], [true, false]);
    Ok(())
}

#[test]
fn finds_what_it_holds(rt: HostRuntime) -> Result<(), Fail> {
    let mut cache = opened_at(&rt, rt.alloc(), unseen(512))?;
    put(&rt, &mut cache, 19, &COUNTED);
    let held = Held {
        line: 19,
        words: COUNTED,
        dirty: false,
    };
    assert_eq!(rt; cache.find(3), None);
    assert_eq!(rt; cache.find(19), Some(&held));
    Ok(())
}

#[test]
fn stores_a_half(rt: HostRuntime) -> Result<(), Fail> {
    let mut cache = opened_at(&rt, rt.alloc(), unseen(512))?;
    put(&rt, &mut cache, 19, &COUNTED);
    write(&rt, &mut cache, 0x26e, Width::Half, 0xffff_beef);
    assert_eq!(rt; read(&rt, &cache, 0x26c, Width::Word), 0xbeef_0e0d);
    assert_eq!(rt;
        [dirty_at(&rt, &cache, 3), dirty_at(&rt, &cache, 4)],
        [true, false]
    );
    Ok(())
}

#[test]
fn drops_lines(rt: HostRuntime) -> Result<(), Fail> {
    let mut cache = opened_at(&rt, rt.alloc(), unseen(512))?;
    put(&rt, &mut cache, 19, &COUNTED);
    cache.drop_line(3);
    assert!(rt; cache.has(19));
    cache.drop_line(19);
    assert_eq!(rt; held_at(&rt, &cache, 3), None);
    Ok(())
}

#[test]
fn drops_sets(rt: HostRuntime) -> Result<(), Fail> {
    let mut cache = opened_at(&rt, rt.alloc(), unseen(512))?;
    put(&rt, &mut cache, 3, &COUNTED);
    empty(&rt, &mut cache, 4);
    assert!(rt; cache.has(3));
    empty(&rt, &mut cache, 3);
    assert!(rt; !cache.has(3));
    Ok(())
}

#[test]
fn looks_once(rt: HostRuntime) -> Result<(), Fail> {
    // The line of the highest number, in the largest cache.
    let mut cache = opened_at(&rt, rt.alloc(), unseen(65536))?;
    assert_eq!(rt;
        (
            cache.try_load(0x7fff_fffc, Width::Word),
            cache.try_store(0x7fff_fffc, Width::Word, 9)
        ),
        (None, false)
    );
    put(&rt, &mut cache, 0x3ff_ffff, &COUNTED);
    assert_eq!(rt;
        (
            cache.try_load(0x7fff_fffc, Width::Word),
            cache.try_store(0xffff_fffd, Width::Byte, 0xa5),
            cache.try_load(0x7fff_fffc, Width::Half)
        ),
        (Some(0x201f_1e1d), true, Some(0xa51d))
    );
    let mut words = COUNTED;
    words[7] = 0x201f_a51d;
    let held = Held {
        line: 0x3ff_ffff,
        words,
        dirty: true,
    };
    assert_eq!(rt; held_at(&rt, &cache, 2047), Some(held));
    Ok(())
}
