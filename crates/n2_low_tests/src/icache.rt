use n2_icache::ICache;
use n2_word::NoMemory;
use std::alloc::Global;
use std::process::Abort;
use std::test::Fail;

const WORDS: [u32; 8] = [10, 21, 32, 43, 54, 65, 76, 87];

// A size that a proof does not see.
fn unseen(bytes: u32) -> u32 {
    bytes
}

fn opened_at(rt: &impl Abort, alloc: Global, bytes: u32) -> Result<ICache, NoMemory> {
    assert!(rt; bytes.is_power_of_two() && 512 <= bytes && bytes <= 65536);
    ICache::open(alloc, bytes)
}

fn empty(rt: &impl Abort, cache: &mut ICache, set: u32) {
    assert!(rt; set < cache.sets());
    cache.drop_set(set);
}

// What threads may share and move.
fn crosses<T: Send + Sync>(_value: &T) {}

#[test]
fn keeps_one_line_a_set(rt: HostRuntime) -> Result<(), Fail> {
    let mut cache = opened_at(&rt, rt.alloc(), unseen(512))?;
    crosses(&cache);
    assert_eq!(rt; (cache.sets(), cache.find(0x60)), (16, None));
    cache.fill(3, &[7; 8]);
    assert_eq!(rt;
        [cache.find(0x60), cache.find(0x260), cache.find(0x80)],
        [Some(7), None, None]
    );
    cache.fill(19, &WORDS);
    assert_eq!(rt; [cache.find(0x264), cache.find(0x64)], [Some(21), None]);
    Ok(())
}

#[test]
fn drops_sets(rt: HostRuntime) -> Result<(), Fail> {
    let mut cache = opened_at(&rt, rt.alloc(), unseen(512))?;
    cache.fill(19, &WORDS);
    empty(&rt, &mut cache, 4);
    assert_eq!(rt; cache.find(0x264), Some(21));
    empty(&rt, &mut cache, 3);
    assert_eq!(rt; cache.find(0x264), None);
    Ok(())
}

#[test]
fn finds_words_of_the_highest_line(rt: HostRuntime) -> Result<(), Fail> {
    let mut cache = opened_at(&rt, rt.alloc(), unseen(65536))?;
    assert_eq!(rt; cache.sets(), 2048);
    cache.fill(0x3ff_ffff, &WORDS);
    assert_eq!(rt;
        [
            cache.find(0x7fff_ffe0),
            cache.find(0xffff_ffff),
            cache.find(0x1fff_ffe0)
        ],
        [Some(10), Some(87), None]
    );
    Ok(())
}
