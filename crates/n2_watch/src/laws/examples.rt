//! One example of each refusal, on a small board.

ghost use Rattle.std.specs.Prelude.{◌≡◌, [], true, false, Some, None};
ghost use Rattle.n2_word.specs.declared.Width.TheVariants.{Word};
ghost use Rattle.n2_insn.specs.declared.DataOp.TheVariants.{Initd};
ghost use Rattle.n2_parts.specs.declared.stops.Kind.TheVariants.{Separate, Lock, Invalidate, Flush};
ghost use Rattle.n2_watch.specs.declared.access.Access.TheVariants.{Cached, Bypass, Fetch, Op};
ghost use Rattle.n2_watch.specs.Discipline.{Strays, Breaks, breach};
ghost use Rattle.n2_watch.specs.Examples.{board, map, at_start, with_lock, loaded_before, stored_since, flushed_since, stored_own};

/// An access that strays names nothing.
pub fn stray()
    ensures nothing_there { breach board map (at_start 0 []) (Cached 0x18000 false) Word ≡ Some Strays }
    ensures fetch_past_bit_31 { breach board map (at_start 0 []) (Fetch 0x80000000) Word ≡ Some Strays }
{}

/// Lines that are kept apart: a device through the cache, a line of the core's own past it, a line of
/// another core's, a line that nothing is said of, a store to code, and a fetch of what is none.
pub fn separate()
    ensures device_through_the_cache { breach board map (at_start 0 []) (Cached 0x10000 false) Word ≡ Some (Breaks Separate 0x800) }
    ensures own_line_past_the_cache { breach board map (at_start 0 stored_own) (Bypass 0xc000 false 0) Word ≡ Some (Breaks Separate 0x600) }
    ensures another_core { breach board map (at_start 1 []) (Cached 0xc000 false) Word ≡ Some (Breaks Separate 0x600) }
    ensures absent { breach board map (at_start 0 []) (Cached 0x4000 true) Word ≡ Some (Breaks Separate 0x200) }
    ensures store_to_code { breach board map (at_start 0 []) (Cached 0x40 true) Word ≡ Some (Breaks Separate 2) }
    ensures fetch { breach board map (at_start 0 []) (Fetch 0x8000) Word ≡ Some (Breaks Separate 0x400) }
{}

/// Without its guard a line is not touched: before the mutex was taken, and before the message about it
/// was received. A mutex is written with the core's own cpuid alone, and a side of a mailbox is for the
/// core that the board names.
pub fn lock()
    ensures without_the_mutex { breach board map (at_start 0 []) (Cached 0x8000 false) Word ≡ Some (Breaks Lock 0x400) }
    ensures before_it_is_received { breach board map (at_start 1 []) (Cached 0x9000 false) Word ≡ Some (Breaks Lock 0x480) }
    ensures with_another_cpuid { breach board map (at_start 0 []) (Bypass 0x20000 true 0x10001) Word ≡ Some (Breaks Lock 0x1000) }
    ensures other_side { breach board map (at_start 0 []) (Bypass 0x20060 false 0) Word ≡ Some (Breaks Lock 0x1003) }
{}

/// A line that was loaded before the lock was lost and taken again, though nobody wrote between.
pub fn invalidate()
    ensures { breach board map (with_lock loaded_before) (Cached 0x8000 false) Word ≡ Some (Breaks Invalidate 0x400) }
{}

/// What is dirty is neither given back with its mutex nor dropped with its set; what was flushed is.
pub fn flush()
    ensures at_the_release { breach board map (with_lock stored_since) (Bypass 0x20000 true 0) Word ≡ Some (Breaks Flush 0x400) }
    ensures once_flushed { breach board map (with_lock flushed_since) (Bypass 0x20000 true 0) Word ≡ None }
    ensures set_dropped { breach board map (at_start 0 stored_own) (Op Initd 0x8000) Word ≡ Some (Breaks Flush 0x600) }
{}
