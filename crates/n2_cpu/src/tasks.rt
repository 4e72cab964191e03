//! What a core does in a turn.

ghost use Rattle.std.specs.Prelude.{◌≡◌, ℕ, ◌<◌, ◌+◌, ◌≤◌, true, false, not, List, ◌∷◌, length, None, Some, is_some, IfSome, IsTrue, if◌then◌else◌};
ghost use Rattle.n2_word.specs.declared.Width.{Width as WidthValue};
ghost use Rattle.n2_word.specs.Words.{is_aligned};
ghost use Rattle.n2_word.specs.Lines.{line as line_number, without_bypass};
ghost use Rattle.n2_exec.specs.Registers as registers;
ghost use Rattle.n2_parts.specs.declared.board.Board.{Board as BoardValue};
ghost use Rattle.n2_parts.specs.declared.stops.Act.TheVariants as acts;
ghost use Rattle.n2_parts.specs.declared.stops.Stop.TheVariants as stops;
ghost use Rattle.n2_parts.specs.MemoryLines.{HasLine};
ghost use Rattle.n2_board.specs.declared.classes.Class.TheVariants as classes;
ghost use Rattle.n2_board.specs.AddressMap.{AddressMap, class_of};
ghost use Rattle.n2_dcache.specs.Cache.{own_set, has_line, loaded, stored, set_dropped, filled};
ghost use Rattle.n2_watch.specs.declared.past.Past.{Past as PastEvent};
ghost use Rattle.n2_watch.specs.declared.past.Past.TheVariants.{Touch, Clean};
ghost use Rattle.n2_watch.specs.declared.access.Access.TheVariants as accesses;
ghost use Rattle.n2_bus.specs.declared.request.Request.TheVariants as requests;
ghost use Rattle.n2_watch.specs.Book.{Book, knowledge, past_after};
ghost use Rattle.n2_watch.specs.World.{World, transferred};
ghost use Rattle.n2_watch.specs.Discipline as rules;
ghost use Rattle.n2_watch.specs.Noted.{IsNotedOnce};
ghost use Rattle.n2_watch.specs.Watched.{StandsFor};
ghost use Rattle.n2_front.specs.Front as front;
ghost use Rattle.n2_front.specs.Retire.{done};
ghost use Rattle.n2_front.specs.Tasks as tasks;
ghost use Rattle.n2_front.specs.Turn as spec;
ghost use Rattle.n2_cpu.specs.Stands.{Holds, HasRoom, IsTurned, IsPart, IsShared, core_now};

use crate::state::State;
use n2_board::{Act, Layout, Stop};
use n2_bus::Reply;
use n2_dcache::DCache;
use n2_exec::extended;
use n2_insn::DataOp;
use n2_watch::{Done, Watch};
use n2_word::{Width, line_of, set_of};

/// Has a line in the cache, unless something dirty was in its way: that is dropped then.
#[inline(always)]
fn bring(dcache: &mut DCache, line: u32, reply: &Reply) -> bool
    ensures room { result ≡ not (spec.is_in_way dcache.old line) }
    ensures after { dcache.new ≡ (if spec.is_in_way dcache.old line then set_dropped dcache.old (own_set dcache.old line) else spec.with_line dcache.old line reply.now) }
    ensures there { IsTrue result → IsTrue (has_line dcache.new line) }
{
    if dcache.has(line) {
        return true;
    }
    let set = set_of(line, dcache.sets());
    if dcache.is_dirty(set) {
        dcache.drop_set(set);
        return false;
    }
    dcache.fill(line, &reply.words);
    true
}

/// What a load reads from its line, which it brings into the cache where it is missing; None where
/// something dirty was in its way. A line that is there is looked for once.
#[inline(always)]
fn load_line(dcache: &mut DCache, address: u32, width: Width, reply: &Reply) -> Option<u32>
    requires { IsTrue (is_aligned address width) }
    ensures room { is_some result ≡ not (spec.is_in_way dcache.old (line_number address)) }
    ensures after { dcache.new ≡ (if spec.is_in_way dcache.old (line_number address) then set_dropped dcache.old (own_set dcache.old (line_number address)) else spec.with_line dcache.old (line_number address) reply.now) }
    ensures value { IfSome result (λ value. value ≡ loaded dcache.new address width) }
{
    if let Some(value) = dcache.try_load(address, width) {
        return Some(value);
    }
    if bring(dcache, line_of(address), reply) {
        Some(dcache.load(address, width))
    } else {
        None
    }
}

/// Stores into a line, which it brings into the cache where it is missing; false where something dirty
/// was in its way. A line that is there is looked for once.
#[inline(always)]
fn store_line(dcache: &mut DCache, address: u32, width: Width, value: u32, reply: &Reply) -> bool
    requires { IsTrue (is_aligned address width) }
    ensures room { result ≡ not (spec.is_in_way dcache.old (line_number address)) }
    ensures after { dcache.new ≡ (if spec.is_in_way dcache.old (line_number address) then set_dropped dcache.old (own_set dcache.old (line_number address)) else stored (spec.with_line dcache.old (line_number address) reply.now) address width value) }
{
    if dcache.try_store(address, width, value) {
        return true;
    }
    if bring(dcache, line_of(address), reply) {
        dcache.store(address, width, value);
        true
    } else {
        false
    }
}

/// Notes a load or store of a line, whose record is looked for at a place first.
#[inline(always)]
fn note_touch(watch: &mut Watch, place: u32, line: u32, store: bool)
    requires { HasRoom watch.old }
    ensures once { IsNotedOnce watch.old watch.new }
    ensures stands { (b : BoardValue) (map : AddressMap) (core : ℕ) (book : Book) (past : List PastEvent) (address : ℕ) (width : WidthValue) → StandsFor b map core watch.old book past → line ≡ line_number address → rules.breach b map (knowledge b book core past) (accesses.Cached address store) width ≡ None → StandsFor b map core watch.new book (Touch line store ∷ past) }
{
    watch.note_touched_at(place, line, store);
}

/// Notes an operation on the data cache.
fn note_clean(watch: &mut Watch, layout: &Layout, op: DataOp, address: u32)
    requires { HasRoom watch.old }
    ensures once { IsNotedOnce watch.old watch.new }
    ensures stands { (b : BoardValue) (map : AddressMap) (core : ℕ) (book : Book) (past : List PastEvent) → StandsFor b map core watch.old book past → StandsFor b map core watch.new book (Clean op address ∷ past) }
{
    watch.note(layout, &Done::Cleaned { op, address });
}

/// Notes a load past the caches.
fn note_load(watch: &mut Watch, layout: &Layout, address: u32, reply: &Reply)
    requires { HasRoom watch.old }
    ensures once { IsNotedOnce watch.old watch.new }
    ensures stands { (b : BoardValue) (core : ℕ) (w : World) (past : List PastEvent) (width : WidthValue) → StandsFor b layout.now core watch.old w.book past → IsShared b layout.now w → core < length b.core → rules.breach b layout.now (knowledge b w.book core past) (accesses.Bypass address false 0) width ≡ None → let request = requests.Read (without_bypass address) width in let t = transferred b layout.now core w request in reply.now ≡ t.reply → StandsFor b layout.now core watch.new t.world.book (past_after b layout.now core w.book t.world.book request t.reply past) }
{
    let done = Done::Received {
        address,
        took: reply.took,
        pointer: reply.pointer,
    };
    watch.note(layout, &done);
}

/// Notes a store past the caches.
fn note_store(watch: &mut Watch, layout: &Layout, address: u32, value: u32, reply: &Reply)
    requires { HasRoom watch.old }
    ensures once { IsNotedOnce watch.old watch.new }
    ensures stands { (b : BoardValue) (core : ℕ) (w : World) (past : List PastEvent) (width : WidthValue) → StandsFor b layout.now core watch.old w.book past → IsShared b layout.now w → core < length b.core → rules.breach b layout.now (knowledge b w.book core past) (accesses.Bypass address true value) width ≡ None → let request = requests.Write (without_bypass address) width value in let t = transferred b layout.now core w request in reply.now ≡ t.reply → StandsFor b layout.now core watch.new t.world.book (past_after b layout.now core w.book t.world.book request t.reply past) }
{
    let done = Done::Wrote {
        address,
        value,
        took: reply.took,
    };
    watch.note(layout, &done);
}

/// What an operation on the data cache drops.
fn drop_for(dcache: &mut DCache, op: DataOp, address: u32)
    ensures { dcache.new ≡ spec.op_dropped dcache.old op address }
{
    let line = line_of(address);
    match op {
        DataOp::Initd | DataOp::Flushd => {
            let set = set_of(line, dcache.sets());
            dcache.drop_set(set);
        }
        DataOp::Initda | DataOp::Flushda => dcache.drop_line(line),
    }
}

impl State {
    /// The act of a turn that took an interrupt, retired an instruction or stopped the core.
    #[inline(always)]
    fn retired(&self) -> Option<Act>
        ensures { result ≡ Some (acts.Retire self.now.clock.number) }
    {
        Some(Act::Retire(self.clock.number))
    }

    /// Latches interrupt lines.
    #[inline(never)]
    pub fn sample(&mut self, lines: u32) -> Option<Act>
        ensures part { IsPart self.old self.new }
        ensures turned { (b : BoardValue) (map : AddressMap) (book : Book) (past : List PastEvent) → Holds b map self.old book past → let c = core_now self.old past in IsTurned b map self.new result book (spec.turned c (front.sampled c.front lines) c.data_slots (Some (acts.Sample self.old.clock.number))) }
    {
        self.regs.latch_lines(lines);
        Some(Act::Sample(self.clock.number))
    }

    /// Empties a set of the data cache.
    #[inline(never)]
    pub fn evict(&mut self, set: u32) -> Option<Act>
        requires { set < length self.old.dcache }
        ensures part { IsPart self.old self.new }
        ensures turned { (b : BoardValue) (map : AddressMap) (book : Book) (past : List PastEvent) → Holds b map self.old book past → IsTurned b map self.new result book (spec.emptied (core_now self.old past) set) }
    {
        self.dcache.drop_set(set);
        None
    }

    /// Takes an interrupt.
    pub fn interrupt(&mut self) -> Option<Act>
        ensures part { IsPart self.old self.new }
        ensures turned { (b : BoardValue) (map : AddressMap) (book : Book) (past : List PastEvent) → Holds b map self.old book past → let c = core_now self.old past in IsTurned b map self.new result book (spec.direct c self.old.clock.number (front.with_regs c.front (registers.interrupted c.front.regs))) }
    {
        self.regs.take_interrupt();
        self.retired()
    }

    /// Stops.
    pub fn halt(&mut self, stop: Stop) -> Option<Act>
        ensures part { IsPart self.old self.new }
        ensures turned { (b : BoardValue) (map : AddressMap) (book : Book) (past : List PastEvent) → Holds b map self.old book past → let c = core_now self.old past in IsTurned b map self.new result book (spec.direct c self.old.clock.number (front.stopped c.front stop)) }
    {
        self.stop = Some(stop);
        self.retired()
    }

    /// Fills a code line.
    #[inline(never)]
    pub fn fill_code(&mut self, line: u32, reply: &Reply) -> Option<Act>
        ensures part { IsPart self.old self.new }
        ensures turned { (b : BoardValue) (map : AddressMap) (book : Book) (past : List PastEvent) → Holds b map self.old book past → HasLine b.memory line → class_of map line ≡ classes.Code → let c = core_now self.old past in IsTurned b map self.new result book (record { front = c.front; data_slots = c.data_slots; code_slots = filled c.code_slots line reply.now.words; act = None }) }
    {
        self.icache.fill(line, &reply.words);
        None
    }

    /// Has done an instruction that left nothing to do.
    #[inline(always)]
    pub fn finish(&mut self) -> Option<Act>
        ensures part { IsPart self.old self.new }
        ensures turned { (b : BoardValue) (map : AddressMap) (book : Book) (past : List PastEvent) → Holds b map self.old book past → let c = core_now self.old past in IsTurned b map self.new result book (spec.direct c self.old.clock.number c.front) }
    {
        self.retired()
    }

    /// Raises an exception.
    pub fn raise(&mut self) -> Option<Act>
        ensures part { IsPart self.old self.new }
        ensures turned { (b : BoardValue) (map : AddressMap) (book : Book) (past : List PastEvent) → Holds b map self.old book past → let c = core_now self.old past in IsTurned b map self.new result book (spec.direct c self.old.clock.number (front.with_regs c.front (registers.raised c.front.regs))) }
    {
        self.regs.take_exception();
        self.retired()
    }

    /// Drops a set of the instruction cache.
    #[inline(never)]
    pub fn drop_code(&mut self, address: u32) -> Option<Act>
        ensures part { IsPart self.old self.new }
        ensures turned { (b : BoardValue) (map : AddressMap) (book : Book) (past : List PastEvent) → Holds b map self.old book past → let c = core_now self.old past in IsTurned b map self.new result book (spec.code_dropped c self.old.clock.number c.front address) }
    {
        let set = set_of(line_of(address), self.icache.sets());
        self.icache.drop_set(set);
        self.regs.advance();
        self.retired()
    }

    /// Does an operation on the data cache.
    #[inline(never)]
    pub fn clean(&mut self, layout: &Layout, op: DataOp, address: u32) -> Option<Act>
        requires { HasRoom self.old.watch }
        ensures part { IsPart self.old self.new }
        ensures turned { (b : BoardValue) (map : AddressMap) (book : Book) (past : List PastEvent) → Holds b map self.old book past → let c = core_now self.old past in IsTurned b map self.new result book (spec.turned c (front.noted (front.advanced c.front) (Clean op address)) (spec.op_dropped c.data_slots op address) (Some (acts.Retire self.old.clock.number))) }
    {
        drop_for(&mut self.dcache, op, address);
        self.regs.advance();
        note_clean(&mut self.watch, layout, op, address);
        self.retired()
    }

    /// Loads from a line of the data cache.
    #[inline(always)]
    pub fn load(
        &mut self,
        place: u32,
        address: u32,
        width: Width,
        signed: bool,
        to: u8,
        reply: &Reply,
    ) -> Option<Act>
        requires room { HasRoom self.old.watch }
        requires aligned { IsTrue (is_aligned address width) }
        requires register { to < 32 }
        ensures part { IsPart self.old self.new }
        ensures turned { (b : BoardValue) (map : AddressMap) (book : Book) (past : List PastEvent) → Holds b map self.old book past → rules.breach b map (knowledge b book self.old.clock.number past) (accesses.Cached address false) width ≡ None → let c = core_now self.old past in IsTurned b map self.new result book (if spec.is_in_way c.data_slots (line_number address) then spec.emptied c (own_set c.data_slots (line_number address)) else spec.loads c self.old.clock.number c.front address width signed to (spec.with_line c.data_slots (line_number address) reply.now)) }
    {
        let Some(value) = load_line(&mut self.dcache, address, width, reply) else {
            return None;
        };
        self.regs.put_loaded(to, extended(value, width, signed));
        note_touch(&mut self.watch, place, line_of(address), false);
        self.retired()
    }

    /// Stores into a line of the data cache.
    #[inline(always)]
    pub fn store(
        &mut self,
        place: u32,
        address: u32,
        width: Width,
        value: u32,
        reply: &Reply,
    ) -> Option<Act>
        requires room { HasRoom self.old.watch }
        requires aligned { IsTrue (is_aligned address width) }
        ensures part { IsPart self.old self.new }
        ensures turned { (b : BoardValue) (map : AddressMap) (book : Book) (past : List PastEvent) → Holds b map self.old book past → rules.breach b map (knowledge b book self.old.clock.number past) (accesses.Cached address true) width ≡ None → let c = core_now self.old past in IsTurned b map self.new result book (if spec.is_in_way c.data_slots (line_number address) then spec.emptied c (own_set c.data_slots (line_number address)) else spec.stores c self.old.clock.number c.front address width value (spec.with_line c.data_slots (line_number address) reply.now)) }
    {
        if !store_line(&mut self.dcache, address, width, value, reply) {
            return None;
        }
        self.regs.advance();
        note_touch(&mut self.watch, place, line_of(address), true);
        self.retired()
    }

    /// Loads past the caches.
    #[inline(never)]
    pub fn load_past(
        &mut self,
        layout: &Layout,
        address: u32,
        width: Width,
        signed: bool,
        to: u8,
        reply: &Reply,
    ) -> Option<Act>
        requires room { HasRoom self.old.watch }
        requires register { to < 32 }
        ensures part { IsPart self.old self.new }
        ensures turned { (b : BoardValue) (w : World) (past : List PastEvent) → Holds b layout.now self.old w.book past → IsShared b layout.now w → self.old.clock.number < length b.core → rules.breach b layout.now (knowledge b w.book self.old.clock.number past) (accesses.Bypass address false 0) width ≡ None → let k = self.old.clock.number in let c = core_now self.old past in let t = transferred b layout.now k w (requests.Read (without_bypass address) width) in reply.now ≡ t.reply → IsTurned b layout.now self.new result t.world.book (spec.direct c k (done b layout.now k c.front w (tasks.LoadPast address width signed to)).front) }
    {
        note_load(&mut self.watch, layout, address, reply);
        let value = extended(reply.words[0], width, signed);
        self.regs.put_loaded(to, value);
        self.regs.latch_lines(reply.lines);
        self.retired()
    }

    /// Stores past the caches.
    #[inline(never)]
    pub fn store_past(
        &mut self,
        layout: &Layout,
        address: u32,
        width: Width,
        value: u32,
        reply: &Reply,
    ) -> Option<Act>
        requires { HasRoom self.old.watch }
        ensures part { IsPart self.old self.new }
        ensures turned { (b : BoardValue) (w : World) (past : List PastEvent) → Holds b layout.now self.old w.book past → IsShared b layout.now w → self.old.clock.number < length b.core → rules.breach b layout.now (knowledge b w.book self.old.clock.number past) (accesses.Bypass address true value) width ≡ None → let k = self.old.clock.number in let c = core_now self.old past in let t = transferred b layout.now k w (requests.Write (without_bypass address) width value) in reply.now ≡ t.reply → IsTurned b layout.now self.new result t.world.book (spec.direct c k (done b layout.now k c.front w (tasks.StorePast address width value)).front) }
    {
        note_store(&mut self.watch, layout, address, value, reply);
        self.regs.advance();
        self.regs.latch_lines(reply.lines);
        self.retired()
    }
}
