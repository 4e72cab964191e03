//! Laws of the devices of a board, over all states, parts, offsets, words and events.

ghost use Rattle.std.specs.Prelude.{◌≡◌, ◌≢◌, ◌<◌, ◌&&◌, ℕ, List, [], true, false, length, get_or};
ghost use Rattle.std.specs.List.{list_any, AllByRecursion};
ghost use Rattle.n2_word.specs.Words.{has_bit};
ghost use Rattle.n2_parts.specs.declared.board.Board.{Board as BoardValue};
ghost use Rattle.n2_parts.specs.declared.board.Part.{Part as PartValue};
ghost use Rattle.n2_parts.specs.declared.board.PartKind.{PartKind as KindValue};
ghost use Rattle.n2_parts.specs.declared.board.PartKind.TheVariants as kinds;
ghost use Rattle.n2_parts.specs.declared.board.DeviceEvent.{DeviceEvent as EventValue};
ghost use Rattle.n2_parts.specs.declared.board.DeviceEvent.TheVariants as events;
ghost use Rattle.n2_parts.specs.Parts as parts;
ghost use Rattle.n2_devices.specs.declared.wires.Wire.{Wire as WireValue};
ghost use Rattle.n2_devices.specs.Devices.{Devices as States, started, count_of, has_word, is_word, read_word, write_word, happened};
ghost use Rattle.n2_devices.specs.States.{state_of};
ghost use Rattle.n2_devices.specs.Wires.{wires_to, wires_of, is_on, shown, lines};

/// A read or a write of one device leaves every other device as it was.
pub fn other_devices_stay()
    ensures read { (d : States) (part other : PartValue) (offset : ℕ) → parts.same_part part other ≡ false → state_of (read_word d part offset).state other ≡ state_of d other }
    ensures write { (d : States) (part other : PartValue) (offset word : ℕ) → parts.same_part part other ≡ false → state_of (write_word d part offset word).state other ≡ state_of d other }
{}

/// An event changes timers alone, or one UART alone.
pub fn events_change_their_devices()
    ensures tick { (d : States) (n : ℕ) (other : PartValue) → other.kind ≢ kinds.Timer → state_of (happened d (events.Tick n)).state other ≡ state_of d other }
    ensures receive { (d : States) (uart : ℕ) (other : PartValue) → parts.same_part (parts.part_of kinds.Uart uart) other ≡ false → state_of (happened d (events.Receive uart)).state other ≡ state_of d other }
    ensures drain { (d : States) (uart : ℕ) (other : PartValue) → parts.same_part (parts.part_of kinds.Uart uart) other ≡ false → state_of (happened d (events.Drain uart)).state other ≡ state_of d other }
{}

/// The words of devices are those of the board at the start, and no access or event adds or takes a
/// device.
pub fn as_many_devices()
    ensures words { (b : BoardValue) (part : PartValue) (offset : ℕ) → has_word (started b) part offset ≡ is_word b part offset }
    ensures read { (d : States) (part : PartValue) (offset : ℕ) (kind : KindValue) → count_of (read_word d part offset).state kind ≡ count_of d kind }
    ensures write { (d : States) (part : PartValue) (offset word : ℕ) (kind : KindValue) → count_of (write_word d part offset word).state kind ≡ count_of d kind }
    ensures event { (d : States) (event : EventValue) (kind : KindValue) → count_of (happened d event).state kind ≡ count_of d kind }
{}

/// Only a read of Command at the receiving side of a mailbox takes a message, and only what takes a
/// message answers a Pointer.
pub fn only_messages_have_pointers()
    ensures taken { (d : States) (part : PartValue) (offset : ℕ) → (read_word d part offset).answer.took ≡ true → (part.kind ≡ kinds.Mailbox) × (offset ≡ 4) }
    ensures none { (d : States) (part : PartValue) (offset : ℕ) → (read_word d part offset).answer.took ≡ false → (read_word d part offset).answer.pointer ≡ 0 }
    ensures write { (d : States) (part : PartValue) (offset word : ℕ) → (write_word d part offset word).answer.pointer ≡ 0 }
    ensures event { (d : States) (event : EventValue) → (happened d event).answer.pointer ≡ 0 }
{}

/// A core's interrupt lines are those of the wires that were listed for it; a bit is set exactly where
/// a wire with that bit has its line on, and no other device counts.
pub fn lines_are_their_wires()
    ensures listed { (b : BoardValue) (d : States) (core : ℕ) → core < length b.core → shown d (get_or (wires_of b) core []) ≡ lines b d core }
    ensures bits { (d : States) (wires : List WireValue) (i : ℕ) → has_bit (shown d wires) i ≡ list_any (λ wire. is_on d wire.source && has_bit wire.bit i) wires }
    ensures depend { (b : BoardValue) (d e : States) (core : ℕ) → AllByRecursion (λ wire. is_on d wire.source ≡ is_on e wire.source) (wires_to b core) → lines b d core ≡ lines b e core }
{}
