//! Laws on the effects of the instructions. The registers after an instruction are those of
//! `regs_of`, which are as before where it leaves something to do.

ghost use Rattle.std.specs.Prelude.{◌≡◌, ◌+◌, ◌*◌, ◌<◌, ◌%◌, ◌^◌, min, ℕ, pos, ◌+ℤ◌, ◌*ℤ◌, Bool, not, if◌then◌else◌, ◌&&◌, ◌||◌, IsTrue, None, Some};
ghost use Rattle.std.specs.Int.{w32, cast_signed};
ghost use Rattle.n2_word.specs.declared.Width.{Width};
ghost use Rattle.n2_word.specs.Words.{has_bit};
ghost use Rattle.n2_insn.specs.declared.Insn.{Insn};
ghost use Rattle.n2_insn.specs.declared.RegOp.{RegOp};
ghost use Rattle.n2_insn.specs.declared.ShiftOp.{ShiftOp};
ghost use Rattle.n2_insn.specs.Table.{is_valid, has_half, table_insn};
ghost use Rattle.n2_exec.specs.declared.Cause.{Cause};
ghost use Rattle.n2_exec.specs.declared.Outcome.{Outcome};
ghost use Rattle.n2_exec.specs.declared.registers.Regs.{Regs};
ghost use Rattle.n2_exec.specs.Registers.{AreWords, reset_regs, loaded_regs, passed_regs, raised, latched};
ghost use Rattle.n2_exec.specs.Values.{has_quotient, reg_value, shift_value};
ghost use Rattle.n2_exec.specs.Integers.{IsQuotient};
ghost use Rattle.n2_exec.specs.Outcomes.{regs_of, asked_of, outcome_of, IsProper, HasAddress, loaded_value};
ghost use Rattle.n2_exec.specs.Effect.{effect_of, effect_of_word};
ghost use Rattle.n2_exec.specs.Follow.{Follows, HasBits};

/// An outcome is that of its registers and of what it leaves to do. An access that a valid
/// instruction asks for is aligned for its width, the register that a load writes is below 32, and a
/// stored value fits its width.
pub fn every_outcome()
    ensures parts { (regs : Regs) (outcome : Outcome) → outcome_of (regs_of regs outcome) (asked_of outcome) ≡ outcome }
    ensures proper { (regs : Regs) (insn : Insn) → IsTrue (is_valid insn) → IsProper (asked_of (effect_of regs insn)) }
{}

/// No instruction changes latched lines, cpuid or exception address, and the program counter stays
/// a multiple of 4, also after a load and where an exception or an interrupt is taken.
pub fn every_next()
    ensures effect { (regs : Regs) (insn : Insn) → Follows regs (regs_of regs (effect_of regs insn)) }
    ensures passed { (regs : Regs) → Follows regs (passed_regs regs) }
    ensures loaded { (regs : Regs) (to value : ℕ) → Follows regs (loaded_regs regs to value) }
    ensures raised { (regs : Regs) → regs.vector % 4 ≡ 0 → Follows regs (raised regs) }
{}

/// The status registers keep bit 0 alone: before the first instruction, after an instruction, a
/// load, an exception or an interrupt, and where lines are latched.
pub fn every_status()
    ensures effect { (regs : Regs) (insn : Insn) → HasBits regs → HasBits (regs_of regs (effect_of regs insn)) }
    ensures passed { (regs : Regs) → HasBits regs → HasBits (passed_regs regs) }
    ensures loaded { (regs : Regs) (to value : ℕ) → HasBits regs → HasBits (loaded_regs regs to value) }
    ensures raised { (regs : Regs) → HasBits regs → HasBits (raised regs) }
    ensures latched { (regs : Regs) (lines : ℕ) → HasBits regs → HasBits (latched regs lines) }
    ensures reset { (pc cpuid vector : ℕ) → HasBits (reset_regs pc cpuid vector) }
{}

/// Where registers are of 32 bits, so are those after an instruction, a load, an exception or an
/// interrupt, and the addresses that instructions ask for.
pub fn every_word()
    ensures effect { (regs : Regs) (insn : Insn) → AreWords regs → IsTrue (is_valid insn) → IsTrue (has_half insn) → AreWords (regs_of regs (effect_of regs insn)) }
    ensures address { (regs : Regs) (insn : Insn) → AreWords regs → IsTrue (is_valid insn) → HasAddress (asked_of (effect_of regs insn)) }
    ensures passed { (regs : Regs) → AreWords regs → AreWords (passed_regs regs) }
    ensures loaded { (regs : Regs) (to value : ℕ) → value < 2 ^ 32 → AreWords regs → AreWords (loaded_regs regs to value) }
    ensures raised { (regs : Regs) → AreWords regs → AreWords (raised regs) }
    ensures latched { (regs : Regs) (lines : ℕ) → lines < 2 ^ 32 → AreWords regs → AreWords (latched regs lines) }
    ensures reset { (pc cpuid vector : ℕ) → pc < 2 ^ 32 → cpuid < 2 ^ 32 → vector < 2 ^ 32 → AreWords (reset_regs pc cpuid vector) }
    ensures extended { (width : Width) (signed : Bool) (value : ℕ) → loaded_value width signed value < 2 ^ 32 }
{}

/// A word outside the instruction table raises, and another does what its instruction does; what
/// holds of every instruction holds of every word.
pub fn every_fetched_word()
    ensures outside { (regs : Regs) (word : ℕ) → table_insn word ≡ None → effect_of_word regs word ≡ Outcome.Raise Cause.Illegal }
    ensures inside { (regs : Regs) (word : ℕ) (insn : Insn) → table_insn word ≡ Some insn → effect_of_word regs word ≡ effect_of regs insn }
    ensures proper { (regs : Regs) (word : ℕ) → word < 2 ^ 32 → IsProper (asked_of (effect_of_word regs word)) }
    ensures next { (regs : Regs) (word : ℕ) → Follows regs (regs_of regs (effect_of_word regs word)) }
    ensures status { (regs : Regs) (word : ℕ) → HasBits regs → HasBits (regs_of regs (effect_of_word regs word)) }
    ensures words { (regs : Regs) (word : ℕ) → AreWords regs → word < 2 ^ 32 → AreWords (regs_of regs (effect_of_word regs word)) }
    ensures address { (regs : Regs) (word : ℕ) → AreWords regs → word < 2 ^ 32 → HasAddress (asked_of (effect_of_word regs word)) }
{}

/// A bit of and, or, xor and nor is that of the bits at its place.
pub fn every_logic()
    ensures and { (a b i : ℕ) → has_bit (reg_value RegOp.And a b) i ≡ (has_bit a i && has_bit b i) }
    ensures or { (a b i : ℕ) → has_bit (reg_value RegOp.Or a b) i ≡ (has_bit a i || has_bit b i) }
    ensures xor { (a b i : ℕ) → has_bit (reg_value RegOp.Xor a b) i ≡ (if has_bit a i then not (has_bit b i) else has_bit b i) }
    ensures nor { (a b i : ℕ) → a < 2 ^ 32 → b < 2 ^ 32 → i < 32 → has_bit (reg_value RegOp.Nor a b) i ≡ not (has_bit a i || has_bit b i) }
{}

/// Bit i of a word goes to bit i + b where the word is rotated to the left by b, and bit i comes
/// from bit i + b where it is rotated to the right. Bits count modulo 32.
pub fn every_rotation()
    ensures left { (a b i : ℕ) → a < 2 ^ 32 → i < 32 → has_bit (reg_value RegOp.Rol a b) ((i + b) % 32) ≡ has_bit a i }
    ensures left_by { (a by i : ℕ) → a < 2 ^ 32 → i < 32 → has_bit (shift_value ShiftOp.Roli a by) ((i + by) % 32) ≡ has_bit a i }
    ensures right { (a b i : ℕ) → a < 2 ^ 32 → i < 32 → has_bit (reg_value RegOp.Ror a b) i ≡ has_bit a ((i + b) % 32) }
{}

/// Bit i comes from bit i + b where a word is shifted to the right with its sign by b, modulo 32 of
/// a register, and from the sign where that is past bit 31.
pub fn every_arithmetic_shift()
    ensures right { (a b i : ℕ) → a < 2 ^ 32 → i < 32 → has_bit (reg_value RegOp.Sra a b) i ≡ has_bit a (min (i + b % 32) 31) }
    ensures right_by { (a by i : ℕ) → a < 2 ^ 32 → i < 32 → has_bit (shift_value ShiftOp.Srai a by) i ≡ has_bit a (min (i + by) 31) }
{}

/// A word divided by another is its quotient towards zero, where it has one.
pub fn every_quotient()
    ensures unsigned { (a b : ℕ) → IsTrue (has_quotient RegOp.Divu a b) → IsQuotient (pos a) (pos b) (pos (reg_value RegOp.Divu a b)) }
    ensures signed { (a b : ℕ) → a < 2 ^ 32 → b < 2 ^ 32 → IsTrue (has_quotient RegOp.Div a b) → IsQuotient (cast_signed w32 a) (cast_signed w32 b) (cast_signed w32 (reg_value RegOp.Div a b)) }
{}

/// The upper and the lower word of a product are the product together: of words without signs, of a
/// word with its sign and one without, and of words with their signs.
pub fn every_product()
    ensures uu { (a b : ℕ) → reg_value RegOp.Mulxuu a b * 2 ^ 32 + reg_value RegOp.Mul a b ≡ a * b }
    ensures su { (a b : ℕ) → a < 2 ^ 32 → b < 2 ^ 32 → (cast_signed w32 (reg_value RegOp.Mulxsu a b) *ℤ pos (2 ^ 32)) +ℤ pos (reg_value RegOp.Mul a b) ≡ cast_signed w32 a *ℤ pos b }
    ensures ss { (a b : ℕ) → a < 2 ^ 32 → b < 2 ^ 32 → (cast_signed w32 (reg_value RegOp.Mulxss a b) *ℤ pos (2 ^ 32)) +ℤ pos (reg_value RegOp.Mul a b) ≡ cast_signed w32 a *ℤ cast_signed w32 b }
{}
