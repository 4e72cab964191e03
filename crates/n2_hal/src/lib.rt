//! Routines that programs call, by the names of the HAL (Nios II Software Developer's Handbook, "HAL API
//! Reference"; Embedded Peripherals IP User Guide, "Mutex Core"), as source for the assembler.
#![tactic(auto)]

ghost use Rattle.std.specs.Prelude.{◌≡◌, ◌∷◌, [], ◌++◌, IfOk};
ghost use Rattle.n2_hal.specs.Routines.{routines_text};

use n2_text::put_text;
use n2_word::NoMemory;
use std::alloc::Global;

/// The source of all routines. Arguments are in r4 and r5, the result in r2; they use r2 to r15 and
/// r31, and no memory of their own.
const ROUTINES: &str = "\
.align 4
alt_dcache_flush:
    beq r5, r0, hal_2
    andi r6, r4, 31
    sub r7, r4, r6
    add r8, r4, r5
hal_1:
    flushda 0(r7)
    addi r7, r7, 32
    bltu r7, r8, hal_1
hal_2:
    ret
alt_dcache_flush_no_writeback:
    beq r5, r0, hal_4
    andi r6, r4, 31
    sub r7, r4, r6
    add r8, r4, r5
hal_3:
    initda 0(r7)
    addi r7, r7, 32
    bltu r7, r8, hal_3
hal_4:
    ret
alt_dcache_flush_all:
    movui r6, 65504
hal_5:
    flushd 0(r6)
    subi r6, r6, 32
    bge r6, r0, hal_5
    ret
alt_icache_flush:
    beq r5, r0, hal_10
    andi r6, r4, 31
    sub r7, r4, r6
    add r8, r4, r5
hal_9:
    flushi r7
    addi r7, r7, 32
    bltu r7, r8, hal_9
hal_10:
    ret
alt_icache_flush_all:
    movui r6, 65504
hal_11:
    flushi r6
    subi r6, r6, 32
    bge r6, r0, hal_11
    ret
alt_irq_disable_all:
    rdctl r2, ctl0
    wrctl ctl0, r0
    ret
alt_irq_enable_all:
    wrctl ctl0, r4
    ret
alt_putchar:
    ldwio r6, 4(r5)
    srli r6, r6, 16
    beq r6, r0, alt_putchar
    stwio r4, 0(r5)
    mov r2, r4
    ret
alt_putstr:
    ldbu r6, 0(r4)
    beq r6, r0, hal_13
hal_12:
    ldwio r7, 4(r5)
    srli r7, r7, 16
    beq r7, r0, hal_12
    stwio r6, 0(r5)
    addi r4, r4, 1
    br alt_putstr
hal_13:
    mov r2, r0
    ret
alt_getchar:
    ldwio r6, 0(r4)
    andi r7, r6, 32768
    beq r7, r0, alt_getchar
    andi r2, r6, 255
    ret
altera_avalon_mutex_trylock:
    rdctl r6, ctl5
    slli r6, r6, 16
    or r6, r6, r5
    stwio r6, 0(r4)
    ldwio r7, 0(r4)
    beq r7, r6, hal_6
    movi r2, -1
    ret
hal_6:
    mov r2, r0
    ret
altera_avalon_mutex_lock:
    rdctl r6, ctl5
    slli r6, r6, 16
    or r6, r6, r5
hal_7:
    stwio r6, 0(r4)
    ldwio r7, 0(r4)
    bne r7, r6, hal_7
    mov r2, r0
    ret
altera_avalon_mutex_unlock:
    rdctl r6, ctl5
    slli r6, r6, 16
    stwio r6, 0(r4)
    ret
altera_avalon_mutex_is_mine:
    ldwio r6, 0(r4)
    mov r2, r0
    andi r7, r6, 65535
    beq r7, r0, hal_8
    srli r6, r6, 16
    rdctl r7, ctl5
    cmpeq r2, r6, r7
hal_8:
    ret
";

/// The source of all routines.
pub fn routines() -> &'static str
    ensures { result.now ≡ routines_text }
{
    ROUTINES
}

/// A source with the routines behind it: the source, a line feed, and the routines. NoMemory is the
/// only error.
pub fn with_hal(alloc: Global, source: &[u8]) -> Result<Vec<u8>, NoMemory>
    ensures { IfOk result (λ text. text.items ≡ source.now ++ (10 ∷ []) ++ routines_text) }
{
    let mut text = Vec::new(alloc);
    put_text(&mut text, source)?;
    put_text(&mut text, b"\n")?;
    put_text(&mut text, routines().as_bytes())?;
    Ok(text)
}
