//! The registers of a core, and exceptions.

ghost use Rattle.std.specs.Prelude.{◌≡◌, ◌<◌};
ghost use Rattle.n2_exec.specs.Registers as registers;

/// The registers of a core: its program counter, r0 to r31, the control registers status, estatus,
/// bstatus and ienable, the latched interrupt lines, its cpuid and the address of its exceptions.
/// What stands at r0 is never read.
#[derive(Clone, Copy, Debug, PartialEq, Eq)]
pub struct Regs {
    pub pc: u32,
    pub gpr: [u32; 32],
    pub status: u32,
    pub estatus: u32,
    pub bstatus: u32,
    pub ienable: u32,
    pub latch: u32,
    pub cpuid: u32,
    pub vector: u32,
}

impl Regs {
    /// The registers of a core before its first instruction: all that is not given is 0.
    pub fn at_reset(pc: u32, cpuid: u32, vector: u32) -> Regs
        ensures { result ≡ registers.reset_regs pc cpuid vector }
    {
        Regs {
            pc,
            gpr: [0; 32],
            status: 0,
            estatus: 0,
            bstatus: 0,
            ienable: 0,
            latch: 0,
            cpuid,
            vector,
        }
    }

    /// What a register reads.
    #[inline(always)]
    pub fn reg(&self, n: u8) -> u32
        requires { n < 32 }
        ensures { result ≡ registers.reg self.now n }
    {
        if n == 0 { 0 } else { self.gpr[usize::from(n)] }
    }

    /// Writes a register; what is written to r0 is dropped.
    #[inline(always)]
    pub fn set_reg(&mut self, n: u8, value: u32)
        requires { n < 32 }
        ensures { self.new ≡ registers.with_reg self.old n value }
    {
        if n != 0 {
            self.gpr[usize::from(n)] = value;
        }
    }

    /// What a control register reads: status 0, estatus 1, bstatus 2, ienable 3, ipending 4 and
    /// cpuid 5; others read 0.
    #[inline(always)]
    pub fn control(&self, n: u8) -> u32
        ensures { result ≡ registers.control self.now n }
    {
        match n {
            0 => self.status,
            1 => self.estatus,
            2 => self.bstatus,
            3 => self.ienable,
            4 => self.latch & self.ienable,
            5 => self.cpuid,
            _ => 0,
        }
    }

    /// Writes a control register: status, estatus and bstatus keep bit 0, and what is written to
    /// others than 0 to 3 is dropped.
    #[inline(always)]
    pub fn set_control(&mut self, n: u8, value: u32)
        ensures { self.new ≡ registers.with_control self.old n value }
    {
        match n {
            0 => self.status = value % 2,
            1 => self.estatus = value % 2,
            2 => self.bstatus = value % 2,
            3 => self.ienable = value,
            _ => {}
        }
    }

    /// On to the next instruction: the program counter plus 4.
    #[inline(always)]
    pub fn advance(&mut self)
        ensures { self.new ≡ registers.passed_regs self.old }
    {
        self.pc = self.pc.wrapping_add(4);
    }

    /// After a load: its register has the value, and the next instruction follows.
    #[inline(always)]
    pub fn put_loaded(&mut self, to: u8, value: u32)
        requires { to < 32 }
        ensures { self.new ≡ registers.loaded_regs self.old to value }
    {
        self.set_reg(to, value);
        self.advance();
    }

    /// Writes the address of the next instruction to r31, as a call does.
    #[inline(always)]
    pub(crate) fn link(&mut self)
        ensures { self.new ≡ registers.linked self.old }
    {
        self.gpr[31] = self.pc.wrapping_add(4);
    }

    /// Takes an exception (Nios II Processor Reference Guide, "Exception Processing"): status goes
    /// to estatus, PIE is cleared, r29 takes the address after the instruction.
    #[inline(always)]
    pub fn take_exception(&mut self)
        ensures { self.new ≡ registers.raised self.old }
    {
        self.estatus = self.status;
        self.status = 0;
        self.gpr[29] = self.pc.wrapping_add(4);
        self.pc = self.vector;
    }

    /// Takes an interrupt in place of the instruction at the program counter: r29 takes that
    /// instruction's address plus 4, all else is as for an exception.
    #[inline(always)]
    pub fn take_interrupt(&mut self)
        ensures { self.new ≡ registers.interrupted self.old }
    {
        self.take_exception();
    }

    /// Latches the interrupt lines that are on, bit i for line i, in place of those latched before.
    #[inline(always)]
    pub fn latch_lines(&mut self, lines: u32)
        ensures { self.new ≡ registers.latched self.old lines }
    {
        self.latch = lines;
    }
}

/// The registers where the next instruction follows (`Regs::advance`).
pub fn passed(regs: &Regs) -> Regs
    ensures { result ≡ registers.passed_regs regs.now }
{
    let mut next = *regs;
    next.advance();
    next
}

/// The registers after a load (`Regs::put_loaded`).
pub fn loaded(regs: &Regs, to: u8, value: u32) -> Regs
    requires { to < 32 }
    ensures { result ≡ registers.loaded_regs regs.now to value }
{
    let mut next = *regs;
    next.put_loaded(to, value);
    next
}

/// The registers after an exception (`Regs::take_exception`).
pub fn raise(regs: &Regs) -> Regs
    ensures { result ≡ registers.raised regs.now }
{
    let mut next = *regs;
    next.take_exception();
    next
}

/// The registers after an interrupt (`Regs::take_interrupt`).
pub fn interrupt(regs: &Regs) -> Regs
    ensures { result ≡ registers.interrupted regs.now }
{
    let mut next = *regs;
    next.take_interrupt();
    next
}

/// Whether an interrupt is to be taken: PIE is 1 and a latched line is enabled.
#[inline(always)]
pub fn waiting(regs: &Regs) -> bool
    ensures { result ≡ registers.is_waiting regs.now }
{
    regs.status % 2 == 1 && regs.latch & regs.ienable != 0
}
