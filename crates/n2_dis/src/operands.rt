//! Operands of an instruction, and their text.

ghost use Rattle.std.specs.Prelude.{◌≡◌, ◌++◌, ◌<◌, ◌^◌, codes, OnOk, IsTrue};
ghost use Rattle.n2_insn.specs.Table.{is_valid};
ghost use Rattle.n2_statement.specs.Values.{imm_field};
ghost use Rattle.n2_dis.specs.Texts as spec;

use n2_insn::{ImmOp, Insn};
use n2_text::{put_number, put_text, put_word};
use n2_word::{NoMemory, sign16};

/// An operand: a register or a control register by its number, an immediate that is sign-extended,
/// a number, a place, or an immediate with the register that it is added to.
#[derive(Clone, Copy, Debug, PartialEq, Eq)]
pub enum Operand {
    Register(u8),
    Control(u8),
    Signed(u16),
    Number(u16),
    Place(u32),
    Based(u16, u8),
}

/// The operands of an instruction, as they stand from left to right.
#[derive(Clone, Copy, Debug, PartialEq, Eq)]
pub enum Operands {
    Zero,
    One(Operand),
    Two(Operand, Operand),
    Three(Operand, Operand, Operand),
}

/// Where a branch here goes.
fn branch_place(here: u32, imm: u16) -> u32
    ensures { result ≡ spec.branch_place here imm }
{
    here.wrapping_add(4).wrapping_add(sign16(imm))
}

/// Where a jump here goes.
fn jump_place(here: u32, target: u32) -> u32
    requires { target < 2 ^ 26 }
    ensures { result ≡ spec.jump_place here target }
{
    (here >> 28 << 28) + 4 * target
}

/// An immediate of 16 bits.
fn immediate(op: ImmOp, imm: u16) -> Operand
    ensures { result ≡ spec.immediate (imm_field op) imm }
{
    match op {
        ImmOp::Addi | ImmOp::Muli | ImmOp::Cmpgei | ImmOp::Cmplti | ImmOp::Cmpnei | ImmOp::Cmpeqi =>
            Operand::Signed(imm),
        ImmOp::Andi
        | ImmOp::Ori
        | ImmOp::Xori
        | ImmOp::Andhi
        | ImmOp::Orhi
        | ImmOp::Xorhi
        | ImmOp::Cmpgeui
        | ImmOp::Cmpltui => Operand::Number(imm),
    }
}

/// The operands of an instruction here.
pub fn operands_of(here: u32, insn: &Insn) -> Operands
    requires { IsTrue (is_valid insn.now) }
    ensures { result ≡ spec.operands_of here insn.now }
{
    match *insn {
        Insn::Jump { target, .. } => Operands::One(Operand::Place(jump_place(here, target))),
        Insn::Imm { op, a, b, imm } => {
            Operands::Three(
                Operand::Register(b),
                Operand::Register(a),
                immediate(op, imm),
            )
        }
        Insn::Br { imm } => Operands::One(Operand::Place(branch_place(here, imm))),
        Insn::Branch { a, b, imm, .. } => Operands::Three(
            Operand::Register(a),
            Operand::Register(b),
            Operand::Place(branch_place(here, imm)),
        ),
        Insn::Load { a, b, imm, .. } | Insn::Store { a, b, imm, .. } => {
            Operands::Two(Operand::Register(b), Operand::Based(imm, a))
        }
        Insn::Data { a, imm, .. } => Operands::One(Operand::Based(imm, a)),
        Insn::Code { a, .. } | Insn::Jmp { a } | Insn::Callr { a } => {
            Operands::One(Operand::Register(a))
        }
        Insn::Reg { a, b, c, .. } => Operands::Three(
            Operand::Register(c),
            Operand::Register(a),
            Operand::Register(b),
        ),
        Insn::Shift { a, c, by, .. } => Operands::Three(
            Operand::Register(c),
            Operand::Register(a),
            Operand::Number(u16::from(by)),
        ),
        Insn::Nextpc { c } => Operands::One(Operand::Register(c)),
        Insn::Rdctl { c, n } => Operands::Two(Operand::Register(c), Operand::Control(n)),
        Insn::Wrctl { n, a } => Operands::Two(Operand::Control(n), Operand::Register(a)),
        Insn::Trap { imm } | Insn::Break { imm } => {
            Operands::One(Operand::Number(u16::from(imm)))
        }
        Insn::Ret | Insn::Eret | Insn::Flushp | Insn::Sync => Operands::Zero,
    }
}

fn put_signed(out: &mut Vec<u8>, imm: u16) -> Result<(), NoMemory>
    ensures { OnOk result (out.new.items ≡ out.old.items ++ spec.signed_text imm) }
{
    if imm < 1 << 15 {
        put_number(out, u64::from(imm))
    } else {
        put_text(out, b"-")?;
        put_number(out, 65536 - u64::from(imm))
    }
}

fn put_register(out: &mut Vec<u8>, n: u8) -> Result<(), NoMemory>
    ensures { OnOk result (out.new.items ≡ out.old.items ++ spec.register_text n) }
{
    put_text(out, b"r")?;
    put_number(out, u64::from(n))
}

fn put_control(out: &mut Vec<u8>, n: u8) -> Result<(), NoMemory>
    ensures { OnOk result (out.new.items ≡ out.old.items ++ spec.operand_text (Operand.Control n)) }
{
    put_text(out, b"ctl")?;
    put_number(out, u64::from(n))
}

fn put_place(out: &mut Vec<u8>, at: u32) -> Result<(), NoMemory>
    ensures { OnOk result (out.new.items ≡ out.old.items ++ spec.operand_text (Operand.Place at)) }
{
    put_text(out, b"0x")?;
    put_word(out, at)
}

fn put_based(out: &mut Vec<u8>, imm: u16, a: u8) -> Result<(), NoMemory>
    ensures { OnOk result (out.new.items ≡ out.old.items ++ spec.operand_text (Operand.Based imm a)) }
{
    put_signed(out, imm)?;
    put_text(out, b"(")?;
    put_register(out, a)?;
    put_text(out, b")")
}

fn put_operand(out: &mut Vec<u8>, operand: Operand) -> Result<(), NoMemory>
    ensures { OnOk result (out.new.items ≡ out.old.items ++ spec.operand_text operand) }
{
    match operand {
        Operand::Register(n) => put_register(out, n),
        Operand::Control(n) => put_control(out, n),
        Operand::Signed(imm) => put_signed(out, imm),
        Operand::Number(n) => put_number(out, u64::from(n)),
        Operand::Place(at) => put_place(out, at),
        Operand::Based(imm, a) => put_based(out, imm, a),
    }
}

/// Appends a comma, a blank and an operand.
fn put_next(out: &mut Vec<u8>, operand: Operand) -> Result<(), NoMemory>
    ensures { OnOk result (out.new.items ≡ out.old.items ++ (codes ", " ++ spec.operand_text operand)) }
{
    put_text(out, b", ")?;
    put_operand(out, operand)
}

/// Appends a blank and an operand.
fn put_first(out: &mut Vec<u8>, operand: Operand) -> Result<(), NoMemory>
    ensures { OnOk result (out.new.items ≡ out.old.items ++ (codes " " ++ spec.operand_text operand)) }
{
    put_text(out, b" ")?;
    put_operand(out, operand)
}

fn put_two(out: &mut Vec<u8>, x: Operand, y: Operand) -> Result<(), NoMemory>
    ensures { OnOk result (out.new.items ≡ out.old.items ++ spec.operands_text (Operands.Two x y)) }
{
    put_first(out, x)?;
    put_next(out, y)
}

fn put_three(out: &mut Vec<u8>, x: Operand, y: Operand, z: Operand) -> Result<(), NoMemory>
    ensures { OnOk result (out.new.items ≡ out.old.items ++ spec.operands_text (Operands.Three x y z)) }
{
    put_first(out, x)?;
    put_next(out, y)?;
    put_next(out, z)
}

/// Appends the text of operands.
pub fn put_operands(out: &mut Vec<u8>, operands: Operands) -> Result<(), NoMemory>
    ensures { OnOk result (out.new.items ≡ out.old.items ++ spec.operands_text operands) }
{
    match operands {
        Operands::Zero => Ok(()),
        Operands::One(x) => put_first(out, x),
        Operands::Two(x, y) => put_two(out, x, y),
        Operands::Three(x, y, z) => put_three(out, x, y, z),
    }
}
