//! The statement of a row.

ghost use Rattle.std.specs.Prelude.{◌≡◌, [], length, option_map, IfSome, IfOk, IsTrue, ◌||◌};
ghost use Rattle.n2_insn.specs.Table.{is_valid};
ghost use Rattle.n2_statement.specs.Statements as spec;

use crate::faults::AsmKind;
use n2_insn::{BranchOp, CodeLineOp, DataOp, ImmOp, Insn, JumpOp, LoadOp, RegOp, ShiftOp};
use n2_source::{
    Expression, Immediate, Mnemonic, Name, Number, Numbers, Part, Quoted, base_at,
    control_register_at, is_end, name_at, name_number_at, number_at, past, quoted_at, register_at,
    register_base_at, register_control_at, register_expression_at, register_immediate_at, skip,
    starts_blank, three_registers_at, two_registers_at, two_registers_immediate_at,
    two_registers_place_at, whole_at, word_at,
};
use n2_word::Width;

/// A statement: an instruction as it is, one whose immediate is given, an `addi` of two registers
/// whose immediate is given with the other sign, an address in a register, or a directive.
#[derive(Debug, Drop)]
pub enum Statement<'a> {
    Fixed(Insn),
    Filled(Insn, Immediate<'a>),
    Negated(u8, u8, Immediate<'a>),
    Address(u8, Expression<'a>),
    Segment(bool, Number),
    Words(Numbers<'a>),
    Bytes(Numbers<'a>),
    Space(Number),
    Align(Number),
    Text(Quoted<'a>),
    Constant(Name<'a>, Number),
}

#[tactic(auto, unfolding(crate::specs::Statements::operands_at))]
fn jump<'a>(op: JumpOp, bytes: &'a [u8]) -> Option<(Statement<'a>, &'a [u8])>
    ensures value { option_map (λ x. (x.0, x.1.now)) result ≡ spec.operands_at (Mnemonic.Jump op) bytes.now }
    ensures valid { IfSome result (λ x. IsTrue (spec.is_valid_statement x.0)) }
{
    let (value, rest) = whole_at(bytes)?;
    Some((Statement::Filled(Insn::Jump { op, target: 0 }, value), rest))
}

#[tactic(auto, unfolding(crate::specs::Statements::operands_at))]
fn imm<'a>(op: ImmOp, bytes: &'a [u8]) -> Option<(Statement<'a>, &'a [u8])>
    ensures value { option_map (λ x. (x.0, x.1.now)) result ≡ spec.operands_at (Mnemonic.Imm op) bytes.now }
    ensures valid { IfSome result (λ x. IsTrue (spec.is_valid_statement x.0)) }
{
    let ((b, a, value), rest) = two_registers_immediate_at(bytes)?;
    Some((
        Statement::Filled(Insn::Imm { op, a, b, imm: 0 }, value),
        rest,
    ))
}

#[tactic(auto, unfolding(crate::specs::Statements::operands_at))]
fn br<'a>(bytes: &'a [u8]) -> Option<(Statement<'a>, &'a [u8])>
    ensures value { option_map (λ x. (x.0, x.1.now)) result ≡ spec.operands_at Mnemonic.Br bytes.now }
    ensures valid { IfSome result (λ x. IsTrue (spec.is_valid_statement x.0)) }
{
    let (value, rest) = whole_at(bytes)?;
    Some((Statement::Filled(Insn::Br { imm: 0 }, value), rest))
}

#[tactic(auto, unfolding(crate::specs::Statements::operands_at))]
fn branch<'a>(op: BranchOp, bytes: &'a [u8]) -> Option<(Statement<'a>, &'a [u8])>
    ensures value { option_map (λ x. (x.0, x.1.now)) result ≡ spec.operands_at (Mnemonic.Branch op) bytes.now }
    ensures valid { IfSome result (λ x. IsTrue (spec.is_valid_statement x.0)) }
{
    let ((a, b, value), rest) = two_registers_place_at(bytes)?;
    Some((
        Statement::Filled(Insn::Branch { op, a, b, imm: 0 }, value),
        rest,
    ))
}

#[tactic(auto, unfolding(crate::specs::Statements::operands_at))]
fn load<'a>(op: LoadOp, io: bool, bytes: &'a [u8]) -> Option<(Statement<'a>, &'a [u8])>
    ensures value { option_map (λ x. (x.0, x.1.now)) result ≡ spec.operands_at (Mnemonic.Load op io) bytes.now }
    ensures valid { IfSome result (λ x. IsTrue (spec.is_valid_statement x.0)) }
{
    let ((a, b, value), rest) = register_base_at(bytes)?;
    Some((
        Statement::Filled(
            Insn::Load {
                op,
                io,
                a,
                b,
                imm: 0,
            },
            value,
        ),
        rest,
    ))
}

#[tactic(auto, unfolding(crate::specs::Statements::operands_at))]
fn store<'a>(width: Width, io: bool, bytes: &'a [u8]) -> Option<(Statement<'a>, &'a [u8])>
    ensures value { option_map (λ x. (x.0, x.1.now)) result ≡ spec.operands_at (Mnemonic.Store width io) bytes.now }
    ensures valid { IfSome result (λ x. IsTrue (spec.is_valid_statement x.0)) }
{
    let ((a, b, value), rest) = register_base_at(bytes)?;
    Some((
        Statement::Filled(
            Insn::Store {
                width,
                io,
                a,
                b,
                imm: 0,
            },
            value,
        ),
        rest,
    ))
}

#[tactic(auto, unfolding(crate::specs::Statements::operands_at))]
fn data<'a>(op: DataOp, bytes: &'a [u8]) -> Option<(Statement<'a>, &'a [u8])>
    ensures value { option_map (λ x. (x.0, x.1.now)) result ≡ spec.operands_at (Mnemonic.Data op) bytes.now }
    ensures valid { IfSome result (λ x. IsTrue (spec.is_valid_statement x.0)) }
{
    let ((a, value), rest) = base_at(bytes)?;
    Some((Statement::Filled(Insn::Data { op, a, imm: 0 }, value), rest))
}

#[tactic(auto, unfolding(crate::specs::Statements::operands_at))]
fn code<'a>(op: CodeLineOp, bytes: &'a [u8]) -> Option<(Statement<'a>, &'a [u8])>
    ensures value { option_map (λ x. (x.0, x.1.now)) result ≡ spec.operands_at (Mnemonic.Code op) bytes.now }
    ensures valid { IfSome result (λ x. IsTrue (spec.is_valid_statement x.0)) }
{
    let (a, rest) = register_at(bytes)?;
    Some((Statement::Fixed(Insn::Code { op, a }), rest))
}

#[tactic(auto, unfolding(crate::specs::Statements::operands_at))]
fn reg<'a>(op: RegOp, bytes: &'a [u8]) -> Option<(Statement<'a>, &'a [u8])>
    ensures value { option_map (λ x. (x.0, x.1.now)) result ≡ spec.operands_at (Mnemonic.Reg op) bytes.now }
    ensures valid { IfSome result (λ x. IsTrue (spec.is_valid_statement x.0)) }
{
    let ((c, a, b), rest) = three_registers_at(bytes)?;
    Some((Statement::Fixed(Insn::Reg { op, a, b, c }), rest))
}

#[tactic(auto, unfolding(crate::specs::Statements::operands_at))]
fn shift<'a>(op: ShiftOp, bytes: &'a [u8]) -> Option<(Statement<'a>, &'a [u8])>
    ensures value { option_map (λ x. (x.0, x.1.now)) result ≡ spec.operands_at (Mnemonic.Shift op) bytes.now }
    ensures valid { IfSome result (λ x. IsTrue (spec.is_valid_statement x.0)) }
{
    let ((c, a, value), rest) = two_registers_immediate_at(bytes)?;
    Some((
        Statement::Filled(Insn::Shift { op, a, c, by: 0 }, value),
        rest,
    ))
}

#[tactic(auto, unfolding(crate::specs::Statements::operands_at))]
fn jmp<'a>(bytes: &'a [u8]) -> Option<(Statement<'a>, &'a [u8])>
    ensures value { option_map (λ x. (x.0, x.1.now)) result ≡ spec.operands_at Mnemonic.Jmp bytes.now }
    ensures valid { IfSome result (λ x. IsTrue (spec.is_valid_statement x.0)) }
{
    let (a, rest) = register_at(bytes)?;
    Some((Statement::Fixed(Insn::Jmp { a }), rest))
}

#[tactic(auto, unfolding(crate::specs::Statements::operands_at))]
fn callr<'a>(bytes: &'a [u8]) -> Option<(Statement<'a>, &'a [u8])>
    ensures value { option_map (λ x. (x.0, x.1.now)) result ≡ spec.operands_at Mnemonic.Callr bytes.now }
    ensures valid { IfSome result (λ x. IsTrue (spec.is_valid_statement x.0)) }
{
    let (a, rest) = register_at(bytes)?;
    Some((Statement::Fixed(Insn::Callr { a }), rest))
}

#[tactic(auto, unfolding(crate::specs::Statements::operands_at))]
fn nextpc<'a>(bytes: &'a [u8]) -> Option<(Statement<'a>, &'a [u8])>
    ensures value { option_map (λ x. (x.0, x.1.now)) result ≡ spec.operands_at Mnemonic.Nextpc bytes.now }
    ensures valid { IfSome result (λ x. IsTrue (spec.is_valid_statement x.0)) }
{
    let (c, rest) = register_at(bytes)?;
    Some((Statement::Fixed(Insn::Nextpc { c }), rest))
}

#[tactic(auto, unfolding(crate::specs::Statements::operands_at))]
fn rdctl<'a>(bytes: &'a [u8]) -> Option<(Statement<'a>, &'a [u8])>
    ensures value { option_map (λ x. (x.0, x.1.now)) result ≡ spec.operands_at Mnemonic.Rdctl bytes.now }
    ensures valid { IfSome result (λ x. IsTrue (spec.is_valid_statement x.0)) }
{
    let ((c, n), rest) = register_control_at(bytes)?;
    Some((Statement::Fixed(Insn::Rdctl { c, n }), rest))
}

#[tactic(auto, unfolding(crate::specs::Statements::operands_at))]
fn wrctl<'a>(bytes: &'a [u8]) -> Option<(Statement<'a>, &'a [u8])>
    ensures value { option_map (λ x. (x.0, x.1.now)) result ≡ spec.operands_at Mnemonic.Wrctl bytes.now }
    ensures valid { IfSome result (λ x. IsTrue (spec.is_valid_statement x.0)) }
{
    let ((n, a), rest) = control_register_at(bytes)?;
    Some((Statement::Fixed(Insn::Wrctl { n, a }), rest))
}

#[tactic(auto, unfolding(crate::specs::Statements::operands_at))]
fn mov_registers<'a>(bytes: &'a [u8]) -> Option<(Statement<'a>, &'a [u8])>
    ensures value { option_map (λ x. (x.0, x.1.now)) result ≡ spec.operands_at Mnemonic.Mov bytes.now }
    ensures valid { IfSome result (λ x. IsTrue (spec.is_valid_statement x.0)) }
{
    let ((c, a), rest) = two_registers_at(bytes)?;
    Some((
        Statement::Fixed(Insn::Reg {
            op: RegOp::Add,
            a,
            b: 0,
            c,
        }),
        rest,
    ))
}

#[tactic(auto, unfolding(crate::specs::Statements::operands_at))]
fn movi<'a>(bytes: &'a [u8]) -> Option<(Statement<'a>, &'a [u8])>
    ensures value { option_map (λ x. (x.0, x.1.now)) result ≡ spec.operands_at Mnemonic.Movi bytes.now }
    ensures valid { IfSome result (λ x. IsTrue (spec.is_valid_statement x.0)) }
{
    let ((b, value), rest) = register_immediate_at(bytes)?;
    Some((
        Statement::Filled(
            Insn::Imm {
                op: ImmOp::Addi,
                a: 0,
                b,
                imm: 0,
            },
            value,
        ),
        rest,
    ))
}

#[tactic(auto, unfolding(crate::specs::Statements::operands_at))]
fn movui<'a>(bytes: &'a [u8]) -> Option<(Statement<'a>, &'a [u8])>
    ensures value { option_map (λ x. (x.0, x.1.now)) result ≡ spec.operands_at Mnemonic.Movui bytes.now }
    ensures valid { IfSome result (λ x. IsTrue (spec.is_valid_statement x.0)) }
{
    let ((b, value), rest) = register_immediate_at(bytes)?;
    Some((
        Statement::Filled(
            Insn::Imm {
                op: ImmOp::Ori,
                a: 0,
                b,
                imm: 0,
            },
            value,
        ),
        rest,
    ))
}

#[tactic(auto, unfolding(crate::specs::Statements::operands_at))]
fn subi<'a>(bytes: &'a [u8]) -> Option<(Statement<'a>, &'a [u8])>
    ensures value { option_map (λ x. (x.0, x.1.now)) result ≡ spec.operands_at Mnemonic.Subi bytes.now }
    ensures valid { IfSome result (λ x. IsTrue (spec.is_valid_statement x.0)) }
{
    let ((b, a, value), rest) = two_registers_immediate_at(bytes)?;
    Some((Statement::Negated(a, b, value), rest))
}

#[tactic(auto, unfolding(crate::specs::Statements::operands_at))]
fn movia<'a>(bytes: &'a [u8]) -> Option<(Statement<'a>, &'a [u8])>
    ensures value { option_map (λ x. (x.0, x.1.now)) result ≡ spec.operands_at Mnemonic.Movia bytes.now }
    ensures valid { IfSome result (λ x. IsTrue (spec.is_valid_statement x.0)) }
{
    let ((b, value), rest) = register_expression_at(bytes)?;
    Some((Statement::Address(b, value), rest))
}

#[tactic(auto, unfolding(crate::specs::Statements::operands_at))]
fn segment<'a>(exec: bool, bytes: &'a [u8]) -> Option<(Statement<'a>, &'a [u8])>
    ensures value { option_map (λ x. (x.0, x.1.now)) result ≡ spec.operands_at (Mnemonic.Segment exec) bytes.now }
    ensures valid { IfSome result (λ x. IsTrue (spec.is_valid_statement x.0)) }
{
    let (at, rest) = number_at(bytes)?;
    Some((Statement::Segment(exec, at), rest))
}

#[tactic(auto, unfolding(crate::specs::Statements::operands_at))]
fn space<'a>(bytes: &'a [u8]) -> Option<(Statement<'a>, &'a [u8])>
    ensures value { option_map (λ x. (x.0, x.1.now)) result ≡ spec.operands_at Mnemonic.Space bytes.now }
    ensures valid { IfSome result (λ x. IsTrue (spec.is_valid_statement x.0)) }
{
    let (count, rest) = number_at(bytes)?;
    Some((Statement::Space(count), rest))
}

#[tactic(auto, unfolding(crate::specs::Statements::operands_at))]
fn align<'a>(bytes: &'a [u8]) -> Option<(Statement<'a>, &'a [u8])>
    ensures value { option_map (λ x. (x.0, x.1.now)) result ≡ spec.operands_at Mnemonic.Align bytes.now }
    ensures valid { IfSome result (λ x. IsTrue (spec.is_valid_statement x.0)) }
{
    let (to, rest) = number_at(bytes)?;
    Some((Statement::Align(to), rest))
}

#[tactic(auto, unfolding(crate::specs::Statements::operands_at))]
fn asciz<'a>(bytes: &'a [u8]) -> Option<(Statement<'a>, &'a [u8])>
    ensures value { option_map (λ x. (x.0, x.1.now)) result ≡ spec.operands_at Mnemonic.Asciz bytes.now }
    ensures valid { IfSome result (λ x. IsTrue (spec.is_valid_statement x.0)) }
{
    let (text, rest) = quoted_at(bytes)?;
    Some((Statement::Text(text), rest))
}

#[tactic(auto, unfolding(crate::specs::Statements::operands_at))]
fn equ<'a>(bytes: &'a [u8]) -> Option<(Statement<'a>, &'a [u8])>
    ensures value { option_map (λ x. (x.0, x.1.now)) result ≡ spec.operands_at Mnemonic.Equ bytes.now }
    ensures valid { IfSome result (λ x. IsTrue (spec.is_valid_statement x.0)) }
{
    let ((name, value), rest) = name_number_at(bytes)?;
    Some((Statement::Constant(name, value), rest))
}

#[tactic(auto, unfolding(crate::specs::Statements::operands_at))]
fn word(bytes: &[u8]) -> Option<(Statement<'_>, &[u8])>
    ensures value { option_map (λ x. (x.0, x.1.now)) result ≡ spec.operands_at Mnemonic.Word bytes.now }
    ensures valid { IfSome result (λ x. IsTrue (spec.is_valid_statement x.0)) }
{
    let list = Numbers::read(bytes)?;
    Some((Statement::Words(list), nothing(bytes)))
}

#[tactic(auto, unfolding(crate::specs::Statements::operands_at))]
fn byte(bytes: &[u8]) -> Option<(Statement<'_>, &[u8])>
    ensures value { option_map (λ x. (x.0, x.1.now)) result ≡ spec.operands_at Mnemonic.Byte bytes.now }
    ensures valid { IfSome result (λ x. IsTrue (spec.is_valid_statement x.0)) }
{
    let list = Numbers::read(bytes)?;
    Some((Statement::Bytes(list), nothing(bytes)))
}

/// What stands behind all bytes.
fn nothing(bytes: &[u8]) -> &[u8]
    ensures { result.now ≡ [] }
{
    &bytes[bytes.len()..]
}

/// An immediate that is a number.
fn whole(n: Number) -> Immediate<'static>
    ensures { result ≡ spec.whole n }
{
    Immediate {
        part: Part::Whole,
        value: Expression::Number(n),
    }
}

/// The number of `trap` or `break`, where it has one.
fn numbered(insn: Insn, bytes: &[u8]) -> Option<(Statement<'_>, &[u8])>
    requires { IsTrue (is_valid insn) }
    ensures value { option_map (λ x. (x.0, x.1.now)) result ≡ spec.numbered_at insn bytes.now }
    ensures valid { IfSome result (λ x. IsTrue (spec.is_valid_statement x.0)) }
{
    if is_end(bytes) {
        let none = Number {
            negative: false,
            size: 0,
        };
        Some((Statement::Filled(insn, whole(none)), bytes))
    } else if starts_blank(bytes) {
        let (n, rest) = number_at(bytes)?;
        Some((Statement::Filled(insn, whole(n)), rest))
    } else {
        None
    }
}

/// The operands of a statement, and what stands behind them.
#[tactic(auto, unfolding(crate::specs::Statements::operands_at))]
fn operands_at(mnemonic: Mnemonic, bytes: &[u8]) -> Option<(Statement<'_>, &[u8])>
    ensures value { option_map (λ x. (x.0, x.1.now)) result ≡ spec.operands_at mnemonic bytes.now }
    ensures valid { IfSome result (λ x. IsTrue (spec.is_valid_statement x.0)) }
{
    match mnemonic {
        Mnemonic::Jump(op) => jump(op, bytes),
        Mnemonic::Imm(op) => imm(op, bytes),
        Mnemonic::Br => br(bytes),
        Mnemonic::Branch(op) => branch(op, bytes),
        Mnemonic::Load { op, io } => load(op, io, bytes),
        Mnemonic::Store { width, io } => store(width, io, bytes),
        Mnemonic::Data(op) => data(op, bytes),
        Mnemonic::Code(op) => code(op, bytes),
        Mnemonic::Reg(op) => reg(op, bytes),
        Mnemonic::Shift(op) => shift(op, bytes),
        Mnemonic::Jmp => jmp(bytes),
        Mnemonic::Callr => callr(bytes),
        Mnemonic::Ret => Some((Statement::Fixed(Insn::Ret), bytes)),
        Mnemonic::Eret => Some((Statement::Fixed(Insn::Eret), bytes)),
        Mnemonic::Nextpc => nextpc(bytes),
        Mnemonic::Rdctl => rdctl(bytes),
        Mnemonic::Wrctl => wrctl(bytes),
        Mnemonic::Trap => numbered(Insn::Trap { imm: 0 }, bytes),
        Mnemonic::Break => numbered(Insn::Break { imm: 0 }, bytes),
        Mnemonic::Flushp => Some((Statement::Fixed(Insn::Flushp), bytes)),
        Mnemonic::Sync => Some((Statement::Fixed(Insn::Sync), bytes)),
        Mnemonic::Nop => nop(bytes),
        Mnemonic::Mov => mov_registers(bytes),
        Mnemonic::Movi => movi(bytes),
        Mnemonic::Movui => movui(bytes),
        Mnemonic::Subi => subi(bytes),
        Mnemonic::Movia => movia(bytes),
        Mnemonic::Segment { exec } => segment(exec, bytes),
        Mnemonic::Word => word(bytes),
        Mnemonic::Byte => byte(bytes),
        Mnemonic::Space => space(bytes),
        Mnemonic::Align => align(bytes),
        Mnemonic::Asciz => asciz(bytes),
        Mnemonic::Equ => equ(bytes),
    }
}

#[tactic(auto, unfolding(crate::specs::Statements::operands_at))]
fn nop(bytes: &[u8]) -> Option<(Statement<'_>, &[u8])>
    ensures value { option_map (λ x. (x.0, x.1.now)) result ≡ spec.operands_at Mnemonic.Nop bytes.now }
    ensures valid { IfSome result (λ x. IsTrue (spec.is_valid_statement x.0)) }
{
    let insn = Insn::Reg {
        op: RegOp::Add,
        a: 0,
        b: 0,
        c: 0,
    };
    Some((Statement::Fixed(insn), bytes))
}

/// Whether a statement may end behind its name.
fn may_stand_alone(mnemonic: Mnemonic) -> bool
    ensures { result ≡ spec.may_stand_alone mnemonic }
{
    matches!(
        mnemonic,
        Mnemonic::Ret
            | Mnemonic::Eret
            | Mnemonic::Trap
            | Mnemonic::Break
            | Mnemonic::Flushp
            | Mnemonic::Sync
            | Mnemonic::Nop
    )
}

/// The statement behind its name, where its operands are those of the name.
#[tactic(auto, unfolding(crate::specs::Statements::statement_behind))]
fn statement_behind(mnemonic: Mnemonic, bytes: &[u8]) -> Option<Statement<'_>>
    ensures value { result ≡ spec.statement_behind mnemonic bytes.now }
    ensures valid { IfSome result (λ s. IsTrue (spec.is_valid_statement s)) }
{
    if !may_stand_alone(mnemonic) && !starts_blank(bytes) {
        return None;
    }
    let (statement, rest) = operands_at(mnemonic, bytes)?;
    if is_end(rest) { Some(statement) } else { None }
}

/// An instruction's name and what stands behind it.
fn instruction_at(bytes: &[u8]) -> (Option<Mnemonic>, &[u8])
    ensures { (result.0, result.1.now) ≡ spec.instruction_at bytes.now }
{
    let (word, rest) = word_at(bytes);
    (Mnemonic::instruction(word), rest)
}

/// A directive's name behind its dot, and what stands behind it.
fn directive_at(bytes: &[u8]) -> (Option<Mnemonic>, &[u8])
    ensures { (result.0, result.1.now) ≡ spec.directive_at bytes.now }
{
    let (word, rest) = word_at(bytes);
    (Mnemonic::directive(word), rest)
}

/// A statement's name and what stands behind it.
#[tactic(auto, unfolding(crate::specs::Statements::mnemonic_at))]
fn mnemonic_at(bytes: &[u8]) -> (Option<Mnemonic>, &[u8])
    ensures { (result.0, result.1.now) ≡ spec.mnemonic_at bytes.now }
{
    match past(b'.', bytes) {
        Some(rest) => directive_at(rest),
        None => instruction_at(bytes),
    }
}

/// The statement that begins a text.
#[tactic(auto, unfolding(crate::specs::Statements::named_statement))]
fn named_statement(bytes: &[u8]) -> Result<Statement<'_>, AsmKind>
    ensures value { result ≡ spec.named_statement bytes.now }
    ensures valid { IfOk result (λ s. IsTrue (spec.is_valid_statement s)) }
{
    let (named, rest) = mnemonic_at(bytes);
    match named {
        Some(mnemonic) => match statement_behind(mnemonic, rest) {
            Some(statement) => Ok(statement),
            None => Err(AsmKind::Operands),
        },
        None => Err(AsmKind::Unknown),
    }
}

/// A label in front of a row, and what stands behind its colon.
#[tactic(auto, unfolding(crate::specs::Statements::label_at))]
pub fn label_at(bytes: &[u8]) -> Option<(Name<'_>, &[u8])>
    ensures { option_map (λ x. (x.0, x.1.now)) result ≡ spec.label_at bytes.now }
{
    let (name, rest) = name_at(bytes)?;
    let rest = past(b':', rest)?;
    Some((name, rest))
}

/// What stands behind the labels of a row.
#[tactic(auto, unfolding(crate::specs::Statements::behind_labels), using(crate::proofs::LabelSteps::labels_step, crate::proofs::LabelSteps::labels_none))]
pub fn behind_labels(row: &[u8]) -> &[u8]
    ensures { result.now ≡ spec.behind_labels row.now }
{
    let mut rest = row;
    for _i in 0..row.len() {
        match label_at(rest) {
            Some((_, behind)) => rest = behind,
            None => return rest,
        }
    }
    rest
}

fn is_ascii(bytes: &[u8]) -> bool
    ensures { result ≡ spec.is_ascii bytes.now }
{
    for c in bytes {
        if *c >= 128 {
            return false;
        }
    }
    true
}

/// The statement of a row, where it has one.
#[tactic(auto, unfolding(crate::specs::Statements::statement_of))]
pub fn read_row(row: &[u8]) -> Result<Option<Statement<'_>>, AsmKind>
    ensures value { result ≡ spec.statement_of row.now }
    ensures valid { IfOk result (λ o. IfSome o (λ s. IsTrue (spec.is_valid_statement s))) }
{
    if !is_ascii(row) {
        return Err(AsmKind::NotAscii);
    }
    let rest = behind_labels(row);
    if is_end(rest) {
        return Ok(None);
    }
    match named_statement(skip(rest)) {
        Ok(statement) => Ok(Some(statement)),
        Err(kind) => Err(kind),
    }
}
