//! The names of statements.

ghost use Rattle.std.specs.Prelude.{◌≡◌};
ghost use Rattle.std.specs.Str.{bytes_eq};
ghost use Rattle.n2_source.specs.Mnemonics as spec;

use n2_insn::{BranchOp, CodeLineOp, DataOp, ImmOp, JumpOp, LoadOp, RegOp, ShiftOp};
use n2_word::Width;

/// A statement by its name: the instructions (Nios II Processor Reference Guide, "Instruction Set
/// Reference"), the shorthands and the directives. `io` says that it is the form that goes past the
/// cache, `exec` that it is `.text` and not `.data`.
#[derive(Clone, Copy, Debug, PartialEq, Eq)]
pub enum Mnemonic {
    Jump(JumpOp),
    Imm(ImmOp),
    Br,
    Branch(BranchOp),
    Load { op: LoadOp, io: bool },
    Store { width: Width, io: bool },
    Data(DataOp),
    Code(CodeLineOp),
    Reg(RegOp),
    Shift(ShiftOp),
    Jmp,
    Callr,
    Ret,
    Eret,
    Nextpc,
    Rdctl,
    Wrctl,
    Trap,
    Break,
    Flushp,
    Sync,
    Nop,
    Mov,
    Movi,
    Movui,
    Subi,
    Movia,
    Segment { exec: bool },
    Word,
    Byte,
    Space,
    Align,
    Asciz,
    Equ,
}

/// The instructions and shorthands.
const INSTRUCTIONS: [Mnemonic; 89] = [
    Mnemonic::Jump(JumpOp::Call),
    Mnemonic::Jump(JumpOp::Jmpi),
    Mnemonic::Imm(ImmOp::Addi),
    Mnemonic::Imm(ImmOp::Muli),
    Mnemonic::Imm(ImmOp::Andi),
    Mnemonic::Imm(ImmOp::Ori),
    Mnemonic::Imm(ImmOp::Xori),
    Mnemonic::Imm(ImmOp::Andhi),
    Mnemonic::Imm(ImmOp::Orhi),
    Mnemonic::Imm(ImmOp::Xorhi),
    Mnemonic::Imm(ImmOp::Cmpgei),
    Mnemonic::Imm(ImmOp::Cmplti),
    Mnemonic::Imm(ImmOp::Cmpnei),
    Mnemonic::Imm(ImmOp::Cmpeqi),
    Mnemonic::Imm(ImmOp::Cmpgeui),
    Mnemonic::Imm(ImmOp::Cmpltui),
    Mnemonic::Br,
    Mnemonic::Branch(BranchOp::Bge),
    Mnemonic::Branch(BranchOp::Blt),
    Mnemonic::Branch(BranchOp::Bne),
    Mnemonic::Branch(BranchOp::Beq),
    Mnemonic::Branch(BranchOp::Bgeu),
    Mnemonic::Branch(BranchOp::Bltu),
    Mnemonic::Load {
        op: LoadOp::Ldbu,
        io: false,
    },
    Mnemonic::Load {
        op: LoadOp::Ldb,
        io: false,
    },
    Mnemonic::Load {
        op: LoadOp::Ldhu,
        io: false,
    },
    Mnemonic::Load {
        op: LoadOp::Ldh,
        io: false,
    },
    Mnemonic::Load {
        op: LoadOp::Ldw,
        io: false,
    },
    Mnemonic::Load {
        op: LoadOp::Ldbu,
        io: true,
    },
    Mnemonic::Load {
        op: LoadOp::Ldb,
        io: true,
    },
    Mnemonic::Load {
        op: LoadOp::Ldhu,
        io: true,
    },
    Mnemonic::Load {
        op: LoadOp::Ldh,
        io: true,
    },
    Mnemonic::Load {
        op: LoadOp::Ldw,
        io: true,
    },
    Mnemonic::Store {
        width: Width::Byte,
        io: false,
    },
    Mnemonic::Store {
        width: Width::Half,
        io: false,
    },
    Mnemonic::Store {
        width: Width::Word,
        io: false,
    },
    Mnemonic::Store {
        width: Width::Byte,
        io: true,
    },
    Mnemonic::Store {
        width: Width::Half,
        io: true,
    },
    Mnemonic::Store {
        width: Width::Word,
        io: true,
    },
    Mnemonic::Data(DataOp::Initd),
    Mnemonic::Data(DataOp::Initda),
    Mnemonic::Data(DataOp::Flushd),
    Mnemonic::Data(DataOp::Flushda),
    Mnemonic::Code(CodeLineOp::Flushi),
    Mnemonic::Code(CodeLineOp::Initi),
    Mnemonic::Reg(RegOp::Add),
    Mnemonic::Reg(RegOp::Sub),
    Mnemonic::Reg(RegOp::Mul),
    Mnemonic::Reg(RegOp::Mulxuu),
    Mnemonic::Reg(RegOp::Mulxsu),
    Mnemonic::Reg(RegOp::Mulxss),
    Mnemonic::Reg(RegOp::Divu),
    Mnemonic::Reg(RegOp::Div),
    Mnemonic::Reg(RegOp::And),
    Mnemonic::Reg(RegOp::Or),
    Mnemonic::Reg(RegOp::Xor),
    Mnemonic::Reg(RegOp::Nor),
    Mnemonic::Reg(RegOp::Cmpge),
    Mnemonic::Reg(RegOp::Cmplt),
    Mnemonic::Reg(RegOp::Cmpne),
    Mnemonic::Reg(RegOp::Cmpeq),
    Mnemonic::Reg(RegOp::Cmpgeu),
    Mnemonic::Reg(RegOp::Cmpltu),
    Mnemonic::Reg(RegOp::Sll),
    Mnemonic::Reg(RegOp::Srl),
    Mnemonic::Reg(RegOp::Sra),
    Mnemonic::Reg(RegOp::Rol),
    Mnemonic::Reg(RegOp::Ror),
    Mnemonic::Shift(ShiftOp::Slli),
    Mnemonic::Shift(ShiftOp::Srli),
    Mnemonic::Shift(ShiftOp::Srai),
    Mnemonic::Shift(ShiftOp::Roli),
    Mnemonic::Jmp,
    Mnemonic::Callr,
    Mnemonic::Ret,
    Mnemonic::Eret,
    Mnemonic::Nextpc,
    Mnemonic::Rdctl,
    Mnemonic::Wrctl,
    Mnemonic::Trap,
    Mnemonic::Break,
    Mnemonic::Flushp,
    Mnemonic::Sync,
    Mnemonic::Nop,
    Mnemonic::Mov,
    Mnemonic::Movi,
    Mnemonic::Movui,
    Mnemonic::Subi,
    Mnemonic::Movia,
];

/// The directives.
const DIRECTIVES: [Mnemonic; 8] = [
    Mnemonic::Segment { exec: true },
    Mnemonic::Segment { exec: false },
    Mnemonic::Word,
    Mnemonic::Byte,
    Mnemonic::Space,
    Mnemonic::Align,
    Mnemonic::Asciz,
    Mnemonic::Equ,
];

fn jump_text(op: JumpOp) -> &'static str
    ensures { result.now ≡ spec.jump_text op }
{
    match op {
        JumpOp::Call => "call",
        JumpOp::Jmpi => "jmpi",
    }
}

fn imm_text(op: ImmOp) -> &'static str
    ensures { result.now ≡ spec.imm_text op }
{
    match op {
        ImmOp::Addi => "addi",
        ImmOp::Muli => "muli",
        ImmOp::Andi => "andi",
        ImmOp::Ori => "ori",
        ImmOp::Xori => "xori",
        ImmOp::Andhi => "andhi",
        ImmOp::Orhi => "orhi",
        ImmOp::Xorhi => "xorhi",
        ImmOp::Cmpgei => "cmpgei",
        ImmOp::Cmplti => "cmplti",
        ImmOp::Cmpnei => "cmpnei",
        ImmOp::Cmpeqi => "cmpeqi",
        ImmOp::Cmpgeui => "cmpgeui",
        ImmOp::Cmpltui => "cmpltui",
    }
}

fn branch_text(op: BranchOp) -> &'static str
    ensures { result.now ≡ spec.branch_text op }
{
    match op {
        BranchOp::Bge => "bge",
        BranchOp::Blt => "blt",
        BranchOp::Bne => "bne",
        BranchOp::Beq => "beq",
        BranchOp::Bgeu => "bgeu",
        BranchOp::Bltu => "bltu",
    }
}

fn load_text(op: LoadOp, io: bool) -> &'static str
    ensures { result.now ≡ spec.text_of (Mnemonic.Load op io) }
{
    match (op, io) {
        (LoadOp::Ldbu, false) => "ldbu",
        (LoadOp::Ldbu, true) => "ldbuio",
        (LoadOp::Ldb, false) => "ldb",
        (LoadOp::Ldb, true) => "ldbio",
        (LoadOp::Ldhu, false) => "ldhu",
        (LoadOp::Ldhu, true) => "ldhuio",
        (LoadOp::Ldh, false) => "ldh",
        (LoadOp::Ldh, true) => "ldhio",
        (LoadOp::Ldw, false) => "ldw",
        (LoadOp::Ldw, true) => "ldwio",
    }
}

fn data_text(op: DataOp) -> &'static str
    ensures { result.now ≡ spec.data_text op }
{
    match op {
        DataOp::Initd => "initd",
        DataOp::Initda => "initda",
        DataOp::Flushd => "flushd",
        DataOp::Flushda => "flushda",
    }
}

fn code_text(op: CodeLineOp) -> &'static str
    ensures { result.now ≡ spec.code_text op }
{
    match op {
        CodeLineOp::Flushi => "flushi",
        CodeLineOp::Initi => "initi",
    }
}

fn reg_text(op: RegOp) -> &'static str
    ensures { result.now ≡ spec.reg_text op }
{
    match op {
        RegOp::Add => "add",
        RegOp::Sub => "sub",
        RegOp::Mul => "mul",
        RegOp::Mulxuu => "mulxuu",
        RegOp::Mulxsu => "mulxsu",
        RegOp::Mulxss => "mulxss",
        RegOp::Divu => "divu",
        RegOp::Div => "div",
        RegOp::And => "and",
        RegOp::Or => "or",
        RegOp::Xor => "xor",
        RegOp::Nor => "nor",
        RegOp::Cmpge => "cmpge",
        RegOp::Cmplt => "cmplt",
        RegOp::Cmpne => "cmpne",
        RegOp::Cmpeq => "cmpeq",
        RegOp::Cmpgeu => "cmpgeu",
        RegOp::Cmpltu => "cmpltu",
        RegOp::Sll => "sll",
        RegOp::Srl => "srl",
        RegOp::Sra => "sra",
        RegOp::Rol => "rol",
        RegOp::Ror => "ror",
    }
}

fn shift_text(op: ShiftOp) -> &'static str
    ensures { result.now ≡ spec.shift_text op }
{
    match op {
        ShiftOp::Slli => "slli",
        ShiftOp::Srli => "srli",
        ShiftOp::Srai => "srai",
        ShiftOp::Roli => "roli",
    }
}

fn store_text(width: Width, io: bool) -> &'static str
    ensures { result.now ≡ spec.text_of (Mnemonic.Store width io) }
{
    match (width, io) {
        (Width::Byte, false) => "stb",
        (Width::Byte, true) => "stbio",
        (Width::Half, false) => "sth",
        (Width::Half, true) => "sthio",
        (Width::Word, false) => "stw",
        (Width::Word, true) => "stwio",
    }
}

/// The first of some statements that has a name.
fn first_named(mnemonics: &[Mnemonic], word: &[u8]) -> Option<Mnemonic>
    ensures { result ≡ spec.first_named mnemonics.now word.now }
{
    for mnemonic in mnemonics {
        if has_name(*mnemonic, word) {
            return Some(*mnemonic);
        }
    }
    None
}

fn has_name(mnemonic: Mnemonic, word: &[u8]) -> bool
    ensures { result ≡ bytes_eq (spec.text_of mnemonic) word.now }
{
    mnemonic.text().as_bytes() == word
}

impl Mnemonic {
    /// The name, without the dot in front of a directive's.
    pub fn text(self) -> &'static str
        ensures { result.now ≡ spec.text_of self }
    {
        match self {
            Mnemonic::Jump(op) => jump_text(op),
            Mnemonic::Imm(op) => imm_text(op),
            Mnemonic::Branch(op) => branch_text(op),
            Mnemonic::Data(op) => data_text(op),
            Mnemonic::Code(op) => code_text(op),
            Mnemonic::Reg(op) => reg_text(op),
            Mnemonic::Shift(op) => shift_text(op),
            Mnemonic::Load { op, io } => load_text(op, io),
            Mnemonic::Store { width, io } => store_text(width, io),
            Mnemonic::Br => "br",
            Mnemonic::Jmp => "jmp",
            Mnemonic::Callr => "callr",
            Mnemonic::Ret => "ret",
            Mnemonic::Eret => "eret",
            Mnemonic::Nextpc => "nextpc",
            Mnemonic::Rdctl => "rdctl",
            Mnemonic::Wrctl => "wrctl",
            Mnemonic::Trap => "trap",
            Mnemonic::Break => "break",
            Mnemonic::Flushp => "flushp",
            Mnemonic::Sync => "sync",
            Mnemonic::Nop => "nop",
            Mnemonic::Mov => "mov",
            Mnemonic::Movi => "movi",
            Mnemonic::Movui => "movui",
            Mnemonic::Subi => "subi",
            Mnemonic::Movia => "movia",
            Mnemonic::Segment { exec } => { if exec { "text" } else { "data" } }
            Mnemonic::Word => "word",
            Mnemonic::Byte => "byte",
            Mnemonic::Space => "space",
            Mnemonic::Align => "align",
            Mnemonic::Asciz => "asciz",
            Mnemonic::Equ => "equ",
        }
    }

    /// The instruction or shorthand of a name.
    #[tactic(auto, unfolding(crate::specs::Mnemonics::instruction_named))]
    pub fn instruction(word: &[u8]) -> Option<Mnemonic>
        ensures { result ≡ spec.instruction_named word.now }
    {
        first_named(&INSTRUCTIONS, word)
    }

    /// The directive of a name that stands behind a dot.
    #[tactic(auto, unfolding(crate::specs::Mnemonics::directive_named))]
    pub fn directive(word: &[u8]) -> Option<Mnemonic>
        ensures { result ≡ spec.directive_named word.now }
    {
        first_named(&DIRECTIVES, word)
    }
}
