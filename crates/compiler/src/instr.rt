ghost use Rattle.std.specs.Prelude.{◌≡◌};
ghost use Rattle.compiler.specs.Records.{packed, recorded};

use meaning::Reg;

// An instruction, with the place of its pattern.
#[derive(Clone, Copy)]
pub enum Instr {
    // For each node with operator op and this arity in the class that from holds: its children's
    // classes into the registers from to on. In the pattern it is this node.
    Bind {
        pattern: u32,
        node: u32,
        from: Reg,
        to: Reg,
        op: u32,
        arity: u32,
    },
    // Goes on where the two registers hold one class: the newly met one, and that of the variable's
    // first binding.
    Compare {
        pattern: u32,
        from: Reg,
        to: Reg,
    },
    // Goes on where the register holds the class of this node's instance.
    Lookup {
        pattern: u32,
        node: u32,
        from: Reg,
    },
    // Each class in turn into a register.
    Scan {
        pattern: u32,
        to: Reg,
    },
}

// An instruction as a program has it. Kind 0 is Bind, 1 Compare, 2 Lookup, 3 Scan; what an
// instruction has no use for is 0. The kind is a number, since `From<Record> for [u32; 7]` takes a
// record of any kind: a narrower type would ask more of callers.
#[derive(Clone, Copy, Default)]
pub struct Record {
    pub kind: u32,
    pub pattern: u32,
    pub node: u32,
    pub from: Reg,
    pub to: Reg,
    pub op: u32,
    pub arity: u32,
}

// An instruction's record.
impl From<Instr> for Record {
    ghost from_gives = { λ i r. r ≡ recorded i };

    fn from(i: Instr) -> Self {
        match i {
            Instr::Bind {
                pattern,
                node,
                from,
                to,
                op,
                arity,
            } => Record {
                kind: 0,
                pattern,
                node,
                from,
                to,
                op,
                arity,
            },
            Instr::Compare { pattern, from, to } => Record {
                kind: 1,
                pattern,
                from,
                to,
                ..Record::default()
            },
            Instr::Lookup {
                pattern,
                node,
                from,
            } => Record {
                kind: 2,
                pattern,
                node,
                from,
                ..Record::default()
            },
            Instr::Scan { pattern, to } => Record {
                kind: 3,
                pattern,
                to,
                ..Record::default()
            },
        }
    }
}

// A record's words: kind, pattern, node, register read, register written or compared with,
// operator, arity.
impl From<Record> for [u32; 7] {
    ghost from_gives = { λ r words. words ≡ packed r };

    fn from(r: Record) -> Self {
        [r.kind, r.pattern, r.node, r.from.0, r.to.0, r.op, r.arity]
    }
}
