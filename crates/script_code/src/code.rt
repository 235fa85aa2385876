//! Resolved scripts: instructions that name slots.

ghost use Rattle.script_code.specs.Resolved.{IsScope};

use crate::name_table::NameTable;
use ldv_value::{Bytes, Cmp, List, OpenMode, Value};
use script_parse::CalcOp;
use std::alloc::Global;

/// What an instruction takes: a constant, or the value in the slot of a variable.
#[derive(Drop)]
pub enum SlotOperand {
    /// A constant.
    Constant(Value),
    /// The slot of a variable, from 0.
    Slot(usize),
}

/// Operands, in the order of the line.
pub type SlotOperands = List<SlotOperand>;

/// Slots of variables, in the order of the line.
pub type Slots = List<usize>;

/// An instruction that changes its own process only, and reads nothing else.
#[derive(Drop)]
pub enum OwnInstr {
    /// `let x = v`
    Let {
        to: usize,
        value: SlotOperand,
    },
    /// `let x = v + w`, also `-` and `*`
    Calc {
        to: usize,
        op: CalcOp,
        left: SlotOperand,
        right: SlotOperand,
    },
    /// `let x = v ++ w`
    Glue {
        to: usize,
        left: SlotOperand,
        right: SlotOperand,
    },
    /// `let x = int v`
    ToInt {
        to: usize,
        value: SlotOperand,
    },
    /// `cut x y v`: x is `before`, y is `after`
    Cut {
        before: usize,
        after: usize,
        by: SlotOperand,
    },
    /// `goto L`
    Jump {
        place: usize,
    },
    /// `if v = w goto L`, and the other comparisons
    JumpIf {
        op: Cmp,
        left: SlotOperand,
        right: SlotOperand,
        place: usize,
    },
    /// `print v v*`
    Print {
        values: SlotOperands,
    },
    /// `exit v`
    Exit {
        status: SlotOperand,
    },
    /// `close f`
    Close {
        file: usize,
    },
    /// `fetch c x x* else L`
    Fetch {
        cursor: usize,
        to: Slots,
        place: usize,
    },
    /// `count x c`
    Count {
        to: usize,
        cursor: usize,
    },
    /// `status x c`
    Status {
        to: usize,
        cursor: usize,
    },
}

/// An instruction that reads or changes files, and changes its own process.
#[derive(Drop)]
pub enum FileInstr {
    /// `open f M v else L`
    OpenPath {
        file: usize,
        mode: OpenMode,
        path: SlotOperand,
        place: usize,
    },
    /// `readline x f else L`
    ReadLine {
        to: usize,
        file: usize,
        place: usize,
    },
    /// `write f v v*`
    WriteLine {
        file: usize,
        values: SlotOperands,
    },
    /// `copy f g`: f is `source`, g is `target`
    CopyRest {
        source: usize,
        target: usize,
    },
    /// `remove v else L`
    Remove {
        path: SlotOperand,
        place: usize,
    },
    /// `exists x v`
    Exists {
        to: usize,
        path: SlotOperand,
    },
}

/// An instruction of `script_parse`, with a slot for each name. A slot is the index of a name among the names
/// of its kind, from 0. A field `place` is the place of a label: the number of instructions before it.
#[derive(Drop)]
pub enum SlotInstr {
    /// One that changes its own process only.
    Own(OwnInstr),
    /// One that reads or changes files.
    OnFiles(FileInstr),
    /// `spawn p v v* else L`
    Spawn {
        child: usize,
        path: SlotOperand,
        arguments: SlotOperands,
        place: usize,
    },
    /// `wait x p`
    Wait {
        to: usize,
        child: usize,
    },
    /// `sql c v v*`
    Sql {
        cursor: usize,
        text: SlotOperand,
        params: SlotOperands,
    },
}

/// Instructions, in the order of the lines.
pub type SlotInstrs = List<SlotInstr>;

/// The names of a script, each kind in a name space of its own.
#[derive(Drop)]
pub struct Scope {
    pub variables: NameTable,
    pub files: NameTable,
    pub cursors: NameTable,
    pub children: NameTable,
}

impl Scope {
    /// A scope without names.
    #[tactic(auto, using(crate::proofs::KnownNames::distinct_none))]
    pub(crate) fn new(alloc: Global) -> Scope
        ensures { IsScope result }
    {
        Scope {
            variables: NameTable::new(alloc),
            files: NameTable::new(alloc),
            cursors: NameTable::new(alloc),
            children: NameTable::new(alloc),
        }
    }
}

/// A resolved script, with the bytes of its source. All processes that run it share it.
#[derive(Drop)]
pub struct Code {
    /// The bytes that were read.
    pub source: Bytes,
    /// Its names; the slot of each is its index.
    pub scope: Scope,
    /// Its instructions, in the order of the lines, without the implicit `exit 0` after the last one.
    pub instructions: SlotInstrs,
}
