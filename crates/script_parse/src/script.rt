//! Instructions and their operands.

use ldv_value::{Cmp, CopyItem, List, Names, OpenMode, Utf8, Value};
use std::alloc::{AllocError, Global};

/// What an instruction takes: a constant, or a variable's value at that step.
#[derive(Drop)]
pub enum Operand {
    /// A constant.
    Constant(Value),
    /// The name of a variable.
    Variable(Utf8),
}

/// Operands, in the order of the line.
pub type Operands = List<Operand>;

/// An operation of `let` on two numbers.
#[derive(Clone, Copy, Debug, PartialEq, Eq)]
pub enum CalcOp {
    /// `+`
    Add,
    /// `-`
    Subtract,
    /// `*`
    Multiply,
}

/// An instruction. A field `place` is the place of a label: the number of instructions before it. The
/// number of all instructions is a place too, that of the implicit `exit 0`. A list has 1 to 256 items;
/// in `Spawn` and `Sql` the first operand has its own field, and the list has the others, at most 255.
#[derive(Drop)]
pub enum Instr {
    /// `let x = v`
    Let {
        to: Utf8,
        value: Operand,
    },
    /// `let x = v + w`, also `-` and `*`
    Calc {
        to: Utf8,
        op: CalcOp,
        left: Operand,
        right: Operand,
    },
    /// `let x = v ++ w`
    Glue {
        to: Utf8,
        left: Operand,
        right: Operand,
    },
    /// `let x = int v`
    ToInt {
        to: Utf8,
        value: Operand,
    },
    /// `cut x y v`: x is `before`, y is `after`
    Cut {
        before: Utf8,
        after: Utf8,
        by: Operand,
    },
    /// `goto L`
    Jump {
        place: usize,
    },
    /// `if v = w goto L`, and the other comparisons
    JumpIf {
        op: Cmp,
        left: Operand,
        right: Operand,
        place: usize,
    },
    /// `print v v*`
    Print {
        values: Operands,
    },
    /// `exit v`
    Exit {
        status: Operand,
    },
    /// `open f M v else L`
    OpenPath {
        file: Utf8,
        mode: OpenMode,
        path: Operand,
        place: usize,
    },
    /// `readline x f else L`
    ReadLine {
        to: Utf8,
        file: Utf8,
        place: usize,
    },
    /// `write f v v*`
    WriteLine {
        file: Utf8,
        values: Operands,
    },
    /// `copy f g`: f is `source`, g is `target`
    CopyRest {
        source: Utf8,
        target: Utf8,
    },
    /// `close f`
    Close {
        file: Utf8,
    },
    /// `remove v else L`
    Remove {
        path: Operand,
        place: usize,
    },
    /// `exists x v`
    Exists {
        to: Utf8,
        path: Operand,
    },
    /// `spawn p v v* else L`
    Spawn {
        child: Utf8,
        path: Operand,
        arguments: Operands,
        place: usize,
    },
    /// `wait x p`
    Wait {
        to: Utf8,
        child: Utf8,
    },
    /// `sql c v v*`
    Sql {
        cursor: Utf8,
        text: Operand,
        params: Operands,
    },
    /// `fetch c x x* else L`
    Fetch {
        cursor: Utf8,
        to: Names,
        place: usize,
    },
    /// `count x c`
    Count {
        to: Utf8,
        cursor: Utf8,
    },
    /// `status x c`
    Status {
        to: Utf8,
        cursor: Utf8,
    },
}

/// Instructions, in the order of the lines.
pub type Instrs = List<Instr>;

/// A script, without the implicit `exit 0` after its last instruction.
#[derive(Drop)]
pub struct Script {
    pub instructions: Instrs,
}

impl CopyItem for Operand {
    fn copy_item(&self, alloc: Global) -> Result<Self, AllocError> {
        match self {
            Operand::Constant(value) => Ok(Operand::Constant(value.copy_item(alloc)?)),
            Operand::Variable(name) => Ok(Operand::Variable(name.copy()?)),
        }
    }
}
