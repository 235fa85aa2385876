//! From a script to its resolved form: names get their slots as they come.

ghost use Rattle.std.specs.Prelude.{◌≡◌, Some, IfOk, OnOk};
ghost use Rattle.script_parse.specs.Script.{script_of};
ghost use Rattle.script_parse.specs.declared.script.Instr.TheVariants as named;
ghost use Rattle.script_code.specs.Resolved.{IsCode, KeepsAll, Resolves, ResolvesAll};

use crate::code::{Code, FileInstr, OwnInstr, Scope, SlotInstr, SlotInstrs};
use crate::operands::{first_and_others, operand, operands, slots, two_operands, two_slots};
use ldv_value::{Bytes, Cmp, Names, OpenMode, Utf8};
use script_parse::{CalcOp, Instr, Instrs, Operand, Operands};
use std::alloc::{AllocError, Global};

/// The resolved form of a script that was read from these bytes.
#[tactic(auto, using(crate::proofs::KnownNames::kept_distinct))]
pub(crate) fn resolve(alloc: Global, source: Bytes, script: &Instrs) -> Result<Code, AllocError>
    requires { script_of source ≡ Some script.now }
    ensures { IfOk result (λ code. IsCode code script.now) }
{
    let mut scope = Scope::new(alloc);
    let instructions = instructions(alloc, &mut scope, script)?;
    Ok(Code {
        source,
        scope,
        instructions,
    })
}

// The instructions of a script with slots in place of names. The scope gets the names.
fn instructions(alloc: Global, scope: &mut Scope, script: &Instrs) -> Result<SlotInstrs, AllocError>
    ensures slotted { IfOk result (ResolvesAll scope.new script.now) }
    ensures keeps { OnOk result (KeepsAll scope.old scope.new) }
{
    let mut instructions = SlotInstrs::with_capacity(alloc, script.len())?;
    let mut rest = script.items();
    while let [instr, others @ ..] = rest {
        instructions.push(instruction(alloc, scope, instr)?)?;
        rest = others;
    }
    Ok(instructions)
}

// An instruction with slots in place of its names.
#[tactic(auto, using(crate::proofs::KnownNames::keeps_same))]
fn instruction(alloc: Global, scope: &mut Scope, instr: &Instr) -> Result<SlotInstr, AllocError>
    ensures slotted { IfOk result (Resolves scope.new instr.now) }
    ensures keeps { OnOk result (KeepsAll scope.old scope.new) }
{
    match instr {
        Instr::Let { to, value } => let_instr(alloc, scope, to, value),
        Instr::Calc {
            to,
            op,
            left,
            right,
        } => calc_instr(alloc, scope, to, *op, left, right),
        Instr::Glue { to, left, right } => glue_instr(alloc, scope, to, left, right),
        Instr::ToInt { to, value } => to_int_instr(alloc, scope, to, value),
        Instr::Cut { before, after, by } => cut_instr(alloc, scope, before, after, by),
        Instr::Jump { place } => Ok(SlotInstr::Own(OwnInstr::Jump { place: *place })),
        Instr::JumpIf {
            op,
            left,
            right,
            place,
        } => jump_if_instr(alloc, scope, *op, left, right, *place),
        Instr::Print { values } => print_instr(alloc, scope, values),
        Instr::Exit { status } => exit_instr(alloc, scope, status),
        Instr::OpenPath {
            file,
            mode,
            path,
            place,
        } => open_instr(alloc, scope, file, *mode, path, *place),
        Instr::ReadLine { to, file, place } => read_line_instr(scope, to, file, *place),
        Instr::WriteLine { file, values } => write_line_instr(alloc, scope, file, values),
        Instr::CopyRest { source, target } => copy_instr(scope, source, target),
        Instr::Close { file } => close_instr(scope, file),
        Instr::Remove { path, place } => remove_instr(alloc, scope, path, *place),
        Instr::Exists { to, path } => exists_instr(alloc, scope, to, path),
        Instr::Spawn {
            child,
            path,
            arguments,
            place,
        } => spawn_instr(alloc, scope, child, path, arguments, *place),
        Instr::Wait { to, child } => wait_instr(scope, to, child),
        Instr::Sql {
            cursor,
            text,
            params,
        } => sql_instr(alloc, scope, cursor, text, params),
        Instr::Fetch { cursor, to, place } => fetch_instr(alloc, scope, cursor, to, *place),
        Instr::Count { to, cursor } => count_instr(scope, to, cursor),
        Instr::Status { to, cursor } => status_instr(scope, to, cursor),
    }
}

// `let x = v`
#[tactic(auto, using(crate::proofs::KnownNames::known_steps))]
fn let_instr(
    alloc: Global,
    scope: &mut Scope,
    to: &Utf8,
    value: &Operand,
) -> Result<SlotInstr, AllocError>
    ensures slotted { IfOk result (Resolves scope.new (named.Let to.now value.now)) }
    ensures keeps { OnOk result (KeepsAll scope.old scope.new) }
{
    let to = scope.variables.intern(to)?;
    let value = operand(alloc, &mut scope.variables, value)?;
    Ok(SlotInstr::Own(OwnInstr::Let { to, value }))
}

// `let x = v + w`
#[tactic(auto, using(crate::proofs::KnownNames::known_steps))]
fn calc_instr(
    alloc: Global,
    scope: &mut Scope,
    to: &Utf8,
    op: CalcOp,
    left: &Operand,
    right: &Operand,
) -> Result<SlotInstr, AllocError>
    ensures slotted { IfOk result (Resolves scope.new (named.Calc to.now op left.now right.now)) }
    ensures keeps { OnOk result (KeepsAll scope.old scope.new) }
{
    let to = scope.variables.intern(to)?;
    let (left, right) = two_operands(alloc, &mut scope.variables, left, right)?;
    Ok(SlotInstr::Own(OwnInstr::Calc {
        to,
        op,
        left,
        right,
    }))
}

// `let x = v ++ w`
#[tactic(auto, using(crate::proofs::KnownNames::known_steps))]
fn glue_instr(
    alloc: Global,
    scope: &mut Scope,
    to: &Utf8,
    left: &Operand,
    right: &Operand,
) -> Result<SlotInstr, AllocError>
    ensures slotted { IfOk result (Resolves scope.new (named.Glue to.now left.now right.now)) }
    ensures keeps { OnOk result (KeepsAll scope.old scope.new) }
{
    let to = scope.variables.intern(to)?;
    let (left, right) = two_operands(alloc, &mut scope.variables, left, right)?;
    Ok(SlotInstr::Own(OwnInstr::Glue { to, left, right }))
}

// `let x = int v`
#[tactic(auto, using(crate::proofs::KnownNames::known_steps))]
fn to_int_instr(
    alloc: Global,
    scope: &mut Scope,
    to: &Utf8,
    value: &Operand,
) -> Result<SlotInstr, AllocError>
    ensures slotted { IfOk result (Resolves scope.new (named.ToInt to.now value.now)) }
    ensures keeps { OnOk result (KeepsAll scope.old scope.new) }
{
    let to = scope.variables.intern(to)?;
    let value = operand(alloc, &mut scope.variables, value)?;
    Ok(SlotInstr::Own(OwnInstr::ToInt { to, value }))
}

// `cut x y v`
#[tactic(auto, using(crate::proofs::KnownNames::known_steps))]
fn cut_instr(
    alloc: Global,
    scope: &mut Scope,
    before: &Utf8,
    after: &Utf8,
    by: &Operand,
) -> Result<SlotInstr, AllocError>
    ensures slotted { IfOk result (Resolves scope.new (named.Cut before.now after.now by.now)) }
    ensures keeps { OnOk result (KeepsAll scope.old scope.new) }
{
    let (before, after) = two_slots(&mut scope.variables, before, after)?;
    let by = operand(alloc, &mut scope.variables, by)?;
    Ok(SlotInstr::Own(OwnInstr::Cut { before, after, by }))
}

// `if v = w goto L`
#[tactic(auto, using(crate::proofs::KnownNames::known_steps))]
fn jump_if_instr(
    alloc: Global,
    scope: &mut Scope,
    op: Cmp,
    left: &Operand,
    right: &Operand,
    place: usize,
) -> Result<SlotInstr, AllocError>
    ensures slotted { IfOk result (Resolves scope.new (named.JumpIf op left.now right.now place)) }
    ensures keeps { OnOk result (KeepsAll scope.old scope.new) }
{
    let (left, right) = two_operands(alloc, &mut scope.variables, left, right)?;
    Ok(SlotInstr::Own(OwnInstr::JumpIf {
        op,
        left,
        right,
        place,
    }))
}

// `print v v*`
#[tactic(auto, using(crate::proofs::KnownNames::known_steps))]
fn print_instr(alloc: Global, scope: &mut Scope, values: &Operands) -> Result<SlotInstr, AllocError>
    ensures slotted { IfOk result (Resolves scope.new (named.Print values.now)) }
    ensures keeps { OnOk result (KeepsAll scope.old scope.new) }
{
    let values = operands(alloc, &mut scope.variables, values)?;
    Ok(SlotInstr::Own(OwnInstr::Print { values }))
}

// `exit v`
#[tactic(auto, using(crate::proofs::KnownNames::known_steps))]
fn exit_instr(alloc: Global, scope: &mut Scope, status: &Operand) -> Result<SlotInstr, AllocError>
    ensures slotted { IfOk result (Resolves scope.new (named.Exit status.now)) }
    ensures keeps { OnOk result (KeepsAll scope.old scope.new) }
{
    let status = operand(alloc, &mut scope.variables, status)?;
    Ok(SlotInstr::Own(OwnInstr::Exit { status }))
}

// `open f M v else L`
#[tactic(auto, using(crate::proofs::KnownNames::known_steps))]
fn open_instr(
    alloc: Global,
    scope: &mut Scope,
    file: &Utf8,
    mode: OpenMode,
    path: &Operand,
    place: usize,
) -> Result<SlotInstr, AllocError>
    ensures slotted { IfOk result (Resolves scope.new (named.OpenPath file.now mode path.now place)) }
    ensures keeps { OnOk result (KeepsAll scope.old scope.new) }
{
    let file = scope.files.intern(file)?;
    let path = operand(alloc, &mut scope.variables, path)?;
    Ok(SlotInstr::OnFiles(FileInstr::OpenPath {
        file,
        mode,
        path,
        place,
    }))
}

// `readline x f else L`
#[tactic(auto, using(crate::proofs::KnownNames::known_steps))]
fn read_line_instr(
    scope: &mut Scope,
    to: &Utf8,
    file: &Utf8,
    place: usize,
) -> Result<SlotInstr, AllocError>
    ensures slotted { IfOk result (Resolves scope.new (named.ReadLine to.now file.now place)) }
    ensures keeps { OnOk result (KeepsAll scope.old scope.new) }
{
    let to = scope.variables.intern(to)?;
    let file = scope.files.intern(file)?;
    Ok(SlotInstr::OnFiles(FileInstr::ReadLine { to, file, place }))
}

// `write f v v*`
#[tactic(auto, using(crate::proofs::KnownNames::known_steps))]
fn write_line_instr(
    alloc: Global,
    scope: &mut Scope,
    file: &Utf8,
    values: &Operands,
) -> Result<SlotInstr, AllocError>
    ensures slotted { IfOk result (Resolves scope.new (named.WriteLine file.now values.now)) }
    ensures keeps { OnOk result (KeepsAll scope.old scope.new) }
{
    let file = scope.files.intern(file)?;
    let values = operands(alloc, &mut scope.variables, values)?;
    Ok(SlotInstr::OnFiles(FileInstr::WriteLine { file, values }))
}

// `copy f g`
#[tactic(auto, using(crate::proofs::KnownNames::known_steps))]
fn copy_instr(scope: &mut Scope, source: &Utf8, target: &Utf8) -> Result<SlotInstr, AllocError>
    ensures slotted { IfOk result (Resolves scope.new (named.CopyRest source.now target.now)) }
    ensures keeps { OnOk result (KeepsAll scope.old scope.new) }
{
    let (source, target) = two_slots(&mut scope.files, source, target)?;
    Ok(SlotInstr::OnFiles(FileInstr::CopyRest { source, target }))
}

// `close f`
#[tactic(auto, using(crate::proofs::KnownNames::known_steps))]
fn close_instr(scope: &mut Scope, file: &Utf8) -> Result<SlotInstr, AllocError>
    ensures slotted { IfOk result (Resolves scope.new (named.Close file.now)) }
    ensures keeps { OnOk result (KeepsAll scope.old scope.new) }
{
    let file = scope.files.intern(file)?;
    Ok(SlotInstr::Own(OwnInstr::Close { file }))
}

// `remove v else L`
#[tactic(auto, using(crate::proofs::KnownNames::known_steps))]
fn remove_instr(
    alloc: Global,
    scope: &mut Scope,
    path: &Operand,
    place: usize,
) -> Result<SlotInstr, AllocError>
    ensures slotted { IfOk result (Resolves scope.new (named.Remove path.now place)) }
    ensures keeps { OnOk result (KeepsAll scope.old scope.new) }
{
    let path = operand(alloc, &mut scope.variables, path)?;
    Ok(SlotInstr::OnFiles(FileInstr::Remove { path, place }))
}

// `exists x v`
#[tactic(auto, using(crate::proofs::KnownNames::known_steps))]
fn exists_instr(
    alloc: Global,
    scope: &mut Scope,
    to: &Utf8,
    path: &Operand,
) -> Result<SlotInstr, AllocError>
    ensures slotted { IfOk result (Resolves scope.new (named.Exists to.now path.now)) }
    ensures keeps { OnOk result (KeepsAll scope.old scope.new) }
{
    let to = scope.variables.intern(to)?;
    let path = operand(alloc, &mut scope.variables, path)?;
    Ok(SlotInstr::OnFiles(FileInstr::Exists { to, path }))
}

// `spawn p v v* else L`
#[tactic(auto, using(crate::proofs::KnownNames::known_steps))]
fn spawn_instr(
    alloc: Global,
    scope: &mut Scope,
    child: &Utf8,
    path: &Operand,
    arguments: &Operands,
    place: usize,
) -> Result<SlotInstr, AllocError>
    ensures slotted { IfOk result (Resolves scope.new (named.Spawn child.now path.now arguments.now place)) }
    ensures keeps { OnOk result (KeepsAll scope.old scope.new) }
{
    let child = scope.children.intern(child)?;
    let (path, arguments) = first_and_others(alloc, &mut scope.variables, path, arguments)?;
    Ok(SlotInstr::Spawn {
        child,
        path,
        arguments,
        place,
    })
}

// `wait x p`
#[tactic(auto, using(crate::proofs::KnownNames::known_steps))]
fn wait_instr(scope: &mut Scope, to: &Utf8, child: &Utf8) -> Result<SlotInstr, AllocError>
    ensures slotted { IfOk result (Resolves scope.new (named.Wait to.now child.now)) }
    ensures keeps { OnOk result (KeepsAll scope.old scope.new) }
{
    let to = scope.variables.intern(to)?;
    let child = scope.children.intern(child)?;
    Ok(SlotInstr::Wait { to, child })
}

// `sql c v v*`
#[tactic(auto, using(crate::proofs::KnownNames::known_steps))]
fn sql_instr(
    alloc: Global,
    scope: &mut Scope,
    cursor: &Utf8,
    text: &Operand,
    params: &Operands,
) -> Result<SlotInstr, AllocError>
    ensures slotted { IfOk result (Resolves scope.new (named.Sql cursor.now text.now params.now)) }
    ensures keeps { OnOk result (KeepsAll scope.old scope.new) }
{
    let cursor = scope.cursors.intern(cursor)?;
    let (text, params) = first_and_others(alloc, &mut scope.variables, text, params)?;
    Ok(SlotInstr::Sql {
        cursor,
        text,
        params,
    })
}

// `fetch c x x* else L`
#[tactic(auto, using(crate::proofs::KnownNames::known_steps))]
fn fetch_instr(
    alloc: Global,
    scope: &mut Scope,
    cursor: &Utf8,
    to: &Names,
    place: usize,
) -> Result<SlotInstr, AllocError>
    ensures slotted { IfOk result (Resolves scope.new (named.Fetch cursor.now to.now place)) }
    ensures keeps { OnOk result (KeepsAll scope.old scope.new) }
{
    let cursor = scope.cursors.intern(cursor)?;
    let to = slots(alloc, &mut scope.variables, to)?;
    Ok(SlotInstr::Own(OwnInstr::Fetch { cursor, to, place }))
}

// `count x c`
#[tactic(auto, using(crate::proofs::KnownNames::known_steps))]
fn count_instr(scope: &mut Scope, to: &Utf8, cursor: &Utf8) -> Result<SlotInstr, AllocError>
    ensures slotted { IfOk result (Resolves scope.new (named.Count to.now cursor.now)) }
    ensures keeps { OnOk result (KeepsAll scope.old scope.new) }
{
    let to = scope.variables.intern(to)?;
    let cursor = scope.cursors.intern(cursor)?;
    Ok(SlotInstr::Own(OwnInstr::Count { to, cursor }))
}

// `status x c`
#[tactic(auto, using(crate::proofs::KnownNames::known_steps))]
fn status_instr(scope: &mut Scope, to: &Utf8, cursor: &Utf8) -> Result<SlotInstr, AllocError>
    ensures slotted { IfOk result (Resolves scope.new (named.Status to.now cursor.now)) }
    ensures keeps { OnOk result (KeepsAll scope.old scope.new) }
{
    let to = scope.variables.intern(to)?;
    let cursor = scope.cursors.intern(cursor)?;
    Ok(SlotInstr::Own(OwnInstr::Status { to, cursor }))
}
