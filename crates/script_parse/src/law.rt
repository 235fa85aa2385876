//! The law of scripts.

ghost use Rattle.std.specs.Prelude.{◌≡◌, ◌↔◌, List, ℕ, None, Some};
ghost use Rattle.script_parse.specs.declared.script.Instr.{Instr};
ghost use Rattle.script_parse.specs.BadLine.{IsFirstBadLine};
ghost use Rattle.script_parse.specs.Grammar.{IsScript};
ghost use Rattle.script_parse.specs.Script.{script_of, first_bad_line};

/// `script_of` reads bytes as instructions if and only if the grammar relates the two, so a text has at most
/// one reading. The function has no body: its contract is the theorem.
pub fn reading_law()
    ensures same { (bytes : List ℕ) (instructions : List Instr)
        → (script_of bytes ≡ Some instructions) ↔ IsScript bytes instructions }
    ensures one { (bytes : List ℕ) (a b : List Instr) → IsScript bytes a → IsScript bytes b → a ≡ b }
{}

/// If bytes are no script, `first_bad_line` is the number, from 1, of the least bad line. A line is bad if it
/// isn't UTF-8, has no form, defines a label that an earlier line defines, or uses a label that no line
/// defines. If a line is bad, the bytes are no script. The function has no body: its contract is the theorem.
pub fn first_bad_law()
    ensures { (bytes : List ℕ) (n : ℕ)
        → ((script_of bytes ≡ None) × (n ≡ first_bad_line bytes)) ↔ IsFirstBadLine bytes n }
{}
