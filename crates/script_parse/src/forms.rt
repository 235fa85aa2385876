//! The forms of instructions: from the tokens after the first word to what the line says.

ghost use Rattle.std.specs.Prelude.{◌≡◌, ◌<◌, IfSome, length, position, codes};
ghost use Rattle.script_parse.specs.inner.Gives.{GivesLine, GivesLineBy};
ghost use Rattle.script_parse.specs.Forms.{is_word, sign_in, comparison_in, mode_in, instr_of_sign};
ghost use Rattle.script_parse.specs.Forms.{let_value};
ghost use Rattle.script_parse.specs.Forms.{let_of, cut_of, goto_of, if_of, print_of, exit_of, write_of};
ghost use Rattle.script_parse.specs.Forms.{copy_of, close_of, exists_of, wait_of, sql_of, count_of};
ghost use Rattle.script_parse.specs.Forms.{status_of, last_label, else_of, open_of, readline_of, remove_of};
ghost use Rattle.script_parse.specs.Forms.{spawn_of, fetch_of, with_else, instruction_of};

use crate::keyword::{Keyword, Sign, find_comparison, find_mode, find_sign};
use crate::line::Line;
use crate::line_stop::LineStop;
use crate::operand::{name, names_from_one, operand, operands, operands_from_one, token_is};
use crate::script::{CalcOp, Instr, Operand};
use crate::token::Token;
use ldv_value::{Cmp, OpenMode, Utf8};
use std::alloc::Global;

/// What a line says, by its keyword and the tokens after the keyword.
pub(crate) fn instruction(
    alloc: Global,
    keyword: Keyword,
    tokens: &[Token],
) -> Result<Line, LineStop>
    ensures { GivesLine result (instruction_of keyword tokens.now) }
{
    match keyword {
        Keyword::Let => let_form(tokens),
        Keyword::Cut => cut_form(tokens),
        Keyword::Goto => goto_form(tokens),
        Keyword::If => if_form(tokens),
        Keyword::Print => print_form(alloc, tokens),
        Keyword::Exit => exit_form(tokens),
        Keyword::Open => open_form(tokens),
        Keyword::ReadLine => readline_form(tokens),
        Keyword::Write => write_form(alloc, tokens),
        Keyword::Copy => copy_form(tokens),
        Keyword::Close => close_form(tokens),
        Keyword::Remove => remove_form(tokens),
        Keyword::Exists => exists_form(tokens),
        Keyword::Spawn => spawn_form(alloc, tokens),
        Keyword::Wait => wait_form(tokens),
        Keyword::Sql => sql_form(alloc, tokens),
        Keyword::Fetch => fetch_form(alloc, tokens),
        Keyword::Count => count_form(tokens),
        Keyword::Status => status_form(tokens),
    }
}

// `x = ..`
fn let_form(tokens: &[Token]) -> Result<Line, LineStop>
    ensures { GivesLine result (let_of tokens.now) }
{
    let [x, equals, rest @ ..] = tokens else {
        return Err(LineStop::Malformed);
    };
    let to = name(x)?;
    let made = let_value(to, rest)?;
    if !token_is(equals, "=") {
        return Err(LineStop::Malformed);
    }
    Ok(Line::Plain(made))
}

// `v`, `int v` or `v + w`
fn let_value(to: Utf8, tokens: &[Token]) -> Result<Instr, LineStop>
    ensures { GivesLine result (let_value to tokens.now) }
{
    match tokens {
        [v] => {
            let value = operand(v)?;
            Ok(Instr::Let { to, value })
        }
        [int, v] => {
            let value = operand(v)?;
            if !token_is(int, "int") {
                return Err(LineStop::Malformed);
            }
            Ok(Instr::ToInt { to, value })
        }
        [v, s, w] => {
            let left = operand(v)?;
            let sign = sign(s)?;
            let right = operand(w)?;
            Ok(instr_of_sign(to, left, right, sign))
        }
        _ => Err(LineStop::Malformed),
    }
}

fn sign(token: &Token) -> Result<Sign, LineStop>
    ensures { GivesLine result (sign_in token.now) }
{
    match token {
        Token::Word(word) => find_sign(word.as_str()).ok_or(LineStop::Malformed),
        Token::Number(_) => Err(LineStop::Malformed),
        Token::Quoted(_) => Err(LineStop::Malformed),
    }
}

fn comparison(token: &Token) -> Result<Cmp, LineStop>
    ensures { GivesLine result (comparison_in token.now) }
{
    match token {
        Token::Word(word) => find_comparison(word.as_str()).ok_or(LineStop::Malformed),
        Token::Number(_) => Err(LineStop::Malformed),
        Token::Quoted(_) => Err(LineStop::Malformed),
    }
}

fn mode(token: &Token) -> Result<OpenMode, LineStop>
    ensures { GivesLine result (mode_in token.now) }
{
    match token {
        Token::Word(word) => find_mode(word.as_str()).ok_or(LineStop::Malformed),
        Token::Number(_) => Err(LineStop::Malformed),
        Token::Quoted(_) => Err(LineStop::Malformed),
    }
}

fn instr_of_sign(to: Utf8, left: Operand, right: Operand, sign: Sign) -> Instr
    ensures { result ≡ instr_of_sign to left right sign }
{
    match sign {
        Sign::Plus => Instr::Calc {
            to,
            op: CalcOp::Add,
            left,
            right,
        },
        Sign::Minus => Instr::Calc {
            to,
            op: CalcOp::Subtract,
            left,
            right,
        },
        Sign::Times => Instr::Calc {
            to,
            op: CalcOp::Multiply,
            left,
            right,
        },
        Sign::Join => Instr::Glue { to, left, right },
    }
}

// `x y v`
fn cut_form(tokens: &[Token]) -> Result<Line, LineStop>
    ensures { GivesLine result (cut_of tokens.now) }
{
    let [x, y, v] = tokens else {
        return Err(LineStop::Malformed);
    };
    let before = name(x)?;
    let after = name(y)?;
    let by = operand(v)?;
    if before == after {
        return Err(LineStop::Malformed);
    }
    Ok(Line::Plain(Instr::Cut { before, after, by }))
}

// `L`
fn goto_form(tokens: &[Token]) -> Result<Line, LineStop>
    ensures { GivesLine result (goto_of tokens.now) }
{
    let [l] = tokens else {
        return Err(LineStop::Malformed);
    };
    let label = name(l)?;
    Ok(Line::Jumping(Instr::Jump { place: 0 }, label))
}

// `v = w goto L`
fn if_form(tokens: &[Token]) -> Result<Line, LineStop>
    ensures { GivesLine result (if_of tokens.now) }
{
    let [v, c, w, goto, l] = tokens else {
        return Err(LineStop::Malformed);
    };
    let left = operand(v)?;
    let op = comparison(c)?;
    let right = operand(w)?;
    let label = name(l)?;
    if !token_is(goto, "goto") {
        return Err(LineStop::Malformed);
    }
    Ok(Line::Jumping(
        Instr::JumpIf {
            op,
            left,
            right,
            place: 0,
        },
        label,
    ))
}

// `v v*`
fn print_form(alloc: Global, tokens: &[Token]) -> Result<Line, LineStop>
    ensures { GivesLine result (print_of tokens.now) }
{
    let values = operands_from_one(alloc, tokens)?;
    Ok(Line::Plain(Instr::Print { values }))
}

// `v`
fn exit_form(tokens: &[Token]) -> Result<Line, LineStop>
    ensures { GivesLine result (exit_of tokens.now) }
{
    let [v] = tokens else {
        return Err(LineStop::Malformed);
    };
    let status = operand(v)?;
    Ok(Line::Plain(Instr::Exit { status }))
}

// `f v v*`
fn write_form(alloc: Global, tokens: &[Token]) -> Result<Line, LineStop>
    ensures { GivesLine result (write_of tokens.now) }
{
    let [f, rest @ ..] = tokens else {
        return Err(LineStop::Malformed);
    };
    let file = name(f)?;
    let values = operands_from_one(alloc, rest)?;
    Ok(Line::Plain(Instr::WriteLine { file, values }))
}

// `f g`
fn copy_form(tokens: &[Token]) -> Result<Line, LineStop>
    ensures { GivesLine result (copy_of tokens.now) }
{
    let [f, g] = tokens else {
        return Err(LineStop::Malformed);
    };
    let source = name(f)?;
    let target = name(g)?;
    Ok(Line::Plain(Instr::CopyRest { source, target }))
}

// `f`
fn close_form(tokens: &[Token]) -> Result<Line, LineStop>
    ensures { GivesLine result (close_of tokens.now) }
{
    let [f] = tokens else {
        return Err(LineStop::Malformed);
    };
    let file = name(f)?;
    Ok(Line::Plain(Instr::Close { file }))
}

// `x v`
fn exists_form(tokens: &[Token]) -> Result<Line, LineStop>
    ensures { GivesLine result (exists_of tokens.now) }
{
    let [x, v] = tokens else {
        return Err(LineStop::Malformed);
    };
    let to = name(x)?;
    let path = operand(v)?;
    Ok(Line::Plain(Instr::Exists { to, path }))
}

// `x p`
fn wait_form(tokens: &[Token]) -> Result<Line, LineStop>
    ensures { GivesLine result (wait_of tokens.now) }
{
    let [x, p] = tokens else {
        return Err(LineStop::Malformed);
    };
    let to = name(x)?;
    let child = name(p)?;
    Ok(Line::Plain(Instr::Wait { to, child }))
}

// `c v v*`
fn sql_form(alloc: Global, tokens: &[Token]) -> Result<Line, LineStop>
    ensures { GivesLine result (sql_of tokens.now) }
{
    let [c, v, rest @ ..] = tokens else {
        return Err(LineStop::Malformed);
    };
    let cursor = name(c)?;
    let text = operand(v)?;
    let params = operands(alloc, rest)?;
    Ok(Line::Plain(Instr::Sql {
        cursor,
        text,
        params,
    }))
}

// `x c`
fn count_form(tokens: &[Token]) -> Result<Line, LineStop>
    ensures { GivesLine result (count_of tokens.now) }
{
    let [x, c] = tokens else {
        return Err(LineStop::Malformed);
    };
    let to = name(x)?;
    let cursor = name(c)?;
    Ok(Line::Plain(Instr::Count { to, cursor }))
}

// `x c`
fn status_form(tokens: &[Token]) -> Result<Line, LineStop>
    ensures { GivesLine result (status_of tokens.now) }
{
    let [x, c] = tokens else {
        return Err(LineStop::Malformed);
    };
    let to = name(x)?;
    let cursor = name(c)?;
    Ok(Line::Plain(Instr::Status { to, cursor }))
}

// The tokens before `else L` at the end, and the label.
fn split_else(tokens: &[Token]) -> Result<(&[Token], Utf8), LineStop>
    ensures { GivesLineBy (λ r. (r.0.now, r.1)) result (else_of tokens.now) }
{
    let Some(place) = else_place(tokens) else {
        return Err(LineStop::Malformed);
    };
    let label = last_label(&tokens[place + 1..])?;
    Ok((&tokens[..place], label))
}

fn else_place(tokens: &[Token]) -> Option<usize>
    ensures value { result ≡ position (is_word (codes "else")) tokens.now }
    ensures within { IfSome result (λ k. k < length tokens.now) }
{
    tokens.iter().position(|token| token_is(token, "else"))
}

fn last_label(tokens: &[Token]) -> Result<Utf8, LineStop>
    ensures { GivesLine result (last_label tokens.now) }
{
    let [l] = tokens else {
        return Err(LineStop::Malformed);
    };
    name(l)
}

// `f M v else L`
fn open_form(tokens: &[Token]) -> Result<Line, LineStop>
    ensures { GivesLine result (with_else open_of tokens.now) }
{
    let (front, label) = split_else(tokens)?;
    open_front(front, label)
}

fn open_front(tokens: &[Token], label: Utf8) -> Result<Line, LineStop>
    ensures { GivesLine result (open_of tokens.now label) }
{
    let [f, m, v] = tokens else {
        return Err(LineStop::Malformed);
    };
    let file = name(f)?;
    let mode = mode(m)?;
    let path = operand(v)?;
    Ok(Line::Jumping(
        Instr::OpenPath {
            file,
            mode,
            path,
            place: 0,
        },
        label,
    ))
}

// `x f else L`
fn readline_form(tokens: &[Token]) -> Result<Line, LineStop>
    ensures { GivesLine result (with_else readline_of tokens.now) }
{
    let (front, label) = split_else(tokens)?;
    readline_front(front, label)
}

fn readline_front(tokens: &[Token], label: Utf8) -> Result<Line, LineStop>
    ensures { GivesLine result (readline_of tokens.now label) }
{
    let [x, f] = tokens else {
        return Err(LineStop::Malformed);
    };
    let to = name(x)?;
    let file = name(f)?;
    Ok(Line::Jumping(Instr::ReadLine { to, file, place: 0 }, label))
}

// `v else L`
fn remove_form(tokens: &[Token]) -> Result<Line, LineStop>
    ensures { GivesLine result (with_else remove_of tokens.now) }
{
    let (front, label) = split_else(tokens)?;
    remove_front(front, label)
}

fn remove_front(tokens: &[Token], label: Utf8) -> Result<Line, LineStop>
    ensures { GivesLine result (remove_of tokens.now label) }
{
    let [v] = tokens else {
        return Err(LineStop::Malformed);
    };
    let path = operand(v)?;
    Ok(Line::Jumping(Instr::Remove { path, place: 0 }, label))
}

// `p v v* else L`
fn spawn_form(alloc: Global, tokens: &[Token]) -> Result<Line, LineStop>
    ensures { GivesLine result (with_else spawn_of tokens.now) }
{
    let (front, label) = split_else(tokens)?;
    spawn_front(alloc, front, label)
}

fn spawn_front(alloc: Global, tokens: &[Token], label: Utf8) -> Result<Line, LineStop>
    ensures { GivesLine result (spawn_of tokens.now label) }
{
    let [p, v, rest @ ..] = tokens else {
        return Err(LineStop::Malformed);
    };
    let child = name(p)?;
    let path = operand(v)?;
    let arguments = operands(alloc, rest)?;
    Ok(Line::Jumping(
        Instr::Spawn {
            child,
            path,
            arguments,
            place: 0,
        },
        label,
    ))
}

// `c x x* else L`
fn fetch_form(alloc: Global, tokens: &[Token]) -> Result<Line, LineStop>
    ensures { GivesLine result (with_else fetch_of tokens.now) }
{
    let (front, label) = split_else(tokens)?;
    fetch_front(alloc, front, label)
}

fn fetch_front(alloc: Global, tokens: &[Token], label: Utf8) -> Result<Line, LineStop>
    ensures { GivesLine result (fetch_of tokens.now label) }
{
    let [c, rest @ ..] = tokens else {
        return Err(LineStop::Malformed);
    };
    let cursor = name(c)?;
    let to = names_from_one(alloc, rest)?;
    Ok(Line::Jumping(
        Instr::Fetch {
            cursor,
            to,
            place: 0,
        },
        label,
    ))
}
