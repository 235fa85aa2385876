//! From the bytes of a line to what it says.

ghost use Rattle.std.specs.Prelude.{◌≡◌};
ghost use Rattle.std.specs.Option.{option_map};
ghost use Rattle.std.specs.Str.{is_utf8};
ghost use Rattle.script_parse.specs.inner.Gives.{GivesLine};
ghost use Rattle.script_parse.specs.Lines.{before_colon, label_in, line_of_word, form_of, first_nonblank};
ghost use Rattle.script_parse.specs.Lines.{is_comment};
ghost use Rattle.script_parse.specs.Lines.{line_of};

use crate::forms::instruction;
use crate::keyword::find_keyword;
use crate::line::Line;
use crate::line_stop::LineStop;
use crate::operand::is_name;
use crate::scan::{is_blank, tokens};
use crate::token::Token;
use ldv_value::Utf8;
use std::alloc::Global;

/// Reads what a line says. `Malformed`: the line is bad whatever the other lines say.
pub(crate) fn read_line(alloc: Global, line: &[u8]) -> Result<Line, LineStop>
    ensures { GivesLine result (line_of line.now) }
{
    if !is_text(line) {
        return Err(LineStop::Malformed);
    }
    if is_comment(line) {
        return Ok(Line::Blank);
    }
    let tokens = tokens(alloc, line)?;
    form(alloc, tokens.items())
}

#[tactic(auto, using(ldv_value::proofs::Utf8Parts::text_rules))]
fn is_text(line: &[u8]) -> bool
    ensures { result ≡ is_utf8 line.now }
{
    str::from_utf8(line).is_ok()
}

fn is_comment(line: &[u8]) -> bool
    ensures { result ≡ is_comment line.now }
{
    match first_nonblank(line) {
        None => false,
        Some(b) => b == b'#',
    }
}

fn first_nonblank(line: &[u8]) -> Option<u8>
    ensures { result ≡ first_nonblank line.now }
{
    line.iter().copied().find(|b| !is_blank(*b))
}

// What the tokens of a line say.
fn form(alloc: Global, tokens: &[Token]) -> Result<Line, LineStop>
    ensures { GivesLine result (form_of tokens.now) }
{
    match tokens {
        [] => Ok(Line::Blank),
        [first, rest @ ..] => match first {
            Token::Word(word) => line_of_word(alloc, word.as_str(), rest),
            Token::Number(_) => Err(LineStop::Malformed),
            Token::Quoted(_) => Err(LineStop::Malformed),
        },
    }
}

// What a line says whose first token is a word: alone it is a label, else a keyword.
fn line_of_word(alloc: Global, word: &str, rest: &[Token]) -> Result<Line, LineStop>
    ensures { GivesLine result (line_of_word word.now rest.now) }
{
    match rest {
        [] => label(alloc, word),
        [_, ..] => {
            let Some(keyword) = find_keyword(word) else {
                return Err(LineStop::Malformed);
            };
            instruction(alloc, keyword, rest)
        }
    }
}

fn label(alloc: Global, word: &str) -> Result<Line, LineStop>
    ensures { GivesLine result (label_in word.now) }
{
    let Some(name) = before_colon(word) else {
        return Err(LineStop::Malformed);
    };
    if !is_name(name) {
        return Err(LineStop::Malformed);
    }
    Ok(Line::Label(Utf8::of(alloc, name)?))
}

fn before_colon(word: &str) -> Option<&str>
    ensures { option_map (λ x. x.now) result ≡ before_colon word.now }
{
    word.strip_suffix(':')
}
