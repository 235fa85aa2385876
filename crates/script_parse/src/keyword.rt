//! The words and signs that instructions are written with.

ghost use Rattle.std.specs.Prelude.{◌≡◌, find};
ghost use Rattle.script_parse.specs.Names.{is_text};
ghost use Rattle.script_parse.specs.Keywords.{keyword_text, sign_text, comparison_text, mode_text};
ghost use Rattle.script_parse.specs.Keywords.{keyword_of, sign_of, comparison_of, mode_of};

use ldv_value::{Cmp, OpenMode};

/// The first word of an instruction.
#[derive(Clone, Copy)]
pub(crate) enum Keyword {
    Let,
    Cut,
    Goto,
    If,
    Print,
    Exit,
    Open,
    ReadLine,
    Write,
    Copy,
    Close,
    Remove,
    Exists,
    Spawn,
    Wait,
    Sql,
    Fetch,
    Count,
    Status,
}

/// The sign between two operands of `let`.
#[derive(Clone, Copy)]
pub(crate) enum Sign {
    Plus,
    Minus,
    Times,
    Join,
}

const KEYWORDS: [Keyword; 19] = [
    Keyword::Let,
    Keyword::Cut,
    Keyword::Goto,
    Keyword::If,
    Keyword::Print,
    Keyword::Exit,
    Keyword::Open,
    Keyword::ReadLine,
    Keyword::Write,
    Keyword::Copy,
    Keyword::Close,
    Keyword::Remove,
    Keyword::Exists,
    Keyword::Spawn,
    Keyword::Wait,
    Keyword::Sql,
    Keyword::Fetch,
    Keyword::Count,
    Keyword::Status,
];

const SIGNS: [Sign; 4] = [Sign::Plus, Sign::Minus, Sign::Times, Sign::Join];

const COMPARISONS: [Cmp; 6] = [Cmp::Eq, Cmp::Ne, Cmp::Lt, Cmp::Le, Cmp::Gt, Cmp::Ge];

const MODES: [OpenMode; 4] = [
    OpenMode::Read,
    OpenMode::Write,
    OpenMode::Append,
    OpenMode::New,
];

/// The keyword that a word is.
pub(crate) fn find_keyword(word: &str) -> Option<Keyword>
    ensures { result ≡ keyword_of word.now }
{
    KEYWORDS.iter().copied().find(|k| word == keyword_text(*k))
}

/// The sign that a word is.
pub(crate) fn find_sign(word: &str) -> Option<Sign>
    ensures { result ≡ sign_of word.now }
{
    SIGNS.iter().copied().find(|s| word == sign_text(*s))
}

/// The comparison that a word is.
pub(crate) fn find_comparison(word: &str) -> Option<Cmp>
    ensures { result ≡ comparison_of word.now }
{
    COMPARISONS
        .iter()
        .copied()
        .find(|c| word == comparison_text(*c))
}

/// The mode of opening that a word is.
pub(crate) fn find_mode(word: &str) -> Option<OpenMode>
    ensures { result ≡ mode_of word.now }
{
    MODES.iter().copied().find(|m| word == mode_text(*m))
}

fn keyword_text(keyword: Keyword) -> &'static str
    ensures { result.now ≡ keyword_text keyword }
{
    match keyword {
        Keyword::Let => "let",
        Keyword::Cut => "cut",
        Keyword::Goto => "goto",
        Keyword::If => "if",
        Keyword::Print => "print",
        Keyword::Exit => "exit",
        Keyword::Open => "open",
        Keyword::ReadLine => "readline",
        Keyword::Write => "write",
        Keyword::Copy => "copy",
        Keyword::Close => "close",
        Keyword::Remove => "remove",
        Keyword::Exists => "exists",
        Keyword::Spawn => "spawn",
        Keyword::Wait => "wait",
        Keyword::Sql => "sql",
        Keyword::Fetch => "fetch",
        Keyword::Count => "count",
        Keyword::Status => "status",
    }
}

fn sign_text(sign: Sign) -> &'static str
    ensures { result.now ≡ sign_text sign }
{
    match sign {
        Sign::Plus => "+",
        Sign::Minus => "-",
        Sign::Times => "*",
        Sign::Join => "++",
    }
}

fn comparison_text(comparison: Cmp) -> &'static str
    ensures { result.now ≡ comparison_text comparison }
{
    match comparison {
        Cmp::Eq => "=",
        Cmp::Ne => "<>",
        Cmp::Lt => "<",
        Cmp::Le => "<=",
        Cmp::Gt => ">",
        Cmp::Ge => ">=",
    }
}

fn mode_text(mode: OpenMode) -> &'static str
    ensures { result.now ≡ mode_text mode }
{
    match mode {
        OpenMode::Read => "r",
        OpenMode::Write => "w",
        OpenMode::Append => "a",
        OpenMode::New => "n",
    }
}
