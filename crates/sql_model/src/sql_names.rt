//! The rule for names of tables and columns.

ghost use Rattle.std.specs.Prelude.{◌≡◌, bytes_eq};
ghost use Rattle.std.specs.List.{list_any};
ghost use Rattle.sql_model.specs.SqlNames.{is_reserved, sql_name_test};

use ldv_value::is_word;

// The words of the language, by their number of bytes.
const OF_TWO: [&str; 5] = ["as", "by", "is", "on", "or"];

const OF_THREE: [&str; 8] = ["all", "and", "asc", "max", "min", "not", "set", "sum"];

const OF_FOUR: [&str; 5] = ["desc", "from", "into", "join", "null"];

const OF_FIVE: [&str; 7] = [
    "count", "group", "inner", "limit", "order", "union", "where",
];

const OF_SIX: [&str; 6] = ["delete", "having", "insert", "select", "update", "values"];

const OF_EIGHT: [&str; 1] = ["distinct"];

/// Whether a text may name a table or a column: a lower-case word of 1 to 63 bytes, and no reserved word of
/// SQL.
pub fn is_sql_name(text: &str) -> bool
    ensures { result ≡ sql_name_test text.now }
{
    is_word(text) && !is_reserved_word(text)
}

#[tactic(auto, using(crate::proofs::ReservedWords::reserved_rules))]
fn is_reserved_word(text: &str) -> bool
    ensures { result ≡ is_reserved text.now }
{
    match text.len() {
        2 => is_among(text, &OF_TWO),
        3 => is_among(text, &OF_THREE),
        4 => is_among(text, &OF_FOUR),
        5 => is_among(text, &OF_FIVE),
        6 => is_among(text, &OF_SIX),
        8 => is_among(text, &OF_EIGHT),
        _ => false,
    }
}

fn is_among(text: &str, words: &[&str]) -> bool
    ensures { result ≡ list_any (λ word. bytes_eq text.now word.now) words.now }
{
    words.iter().any(|word| text == *word)
}
