//! Replacing each `?` by the value of its parameter.

ghost use Rattle.sql_parse.specs.inner.Gives.{GivesParsed};
ghost use Rattle.sql_model.specs.Texts.{placed_token};

use crate::error::ParseStop;
use crate::reader::is_word;
use crate::token::{Lent, Lexeme};
use ldv_value::Values;

/// A token, or the value of its parameter if it is a `?`, and the place of the next parameter. `Syntax` comes
/// if there is no such parameter.
pub(crate) fn placed_token<'a>(
    params: &'a Values,
    place: usize,
    token: Lexeme<'a>,
) -> Result<(Lexeme<'a>, usize), ParseStop>
    ensures { GivesParsed result (placed_token params.now place token.entry) }
{
    if !is_word(&token, "?") {
        return Ok((token, place));
    }
    match params.get(place) {
        None => Err(ParseStop::Syntax),
        Some(value) => Ok((Lexeme::of(Lent::Given(value)), place + 1)),
    }
}
