//! Parts of the grammar that repeat: lists, sources and UNION.

ghost use Rattle.std.specs.Prelude.{Bool, List, Option};
ghost use Rattle.sql_model.specs.declared.token.Token.{Token};
ghost use Rattle.sql_parse.specs.inner.Gives.{ReadsPart};
ghost use Rattle.sql_model.specs.Reader.{repeat};

use crate::error::ParseStop;
use crate::reader::Reader;
use std::alloc::Global;

/// A value that is read in steps. Each step adds a part to it.
pub(crate) trait Steps: Drop {
    /// The value after a step at the front of tokens, whether another step follows, and the tokens after the
    /// step.
    ghost reads: { Self → List Token → Option ((Self × Bool) × List Token) };

    /// Reads one step, and returns the value after it and whether another step follows.
    fn read_step(self, alloc: Global, reader: &mut Reader) -> Result<(Self, bool), ParseStop>
        ensures { ReadsPart result reader.new (reads self reader.old) };
}

/// Reads steps while another one follows; `Syntax` if there are more than `most`.
#[tactic(auto, using(crate::proofs::Repeat::repeat_rules))]
pub(crate) fn all_steps<S: Steps>(
    alloc: Global,
    reader: &mut Reader,
    most: usize,
    first: S,
) -> Result<S, ParseStop>
    ensures { ReadsPart result reader.new (repeat S.reads most first reader.old) }
{
    let mut made = first;
    for _count in 0..most {
        let (next, going) = made.read_step(alloc, reader)?;
        made = next;
        if !going {
            return Ok(made);
        }
    }
    Err(ParseStop::Syntax)
}
