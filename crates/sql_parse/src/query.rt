//! Queries.

ghost use Rattle.std.specs.Prelude.{◌≡◌, codes};
ghost use Rattle.sql_parse.specs.inner.Gives.{GivesParsed, ReadsPart};
ghost use Rattle.sql_model.specs.Queries.{another_core, reads_cores, place_of, key_of, reads_key, tokens_after_direction};
ghost use Rattle.sql_model.specs.Queries.{reads_order, reads_orders, bound_of, reads_bound, reads_limit};
ghost use Rattle.sql_model.specs.Queries.{reads_query};
ghost use Rattle.sql_model.specs.Reader.{starts};

use crate::error::ParseStop;
use crate::part_list::{Part, parse_list};
use crate::reader::{Reader, name_in};
use crate::select::core;
use crate::steps::{Steps, all_steps};
use crate::token::{Lent, Lexeme};
use ldv_value::{CopyItem, Value};
use sql_model::{Cores, Order, OrderKey, Orders, Query};
use std::alloc::Global;

/// Reads a query.
pub(crate) fn query(alloc: Global, reader: &mut Reader) -> Result<Query, ParseStop>
    ensures { ReadsPart result reader.new (reads_query reader.old) }
{
    let cores = cores(alloc, reader)?;
    let order = orders(alloc, reader)?;
    let limit = limit(alloc, reader)?;
    Ok(Query {
        cores,
        order,
        limit,
    })
}

// The cores, with UNION or UNION ALL between.
fn cores(alloc: Global, reader: &mut Reader) -> Result<Cores, ParseStop>
    ensures { ReadsPart result reader.new (reads_cores reader.old) }
{
    let most = reader.len();
    let first = core(alloc, reader, false)?;
    let mut cores = Cores::new(alloc);
    cores.push(first)?;
    all_steps(alloc, reader, most, cores)
}

// One more core, where UNION follows.
fn another_core(alloc: Global, reader: &mut Reader, made: Cores) -> Result<(Cores, bool), ParseStop>
    ensures { ReadsPart result reader.new (another_core made reader.old) }
{
    if !reader.starts("union") {
        return Ok((made, false));
    }
    reader.skip();
    let joined_all = reader.pass("all");
    let core = core(alloc, reader, joined_all)?;
    let mut made = made;
    made.push(core)?;
    Ok((made, true))
}

impl Steps for Cores {
    ghost reads = { another_core };

    fn read_step(self, alloc: Global, reader: &mut Reader) -> Result<(Self, bool), ParseStop> {
        another_core(alloc, reader, self)
    }
}

fn orders(alloc: Global, reader: &mut Reader) -> Result<Orders, ParseStop>
    ensures { ReadsPart result reader.new (reads_orders reader.old) }
{
    if !reader.starts("order") {
        return Ok(Orders::new(alloc));
    }
    reader.skip();
    reader.expect("by")?;
    parse_list::<Order>(alloc, reader)
}

impl Part for Order {
    ghost reads = { reads_order };

    fn read(alloc: Global, reader: &mut Reader) -> Result<Self, ParseStop> {
        let key = key(alloc, reader)?;
        let descending = take_direction(reader);
        Ok(Order { key, descending })
    }
}

// Goes past ASC or DESC, and says whether it is DESC.
fn take_direction(reader: &mut Reader) -> bool
    ensures test { result ≡ starts (codes "desc") reader.old }
    ensures rest { reader.new ≡ tokens_after_direction reader.old }
{
    let descending = reader.starts("desc");
    if reader.starts("asc") {
        reader.skip();
        return descending;
    }
    reader.pass("desc");
    descending
}

fn key(alloc: Global, reader: &mut Reader) -> Result<OrderKey, ParseStop>
    ensures { ReadsPart result reader.new (reads_key reader.old) }
{
    let token = reader.take_token()?;
    let key = key_of(alloc, token)?;
    Ok(key)
}

fn key_of(alloc: Global, token: Lexeme) -> Result<OrderKey, ParseStop>
    ensures { GivesParsed result (key_of token.entry) }
{
    match token.into_lent() {
        Lent::Word(word) => {
            let name = name_in(alloc, word)?;
            Ok(OrderKey::Name(name))
        }
        Lent::Number(number) => {
            let place = place_of(number)?;
            Ok(OrderKey::Place(place))
        }
        Lent::Quoted(_) => Err(ParseStop::Syntax),
        Lent::Given(_) => Err(ParseStop::Syntax),
    }
}

fn place_of(number: i64) -> Result<u64, ParseStop>
    ensures { GivesParsed result (place_of number) }
{
    if number < 0 {
        Err(ParseStop::Syntax)
    } else {
        Ok(number as u64)
    }
}

fn limit(alloc: Global, reader: &mut Reader) -> Result<Option<Value>, ParseStop>
    ensures { ReadsPart result reader.new (reads_limit reader.old) }
{
    if !reader.starts("limit") {
        return Ok(None);
    }
    reader.skip();
    parse_bound(alloc, reader)
}

fn parse_bound(alloc: Global, reader: &mut Reader) -> Result<Option<Value>, ParseStop>
    ensures { ReadsPart result reader.new (reads_bound reader.old) }
{
    let token = reader.take_token()?;
    let value = bound_of(alloc, token)?;
    Ok(Some(value))
}

fn bound_of(alloc: Global, token: Lexeme) -> Result<Value, ParseStop>
    ensures { GivesParsed result (bound_of token.entry) }
{
    match token.into_lent() {
        Lent::Word(_) => Err(ParseStop::Syntax),
        Lent::Number(number) => Ok(Value::Int(number)),
        Lent::Quoted(_) => Err(ParseStop::Syntax),
        Lent::Given(value) => Ok(value.copy_item(alloc)?),
    }
}
