//! The SQL of this product: the types of statements, tables, replies and needs, the statement that a text
//! spells, its meaning, and the value of an expression over a row.
//!
//! The statement of a text is defined twice: by a grammar (`GrammarOfTokens`, `Grammar` of expressions,
//! `GrammarOfStatements`), and by a function from left to right (`Texts`, over `Tokens`, `Expressions`,
//! `Queries` and others). The meaning is defined in `Tables` (valid schemas, tables, databases), `Scope`
//! (which column a name means), `Kinds`, `Refusals`, `Places`, `Meaning` (expressions), `QueryAnswer` and
//! `Sorting`, `Changes`, `Statements` (refusal, reply, the tables after), `ForeignKeys` and `References`,
//! `Needs`, and `Origins` (lineages as sets).
//!
//! Entry: `truth_of` in `src/value.rt`. Read first: `specs/Statements.antt`.
#![tactic(auto)]

mod arithmetic;
mod catalog;
mod column_test;
mod database;
mod expr;
mod foreign;
mod key;
mod kind;
mod need;
mod reading;
mod references;
mod repeats;
mod reply;
mod rows;
mod schema;
mod sql_names;
mod statement;
mod table;
mod token;
mod truths;
mod unique;
mod value;

pub use catalog::{Catalog, Checked};
pub use column_test::{CellTest, ColumnTest};
pub use database::is_database;
pub use expr::{ColumnName, ColumnNames, Expr, ExprRows, Exprs, Fold, Operator};
pub use foreign::{MAX_FOREIGN, NamedSchema, have_parents};
pub use key::{RowKey, value_at};
pub use kind::Kind;
pub use need::{Member, Members, Need, Needs, Rule};
pub use reading::{Infix, LexState, Opening, ParsedExpr, Prefix, Sources};
pub use references::{references_hold, refers_to_none};
pub use repeats::has_twice;
pub use reply::{Replies, Reply, SqlRefusal};
pub use rows::{allows, are_rows, are_short, has_kind};
pub use schema::{is_key_not_null, meets_column_count, meets_column_names, meets_schema};
pub use sql_names::is_sql_name;
pub use statement::{
    Core, Cores, Delete, FromItem, FromItems, Insert, Item, Items, Order, OrderKey, Orders, Query,
    Set, Sets, Statement, Update, items_of,
};
pub use table::{
    Column, Columns, Foreign, Foreigns, Schema, Schemas, Table, TableRow, TableRows, Tables,
};
pub use token::Token;
pub use truths::is_null;
pub use unique::{HasValues, KeyOf, has_key_twice, value_or};
pub use value::{truth_of, value_of};
