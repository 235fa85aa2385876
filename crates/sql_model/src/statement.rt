//! Statements.

ghost use Rattle.std.specs.Prelude.{◌≡◌, IfOk};
ghost use Rattle.sql_model.specs.Refusals.{items_of};

use crate::expr::{ColumnNames, Expr, ExprRows, Exprs, copy_text};
use ldv_value::{CopyItem, List, Names, Utf8, Value};
use std::alloc::{AllocError, Global};

/// A statement.
#[derive(Drop)]
pub enum Statement {
    /// SELECT, or a UNION of several.
    Query(Query),
    /// INSERT
    Insert(Insert),
    /// UPDATE
    Update(Update),
    /// DELETE
    Delete(Delete),
}

/// A query: one core or a UNION of several, in the order of the text.
#[derive(Drop)]
pub struct Query {
    pub cores: Cores,
    pub order: Orders,
    /// The value after LIMIT; `None` if there is no LIMIT.
    pub limit: Option<Value>,
}

/// One SELECT.
#[derive(Drop)]
pub struct Core {
    /// Whether UNION ALL comes right before the core; false in the first core.
    pub joined_all: bool,
    pub distinct: bool,
    /// The items; `None` is `*`.
    pub items: Option<Items>,
    pub from: FromItems,
    /// The ON conditions and then WHERE, in the order of the text.
    pub picks: Exprs,
    /// The columns of GROUP BY.
    pub group: ColumnNames,
    /// The condition of HAVING; `None` if there is none.
    pub having: Option<Expr>,
}

/// The items that a core's text names; none for `*`.
pub fn items_of(core: &Core) -> &[Item]
    ensures { result.now ≡ items_of core.now }
{
    match &core.items {
        None => &[],
        Some(items) => items.items(),
    }
}

/// An item of a SELECT, with its AS name if it has one.
#[derive(Drop)]
pub struct Item {
    pub expr: Expr,
    pub name: Option<Utf8>,
}

/// A source: a table, and the name by which the core knows it.
#[derive(Drop)]
pub struct FromItem {
    pub table: Utf8,
    pub name: Utf8,
}

/// A key of ORDER BY, and whether DESC follows it.
#[derive(Drop)]
pub struct Order {
    pub key: OrderKey,
    pub descending: bool,
}

/// What ORDER BY sorts by.
#[derive(Drop)]
pub enum OrderKey {
    /// The name of an answer column.
    Name(Utf8),
    /// The place of an answer column, from 1.
    Place(u64),
}

/// An INSERT.
#[derive(Drop)]
pub struct Insert {
    pub table: Utf8,
    /// The columns that it names; `None` means all, in order.
    pub columns: Option<Names>,
    /// The rows of VALUES.
    pub rows: ExprRows,
}

/// An UPDATE.
#[derive(Drop)]
pub struct Update {
    pub table: Utf8,
    pub sets: Sets,
    /// The condition of WHERE.
    pub pick: Option<Expr>,
}

/// A column that UPDATE sets, and its new value.
#[derive(Drop)]
pub struct Set {
    pub column: Utf8,
    pub expr: Expr,
}

/// A DELETE.
#[derive(Drop)]
pub struct Delete {
    pub table: Utf8,
    /// The condition of WHERE.
    pub pick: Option<Expr>,
}

/// Cores.
pub type Cores = List<Core>;
/// Items.
pub type Items = List<Item>;
/// Sources.
pub type FromItems = List<FromItem>;
/// Keys of ORDER BY.
pub type Orders = List<Order>;
/// Columns that UPDATE sets.
pub type Sets = List<Set>;

fn copy_expr(alloc: Global, expr: &Option<Expr>) -> Result<Option<Expr>, AllocError>
    ensures { IfOk result (λ copy. copy ≡ expr.now) }
{
    match expr {
        None => Ok(None),
        Some(expr) => Ok(Some(expr.copy_item(alloc)?)),
    }
}

fn copy_value(alloc: Global, value: &Option<Value>) -> Result<Option<Value>, AllocError>
    ensures { IfOk result (λ copy. copy ≡ value.now) }
{
    match value {
        None => Ok(None),
        Some(value) => Ok(Some(value.copy_item(alloc)?)),
    }
}

fn copy_items(items: &Option<Items>) -> Result<Option<Items>, AllocError>
    ensures { IfOk result (λ copy. copy ≡ items.now) }
{
    match items {
        None => Ok(None),
        Some(items) => Ok(Some(items.copy()?)),
    }
}

fn copy_names(names: &Option<Names>) -> Result<Option<Names>, AllocError>
    ensures { IfOk result (λ copy. copy ≡ names.now) }
{
    match names {
        None => Ok(None),
        Some(names) => Ok(Some(names.copy()?)),
    }
}

impl CopyItem for Statement {
    fn copy_item(&self, alloc: Global) -> Result<Self, AllocError> {
        match self {
            Statement::Query(query) => Ok(Statement::Query(query.copy_item(alloc)?)),
            Statement::Insert(insert) => Ok(Statement::Insert(insert.copy_item(alloc)?)),
            Statement::Update(update) => Ok(Statement::Update(update.copy_item(alloc)?)),
            Statement::Delete(delete) => Ok(Statement::Delete(delete.copy_item(alloc)?)),
        }
    }
}

impl CopyItem for Query {
    fn copy_item(&self, alloc: Global) -> Result<Self, AllocError> {
        Ok(Query {
            cores: self.cores.copy()?,
            order: self.order.copy()?,
            limit: copy_value(alloc, &self.limit)?,
        })
    }
}

impl CopyItem for Core {
    fn copy_item(&self, alloc: Global) -> Result<Self, AllocError> {
        Ok(Core {
            joined_all: self.joined_all,
            distinct: self.distinct,
            items: copy_items(&self.items)?,
            from: self.from.copy()?,
            picks: self.picks.copy()?,
            group: self.group.copy()?,
            having: copy_expr(alloc, &self.having)?,
        })
    }
}

impl CopyItem for Item {
    fn copy_item(&self, alloc: Global) -> Result<Self, AllocError> {
        Ok(Item {
            expr: self.expr.copy_item(alloc)?,
            name: copy_text(&self.name)?,
        })
    }
}

impl CopyItem for FromItem {
    fn copy_item(&self, _alloc: Global) -> Result<Self, AllocError> {
        Ok(FromItem {
            table: self.table.copy()?,
            name: self.name.copy()?,
        })
    }
}

impl CopyItem for OrderKey {
    fn copy_item(&self, _alloc: Global) -> Result<Self, AllocError> {
        match self {
            OrderKey::Name(name) => Ok(OrderKey::Name(name.copy()?)),
            OrderKey::Place(place) => Ok(OrderKey::Place(*place)),
        }
    }
}

impl CopyItem for Order {
    fn copy_item(&self, alloc: Global) -> Result<Self, AllocError> {
        Ok(Order {
            key: self.key.copy_item(alloc)?,
            descending: self.descending,
        })
    }
}

impl CopyItem for Insert {
    fn copy_item(&self, _alloc: Global) -> Result<Self, AllocError> {
        Ok(Insert {
            table: self.table.copy()?,
            columns: copy_names(&self.columns)?,
            rows: self.rows.copy()?,
        })
    }
}

impl CopyItem for Set {
    fn copy_item(&self, alloc: Global) -> Result<Self, AllocError> {
        Ok(Set {
            column: self.column.copy()?,
            expr: self.expr.copy_item(alloc)?,
        })
    }
}

impl CopyItem for Update {
    fn copy_item(&self, alloc: Global) -> Result<Self, AllocError> {
        Ok(Update {
            table: self.table.copy()?,
            sets: self.sets.copy()?,
            pick: copy_expr(alloc, &self.pick)?,
        })
    }
}

impl CopyItem for Delete {
    fn copy_item(&self, alloc: Global) -> Result<Self, AllocError> {
        Ok(Delete {
            table: self.table.copy()?,
            pick: copy_expr(alloc, &self.pick)?,
        })
    }
}
