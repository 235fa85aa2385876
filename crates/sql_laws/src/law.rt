//! The laws of the definitions.

ghost use Rattle.sql_laws.specs.DatabaseLaw.{DatabaseLaw, TablesLaw};
ghost use Rattle.sql_laws.specs.KindLaw.{KindLaw, RowLaw};
ghost use Rattle.sql_laws.specs.LineageLaw.{CutSetsLaw, MergeLaw, MergeSetsLaw, NeedsLaw, SortLaw};
ghost use Rattle.sql_laws.specs.LineageLaw.{SortSetsLaw, UnitesLaw};
ghost use Rattle.sql_laws.specs.LineageLaw.{CutSetsLaw, MergeLaw, MergeSetsLaw, NeedsLaw, SortLaw};
ghost use Rattle.sql_laws.specs.LineageLaw.{SortSetsLaw, UnitesLaw};
ghost use Rattle.sql_laws.specs.QueryLaw.{QueryLaw};
ghost use Rattle.sql_laws.specs.StatementLaw.{AskedNeedsLaw, AskedParentsLaw, CutLaw, CutParentsLaw};
ghost use Rattle.sql_laws.specs.StatementLaw.{CutTablesLaw, StatementLaw};

/// For every query, with any sources, conditions, groups, DISTINCT, UNION, UNION ALL, ORDER BY and LIMIT:
/// leaving out rows that the query doesn't need keeps its refusal, reply and needs. The function has no body:
/// its contract is the theorem, as for all laws here.
pub fn query_law()
    ensures { QueryLaw }
{}

/// For every statement, and for texts that are none: leaving out rows that it doesn't need and tables that it
/// doesn't ask keeps its refusal, reply, needs and asked tables. The tables after it are then those after it
/// over the whole database, without the same rows and tables.
///
/// The tables that stay are a database if each of their foreign keys has its parent among them, whichever
/// rows are left out. A statement asks the parents of each table that it asks, and each table with a row that
/// it needs.
pub fn statement_law()
    ensures same { StatementLaw }
    ensures cut { CutLaw }
    ensures tables { CutTablesLaw }
    ensures parents { CutParentsLaw }
    ensures asked { AskedParentsLaw }
    ensures needs { AskedNeedsLaw }
{}

/// If the values of columns have the columns' kinds, the value of each expression has the expression's
/// checked kind. A row of values that have their columns' kinds is such an environment.
pub fn kind_law()
    ensures kinds { KindLaw }
    ensures row { RowLaw }
{}

/// The tables after a statement, accepted or refused, are a database with the same names and schemas, if they
/// were one before and no table has two columns of one name. Valid tables of a world stay so too.
pub fn database_law()
    ensures database { DatabaseLaw }
    ensures tables { TablesLaw }
{}

/// Lineages are sets. Merging and sorting lose no row. Neither the order of rows in lineages nor how often a
/// row occurs changes the merged, sorted, first and needed rows.
pub fn lineage_law()
    ensures merge { MergeLaw }
    ensures unites { UnitesLaw }
    ensures merge_sets { MergeSetsLaw }
    ensures sort { SortLaw }
    ensures sort_sets { SortSetsLaw }
    ensures cut_sets { CutSetsLaw }
    ensures needs { NeedsLaw }
{}
