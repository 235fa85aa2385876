//! The orders of what a package lists.

use crate::package::{Log, PackedFile, PackedRow, PackedTable};
use ldv_value::Precedes;

impl Precedes for PackedFile {
    ghost use Rattle.run_model.specs.ValidPackage.{packed_file_precedes};

    ghost is_before = { packed_file_precedes };

    fn precedes(&self, other: &PackedFile) -> bool {
        self.path.precedes(&other.path)
    }
}

impl Precedes for PackedTable {
    ghost use Rattle.run_model.specs.ValidPackage.{packed_table_precedes};

    ghost is_before = { packed_table_precedes };

    fn precedes(&self, other: &PackedTable) -> bool {
        self.name.precedes(&other.name)
    }
}

impl Precedes for PackedRow {
    ghost use Rattle.std.specs.Prelude.{nat_lt};

    ghost is_before = { λ a b. nat_lt a.number b.number };

    fn precedes(&self, other: &PackedRow) -> bool {
        self.number < other.number
    }
}

impl Precedes for Log {
    ghost use Rattle.run_model.specs.ValidPackage.{log_precedes};

    ghost is_before = { log_precedes };

    fn precedes(&self, other: &Log) -> bool {
        self.process.parts.cmp(&other.process.parts).is_lt()
    }
}
