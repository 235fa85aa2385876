//! Tables that two packages share: they are as in version 2, but their rows have no reasons.

use crate::codec::{Decode, Encode, decode_items, encode_items, encode_list};
use crate::cursor::Cursor;
use crate::decode_stop::DecodeStop;
use crate::number::decode_u32;
use crate::parts::decode_by::{DecodeBy, decode_rows};
use crate::parts::table::{decode_schema, encode_schema};
use crate::parts::text::{decode_text, encode_text};
use crate::version::Version;
use crate::width::Width;
use ldv_value::Bytes;
use sql_model::{Table, TableRow};
use std::alloc::{AllocError, Global};

impl Encode for TableRow {
    ghost use Rattle.package_codec.specs.CommonTables.{TypedCommonRow, common_row_spelling};

    ghost spelling = { common_row_spelling };

    ghost typed = { TypedCommonRow };

    fn encode(&self, to: &mut Bytes) -> Result<(), AllocError> {
        self.number.encode(to)?;
        encode_items(&self.values, to)
    }
}

impl DecodeBy<usize> for TableRow {
    ghost use Rattle.package_codec.specs.CommonTables.{common_row_at};

    ghost reading = { common_row_at };

    fn decode_by(
        alloc: Global,
        columns: usize,
        cursor: &mut Cursor,
    ) -> Result<TableRow, DecodeStop> {
        let number = decode_u32(cursor)?;
        let values = decode_items(alloc, columns, cursor)?;
        Ok(TableRow { number, values })
    }
}

impl Encode for Table {
    ghost use Rattle.package_codec.specs.CommonTables.{TypedCommonTable, common_table_spelling};

    ghost spelling = { common_table_spelling };

    ghost typed = { TypedCommonTable };

    fn encode(&self, to: &mut Bytes) -> Result<(), AllocError> {
        encode_text(&self.name, to)?;
        encode_schema(Version::Two, &self.schema, to)?;
        self.next.encode(to)?;
        encode_list(Width::Four, &self.rows, to)
    }
}

impl Decode for Table {
    ghost use Rattle.package_codec.specs.CommonTables.{common_table_at};

    ghost reading = { common_table_at };

    fn decode(alloc: Global, cursor: &mut Cursor) -> Result<Table, DecodeStop> {
        let name = decode_text(alloc, cursor)?;
        let schema = decode_schema(alloc, Version::Two, cursor)?;
        let next = decode_u32(cursor)?;
        let rows = decode_rows(alloc, &schema.columns, cursor)?;
        Ok(Table {
            name,
            schema,
            rows,
            next,
        })
    }
}
