//! The part of a row that an event writes, and rows grouped by their table.

use crate::codec::{Decode, Encode};
use crate::cursor::Cursor;
use crate::decode_stop::DecodeStop;
use crate::number::{decode_u32, encode_u8, encode_u32};
use crate::parts::table::{decode_rule, number_of_rule};
use crate::trace::group::GroupedRow;
use ldv_value::{Bytes, Utf8};
use sql_model::{Member, Need, Rule};
use std::alloc::{AllocError, Global};

/// A version of a row that a statement read, and the rule by which it did.
#[derive(Clone, Copy, Drop)]
pub(crate) struct ReadPart {
    row: u32,
    version: u32,
    rule: Rule,
}

/// A version of a row that a statement made.
#[derive(Clone, Copy, Drop)]
pub(crate) struct MadePart {
    row: u32,
    version: u32,
}

impl Encode for ReadPart {
    ghost use Rattle.package_codec.specs.Parts.{read_part_spelling, TypedReadPart};

    ghost spelling = { read_part_spelling };

    ghost typed = { TypedReadPart };

    fn encode(&self, to: &mut Bytes) -> Result<(), AllocError> {
        self.row.encode(to)?;
        self.version.encode(to)?;
        encode_u8(number_of_rule(self.rule), to)
    }
}

impl Decode for ReadPart {
    ghost use Rattle.package_codec.specs.Parts.{read_part_at};

    ghost reading = { read_part_at };

    fn decode(_alloc: Global, cursor: &mut Cursor) -> Result<ReadPart, DecodeStop> {
        let row = decode_u32(cursor)?;
        let version = decode_u32(cursor)?;
        let rule = decode_rule(cursor)?;
        Ok(ReadPart { row, version, rule })
    }
}

impl Encode for MadePart {
    ghost use Rattle.package_codec.specs.Parts.{made_part_spelling, TypedMadePart};

    ghost spelling = { made_part_spelling };

    ghost typed = { TypedMadePart };

    fn encode(&self, to: &mut Bytes) -> Result<(), AllocError> {
        self.row.encode(to)?;
        self.version.encode(to)
    }
}

impl Decode for MadePart {
    ghost use Rattle.package_codec.specs.Parts.{made_part_at};

    ghost reading = { made_part_at };

    fn decode(_alloc: Global, cursor: &mut Cursor) -> Result<MadePart, DecodeStop> {
        let row = decode_u32(cursor)?;
        let version = decode_u32(cursor)?;
        Ok(MadePart { row, version })
    }
}

impl GroupedRow<ReadPart> for Need {
    ghost use Rattle.package_codec.specs.Parts.{need_table, need_part, need_of};

    ghost table_of = { need_table };

    ghost part_of = { need_part };

    ghost place = { need_of };

    fn table(&self) -> &Utf8 {
        &self.member.table
    }

    fn payload(&self) -> ReadPart {
        ReadPart {
            row: self.member.row,
            version: self.member.version,
            rule: self.rule,
        }
    }

    fn of_group(table: Utf8, part: ReadPart) -> Need {
        Need {
            member: Member {
                table,
                row: part.row,
                version: part.version,
            },
            rule: part.rule,
        }
    }
}

impl GroupedRow<MadePart> for Member {
    ghost use Rattle.package_codec.specs.Parts.{member_table, member_part, member_of};

    ghost table_of = { member_table };

    ghost part_of = { member_part };

    ghost place = { member_of };

    fn table(&self) -> &Utf8 {
        &self.table
    }

    fn payload(&self) -> MadePart {
        MadePart {
            row: self.row,
            version: self.version,
        }
    }

    fn of_group(table: Utf8, part: MadePart) -> Member {
        Member {
            table,
            row: part.row,
            version: part.version,
        }
    }
}
