//! Whole documents.

ghost use Rattle.std.specs.Prelude.{◌≡◌, Some, IfOk};
ghost use Rattle.serde_json.specs.Data.{Members, no_members};
ghost use Rattle.world_json.specs.Shape.{document_in, document_of};
ghost use Rattle.world_json.specs.inner.Parts.{AreDocumentParts};
ghost use Rattle.world_json.specs.inner.Taking.{IsTaken};
ghost use Rattle.world_json.specs.inner.Typed.{TypedDocument};

use crate::document::{Document, Drafts};
use crate::fast::items::take_array;
use crate::fast::members::{TakesMembers, take_members, take_object};
use crate::fast::table::{list_or_empty, number_or, require_part, take_whole};
use crate::fast::tokens::open_object;
use crate::shape::ShapeStop;
use json::Reader;
use ldv_value::{Files, Words};
use std::alloc::Global;

// The members of a document that were read.
#[derive(Drop)]
pub(crate) struct DocumentParts {
    start: Option<Words>,
    seed: Option<u64>,
    files: Option<Files>,
    tables: Option<Drafts>,
}

/// A document. It has four levels of members and two of arrays below.
pub(crate) fn take_document(alloc: Global, reader: &mut Reader<'_>) -> Result<Document, ShapeStop>
    ensures taken { IfOk result (λ document. IsTaken document_of 6 reader.old document reader.new) }
    ensures typed { IfOk result (λ document. TypedDocument document) }
{
    open_object(reader)?;
    let mut parts = no_parts();
    take_members(alloc, reader, &mut parts)?;
    let document = document_of_parts(alloc, parts)?;
    Ok(document)
}

fn no_parts() -> DocumentParts
    ensures { AreDocumentParts no_members result }
{
    DocumentParts {
        start: None,
        seed: None,
        files: None,
        tables: None,
    }
}

impl TakesMembers for DocumentParts {
    ghost use Rattle.world_json.specs.inner.Parts.{AreDocumentParts};

    ghost kept = { AreDocumentParts };

    ghost levels = { 5 };

    #[tactic(auto, using(crate::proofs::TakenParts::document_members_taken))]
    fn take_member(
        &mut self,
        alloc: Global,
        name: &str,
        reader: &mut Reader<'_>,
    ) -> Result<(), ShapeStop> {
        if name == "start" {
            self.start = Some(take_array(alloc, reader, 1)?);
            Ok(())
        } else if name == "seed" {
            self.seed = Some(take_whole(reader)?);
            Ok(())
        } else if name == "files" {
            self.files = Some(take_object(alloc, reader)?);
            Ok(())
        } else if name == "tables" {
            self.tables = Some(take_object(alloc, reader)?);
            Ok(())
        } else {
            Err(ShapeStop::Shape)
        }
    }
}

fn document_of_parts(alloc: Global, parts: DocumentParts) -> Result<Document, ShapeStop>
    ensures { IfOk result (λ document. (ms : Members) → AreDocumentParts ms parts
        → (document_in ms ≡ Some document) × TypedDocument document) }
{
    let DocumentParts {
        start,
        seed,
        files,
        tables,
    } = parts;
    let start = require_part(start)?;
    let files = require_part(files)?;
    let seed = number_or(seed, 0);
    let tables = list_or_empty(alloc, tables);
    Ok(Document {
        start,
        seed,
        files,
        tables,
    })
}
