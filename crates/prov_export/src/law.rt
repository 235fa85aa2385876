//! The law of provenance documents.

ghost use Rattle.prov_export.specs.Laws.{RoundTripLaw, ReadingLaw, UniqueLaw, TraceLaw};

/// Reading the document of a well-formed graph gives that graph, and no other bytes are read. So two graphs
/// with the same document are equal. From the document of a valid trace, the report on each path lists the
/// nodes that it depends on by the last step of the run. The function has no body: its contract is the
/// theorem.
pub fn prov_law()
    ensures again { RoundTripLaw }
    ensures only { ReadingLaw }
    ensures unique { UniqueLaw }
    ensures traces { TraceLaw }
{}
