//! The law of `prov depends` on documents of `prov`.

ghost use Rattle.ldv_top.specs.ProvReported.{DocumentLaw};

use prov_export::prov_law;

/// For each path, the document of a valid package gives the same nodes as the report on the package. The
/// function does nothing: its contract is the theorem.
pub fn document_law()
    ensures { DocumentLaw }
{
    prov_law();
}
