//! From the input to a world, a package or a graph. Each call drops the input as it returns.

ghost use Rattle.std.specs.Prelude.{◌≡◌, Ok, IfOk, IfErr, true};
ghost use Rattle.ldv_value.specs.Gives.{Gives};
ghost use Rattle.package_layout.specs.ReadResult.{ReadsAs, CompactReadsAs};
ghost use Rattle.package_codec.specs.CompactPackages.{expanded_package};
ghost use Rattle.package_codec.specs.Runs.{IsCut, are_runs};
ghost use Rattle.package_layout.specs.StartScript.{StartsWith, cut_of};
ghost use Rattle.package_layout.specs.Valid.{IsSpelled, IsValidPackage, reading};
ghost use Rattle.package_layout.specs.Whole.{IsTyped};
ghost use Rattle.prov_export.specs.Reading.{prov_reading};
ghost use Rattle.prov_export.specs.Stopping.{Stops};
ghost use Rattle.run_model.specs.Start.{IsParsed};
ghost use Rattle.run_model.specs.ValidWorld.{CanRun, ValidWorld};
ghost use Rattle.world_json.specs.Reading.{world_reading, IsFaultOf};

use ldv_value::Bytes;
use package_codec::{CompactPackage, ParsedPackage};
use package_layout::{PackageStop, read_compact, read_package, read_parsed};
use prov_export::{ProvStop, read_prov};
use run_model::{Package, ParsedWorld};
use std::alloc::Global;
use trace_graph::Graph;
use world_json::{WorldStop, parsed_world_of_bytes};

/// The world of the input, a world document, with its first script. The input isn't kept.
pub(crate) fn read_world(alloc: Global, input: Bytes) -> Result<ParsedWorld, WorldStop>
    ensures world { IfOk result (λ p. world_reading input ≡ Ok p.world) }
    ensures fault { IfErr result (IsFaultOf (world_reading input)) }
    ensures valid { IfOk result (λ p. ValidWorld p.world) }
    ensures runs { IfOk result (λ p. CanRun p.world) }
    ensures parsed { IfOk result IsParsed }
{
    parsed_world_of_bytes(alloc, input)
}

/// The package of the input. The input isn't kept.
pub(crate) fn read_package_of(alloc: Global, input: Bytes) -> Result<Package, PackageStop>
    ensures found { IfOk result (λ p. IsTyped p × IsValidPackage p × IsSpelled input p) }
    ensures reading { ReadsAs result (reading input) }
{
    read_package(alloc, input.as_slice())
}

/// The package of the input, with its trace kept as runs: the list of its events may be far larger than the
/// input, and isn't made. The input isn't kept.
pub(crate) fn read_compact_of(alloc: Global, input: Bytes) -> Result<CompactPackage, PackageStop>
    ensures found { IfOk result (λ r. IsTyped (expanded_package r) × IsValidPackage (expanded_package r)
        × IsSpelled input (expanded_package r)) }
    ensures cut { IfOk result (λ r. IsCut r.runs) }
    ensures reading { CompactReadsAs result (reading input) }
{
    read_compact(alloc, input.as_slice())
}

/// The same as `read_compact_of`, with the first script. The input isn't kept.
pub(crate) fn read_parsed_of(alloc: Global, input: Bytes) -> Result<ParsedPackage, PackageStop>
    ensures found { IfOk result (λ p. IsTyped (expanded_package p.cut)
        × IsValidPackage (expanded_package p.cut) × IsSpelled input (expanded_package p.cut)) }
    ensures parsed { IfOk result StartsWith }
    ensures runs { IfOk result (λ p. are_runs p.cut.runs ≡ true) }
    ensures reading { CompactReadsAs (cut_of result) (reading input) }
{
    read_parsed(alloc, input.as_slice())
}

/// The graph whose document the input is. The input isn't kept.
pub(crate) fn read_graph(alloc: Global, input: Bytes) -> Result<Graph, ProvStop>
    ensures { Gives Stops result (prov_reading input) }
{
    read_prov(alloc, input.as_slice())
}
