//! The law of `inspect depends`.

ghost use Rattle.std.specs.Prelude.{◌≡◌, ℕ, List as Items};
ghost use Rattle.ldv_top.specs.DueOfReports.{due_inspect};
ghost use Rattle.ldv_top.specs.Reported.{Depends};
ghost use Rattle.ldv_top.specs.declared.command.Report.TheVariants.{Depends as DependsOn};
ghost use Rattle.ldv_top.specs.declared.exit.Exit.{Exit};

use inspect::depends_law;

/// The report of `inspect depends` lists exactly the nodes of the trace's graph from which a chain of edges
/// leads to the path by the end of the recorded run. The function does nothing: its contract is the theorem.
pub fn report_law()
    ensures { (path input : Items ℕ) → (due_inspect (DependsOn path) input).exit ≡ Exit.Done
        → Depends path input (due_inspect (DependsOn path) input).bytes }
{
    depends_law();
}
