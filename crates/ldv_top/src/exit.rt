//! The exits of the program.

ghost use Rattle.std.specs.Prelude.{◌≡◌};
ghost use Rattle.ldv_top.specs.Exits.{status_of};

use joined_data::Clash;
use package_layout::DamageKind;
use run_model::ProcName;
use world_json::WorldFault;

/// An exit of the program. `docs/COMMANDS.md` has the order of the tests.
#[derive(Drop)]
pub enum Exit {
    /// All was written.
    Done,
    /// The words are no command.
    Usage,
    /// A read of the input failed.
    ReadFault,
    /// A write of the output failed.
    WriteFault,
    /// The input has more than 67,108,864 bytes.
    TooLong,
    /// The input is no world document.
    NotWorld(WorldFault),
    /// The run hasn't ended after `steps` steps, its budget.
    NotEnded { steps: u32 },
    /// The input isn't a package, or isn't the input of `join` or `replay --run`.
    Damaged(DamageKind),
    /// A process asks another statement than the recorded one, or none is left. The index, from 0, is that of
    /// the statement among those of the process.
    Diverged { process: ProcName, index: u32 },
    /// There is no such table, row, step or path, or the command needs an included package and this one is
    /// excluded.
    NoSuch,
    /// The two packages of `join` differ.
    Clash(Clash),
    /// Memory ran out.
    NoMemory,
    /// The package would have more than 67,108,864 bytes.
    PackageTooLong,
    /// The package has rows, or its processes share a path that one of them changes.
    NotPrivate,
    /// The input is no provenance document.
    NotProv,
}

/// The exit status of the program, 0 to 255.
pub fn status(exit: &Exit) -> u8
    ensures { result ≡ status_of exit.now }
{
    match exit {
        Exit::Done => 0,
        Exit::Usage => 2,
        Exit::ReadFault => 3,
        Exit::WriteFault => 4,
        Exit::TooLong => 5,
        Exit::NotWorld(_) => 6,
        Exit::NotEnded { steps: _ } => 7,
        Exit::Damaged(_) => 8,
        Exit::Diverged {
            process: _,
            index: _,
        } => 9,
        Exit::NoSuch => 10,
        Exit::Clash(_) => 15,
        Exit::NoMemory => 11,
        Exit::PackageTooLong => 12,
        Exit::NotPrivate => 14,
        Exit::NotProv => 16,
    }
}
