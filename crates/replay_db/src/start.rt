//! The first script of a world.

ghost use Rattle.std.specs.Prelude.{◌≡◌, Some, IfOk, IsSome};
ghost use Rattle.std.specs.Option.{option_map};
ghost use Rattle.run_model.specs.Start.{IsParsed, start_file, start_script};

use ldv_value::File;
use run_model::{ParsedWorld, World};
use script_parse::{Script, known_script};
use std::alloc::{AllocError, Global};

// The file that the first start word names.
fn start_file(world: &World) -> Option<&File>
    ensures { option_map (λ file. file.now) result ≡ start_file world.now }
{
    match world.start.get(0) {
        None => None,
        Some(word) => world.files.find(word),
    }
}

/// The script of the file at the first start word.
pub(crate) fn parse_start(alloc: Global, world: &World) -> Result<Script, AllocError>
    requires { IsSome (start_script world.now) }
    ensures { IfOk result (λ script. start_script world.now ≡ Some script.instructions) }
{
    match start_file(world) {
        None => unreachable!(),
        Some(file) => known_script(alloc, file.content.as_slice()),
    }
}

/// A world with its first script. It must have one. `AllocError` means out of memory only.
pub fn parsed_world(alloc: Global, world: World) -> Result<ParsedWorld, AllocError>
    requires { IsSome (start_script world) }
    ensures world { IfOk result (λ p. p.world ≡ world) }
    ensures parsed { IfOk result IsParsed }
{
    let script = parse_start(alloc, &world)?;
    Ok(ParsedWorld { world, script })
}
