//! The names of the processes of a trace.

ghost use Rattle.std.specs.Prelude.{◌≡◌, ◌<◌, ◌^◌, ◌∷◌, ◌++◌, [], length, reverse, Some};
ghost use Rattle.std.specs.Prelude.{slice_get, slice_index_or, slice_set, IfOk, OnOk};
ghost use Rattle.run_model.specs.ValidTrace.{IsTrace};
ghost use Rattle.inspect.specs.inner.ChildRoom.{HaveRoom, all_births, births};
ghost use Rattle.inspect.specs.ProcessNames.{first_process, name_in, named_after};
ghost use Rattle.inspect.specs.ProcessNames.{processes_of, with_child};
ghost use Rattle.inspect.specs.inner.ProcessPlaces.{ComeAfter, MayAllGrow, MayGrow, made_of_first};
ghost use Rattle.inspect.specs.inner.ProcessPlaces.{made_with_child, made_with};
ghost use Rattle.inspect.specs.inner.ProcessPlaces.{name_at, named_of, next_child};
ghost use Rattle.inspect.specs.declared.process_names.Made.{Made};

use ldv_value::Bytes;
use run_model::{Event, append_name};
use std::alloc::{AllocError, Global};
use std::marker::Model;

/// A process in memory: the place of its parent, its number among the parent's children, and how many
/// children it made so far. The first one is its own parent.
#[derive(Clone, Copy)]
pub(crate) struct Made {
    pub(crate) parent: usize,
    pub(crate) number: u32,
    pub(crate) children: u32,
}

/// The processes of a trace, by creation number. Contracts see the name of each and how many children it
/// made. A name is made only when it is written, since the names of deep processes would take much memory.
#[derive(Drop)]
pub(crate) struct Processes {
    made: Vec<Made>,
}

impl Model for Processes {
    ghost use Rattle.std.specs.Prelude.{List};
    ghost use Rattle.inspect.specs.inner.Named.{NamedProcess};
    ghost use Rattle.inspect.specs.inner.ProcessPlaces.{ComeAfter, named_of};

    ghost Value = { List NamedProcess };

    ghost view = { λ a. named_of a.made.items };

    ghost invariant = { λ a. ComeAfter a.made.items };
}

/// The processes of a trace, by creation number.
pub(crate) fn processes_of(alloc: Global, events: &[Event]) -> Result<Processes, AllocError>
    requires { IsTrace events.now }
    ensures { IfOk result (λ processes. processes ≡ processes_of events.now) }
{
    processes_within(alloc, events)
}

fn processes_within(alloc: Global, events: &[Event]) -> Result<Processes, AllocError>
    requires { all_births events.now < 2 ^ 32 }
    ensures { IfOk result (λ processes. processes ≡ processes_of events.now) }
{
    let mut processes = first_processes(alloc)?;
    for event in events {
        processes = with_event(processes, event)?;
    }
    Ok(processes)
}

fn first_processes(alloc: Global) -> Result<Processes, AllocError>
    ensures { IfOk result (λ processes. processes ≡ first_process ∷ []) }
{
    let made = first_process_list(alloc)?;
    Ok(Processes { made })
}

fn first_process_list(alloc: Global) -> Result<Vec<Made>, AllocError>
    ensures { IfOk result (λ made. made.items ≡ made_of_first ∷ []) }
{
    let mut made = Vec::new(alloc);
    made.push(Made {
        parent: 0,
        number: 0,
        children: 0,
    })?;
    Ok(made)
}

fn with_event(processes: Processes, event: &Event) -> Result<Processes, AllocError>
    requires { HaveRoom (births event.now) processes }
    ensures { IfOk result (λ after. after ≡ named_after processes event.now) }
{
    if event.act.is_spawn() {
        with_child(processes, event.process)
    } else {
        Ok(processes)
    }
}

// With a child of the process of a number, where there is one.
fn with_child(processes: Processes, number: u32) -> Result<Processes, AllocError>
    requires { HaveRoom 1 processes }
    ensures { IfOk result (λ after. after ≡ with_child number (slice_get processes number) processes) }
{
    let Processes { mut made } = processes;
    add_child(&mut made, number as usize)?;
    Ok(Processes { made })
}

fn add_child(made: &mut Vec<Made>, place: usize) -> Result<(), AllocError>
    requires { MayAllGrow made.old.items }
    ensures { OnOk result (made.new.items
        ≡ made_with place (slice_get made.old.items place) made.old.items) }
{
    match made.get(place) {
        None => Ok(()),
        Some(_) => add_child_at(made, place),
    }
}

fn add_child_at(made: &mut Vec<Made>, place: usize) -> Result<(), AllocError>
    requires within { place < length made.old.items }
    requires room { MayAllGrow made.old.items }
    ensures { OnOk result ((m : Made) → slice_get made.old.items place ≡ Some m
        → made.new.items ≡ slice_set made.old.items place (made_with_child m) ++ next_child place m ∷ []) }
{
    let child = child_at(made, place);
    made.push(child)?;
    Ok(())
}

// The next child of the process at a place, which is its parent from now on.
fn child_at(made: &mut Vec<Made>, place: usize) -> Made
    requires within { place < length made.old.items }
    requires room { MayAllGrow made.old.items }
    ensures child { (m : Made) → slice_get made.old.items place ≡ Some m → result ≡ next_child place m }
    ensures parent { (m : Made) → slice_get made.old.items place ≡ Some m
        → made.new.items ≡ slice_set made.old.items place (made_with_child m) }
{
    let parent = &mut made[place];
    next_child(place, parent)
}

fn next_child(place: usize, parent: &mut Made) -> Made
    requires { MayGrow parent.old }
    ensures child { result ≡ next_child place parent.old }
    ensures parent { parent.new ≡ made_with_child parent.old }
{
    let child = Made {
        parent: place,
        number: parent.children,
        children: 0,
    };
    parent.children += 1;
    child
}

/// Appends the name of the process with a creation number, if there is one.
pub(crate) fn append_process(
    to: &mut Bytes,
    processes: &Processes,
    number: u32,
) -> Result<(), AllocError>
    ensures { OnOk result (to.new ≡ to.old ++ name_in processes.now number) }
{
    append_made(to, processes.made.as_slice(), number as usize)
}

fn append_made(to: &mut Bytes, made: &[Made], place: usize) -> Result<(), AllocError>
    requires { ComeAfter made.now }
    ensures { OnOk result (to.new ≡ to.old ++ name_in (named_of made.now) place) }
{
    if place >= made.len() {
        return Ok(());
    }
    let numbers = numbers_to(to.allocator(), made, place)?;
    append_name(to, numbers.as_slice())
}

// The name of the process at a place.
fn numbers_to(alloc: Global, made: &[Made], place: usize) -> Result<Vec<u32>, AllocError>
    requires within { place < length made.now }
    requires after { ComeAfter made.now }
    ensures { IfOk result (λ numbers. numbers.items ≡ name_at made.now place) }
{
    let mut numbers = numbers_above(alloc, made, place)?;
    let first = made_at(made, 0);
    numbers.push(first.number)?;
    numbers.reverse();
    Ok(numbers)
}

// The numbers of the process at a place and of those above it, but for the first process.
fn numbers_above(alloc: Global, made: &[Made], place: usize) -> Result<Vec<u32>, AllocError>
    requires within { place < length made.now }
    requires after { ComeAfter made.now }
    ensures { IfOk result (λ numbers. name_at made.now 0 ++ reverse numbers.items ≡ name_at made.now place) }
{
    let mut numbers = Vec::new(alloc);
    let mut at = place;
    while at > 0 {
        let process = made_at(made, at);
        numbers.push(process.number)?;
        at = process.parent;
    }
    Ok(numbers)
}

fn made_at(made: &[Made], place: usize) -> Made
    requires { place < length made.now }
    ensures { result ≡ slice_index_or made.now place result }
{
    made[place]
}
