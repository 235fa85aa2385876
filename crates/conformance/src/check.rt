//! Files of cases, checked one after another.

ghost use Rattle.std.specs.Prelude.{◌≡◌, ◌≢◌, ◌<◌, ◌≤◌, ◌↔◌, ◌-◌, ◌^◌, ◌+◌, if◌then◌else◌, min, [], ◌∷◌};
ghost use Rattle.std.specs.Prelude.{option_map, IsErr, IfOk, OnOk};
ghost use Rattle.conformance.specs.Files.{AreAsWanted, AreFilesAsWanted, ComesOut, IsFileAsWanted};
ghost use Rattle.conformance.specs.Runs.{IsAsWanted, IsJudged};
ghost use Rattle.conformance.specs.inner.Same.{is_same};
ghost use Rattle.conformance.specs.Wanted.{is_wanted, wanted_count};
ghost use Rattle.conformance.specs.inner.Counts.{CountsCases};

use crate::call::call;
use crate::case::Case;
use crate::compare::{Differences, compare};
use crate::file::ReadFile;
use crate::tally::Tally;
use std::alloc::{AllocError, Global};
use std::collections::BTreeSet;
use std::io;

/// Runs the cases of files that were read, or those of one name alone, prints a line for each file, one for
/// each difference and the counts, and gives the exit status. A file without cases is a difference.
pub(crate) fn check_files<R: Print + AllocGlobal>(
    rt: &R,
    files: &[ReadFile],
    only: Option<&str>,
) -> io::Result<u8>
    // Status 0 says that there is a file, and that each wanted case of each file came out as it wants.
    ensures { IfOk result (λ status. status ≡ 0 → (files.now ≢ [])
        × AreFilesAsWanted (option_map (λ name. name.now) only.entry) files.now) }
{
    let mut tally = Tally::new();
    check_each(rt, files, only, &mut tally)?;
    finish(rt, files, only, tally)
}

fn check_each<R: Print + AllocGlobal>(
    rt: &R,
    files: &[ReadFile],
    only: Option<&str>,
    tally: &mut Tally,
) -> io::Result<()>
    ensures kept { tally.old.differences ≤ tally.new.differences }
    ensures same { OnOk result (tally.new.differences ≡ 0
        → AreFilesAsWanted (option_map (λ name. name.now) only.entry) files.now) }
{
    for file in files {
        check_file(rt, file, only, tally)?;
    }
    Ok(())
}

// Where no file is named, or no case of the wanted name, that is a difference too.
fn finish(
    rt: &impl Print,
    files: &[ReadFile],
    only: Option<&str>,
    mut tally: Tally,
) -> io::Result<u8>
    ensures { IfOk result (λ status. (status ≡ 0)
        ↔ ((files.now ≢ []) × (0 < tally.cases) × (tally.differences ≡ 0))) }
{
    if files.is_empty() {
        rt.println("no file named")?;
        tally.count_difference();
    } else if let Some(name) = only
        && tally.cases == 0
    {
        println!(rt; "no case named {name}")?;
        tally.count_difference();
    }
    let cases = tally.cases;
    let differences = tally.differences;
    println!(rt; "{cases} cases, {differences} differ")?;
    Ok(tally.status())
}

// A file that has no cases is a difference.
fn check_file<R: Print + AllocGlobal>(
    rt: &R,
    file: &ReadFile,
    only: Option<&str>,
    tally: &mut Tally,
) -> io::Result<()>
    ensures fault { IsErr file.now.found
        → tally.new.differences ≡ min (tally.old.differences + 1) (2 ^ 64 - 1) }
    ensures cases { OnOk result (IfOk file.now.found (λ cases. CountsCases tally.old tally.new
        (wanted_count (option_map (λ name. name.now) only.entry) cases.items))) }
    ensures kept { tally.old.differences ≤ tally.new.differences }
    ensures same { OnOk result (tally.new.differences ≡ 0
        → IsFileAsWanted (option_map (λ name. name.now) only.entry) file.now) }
{
    let path = file.path.as_str();
    match &file.found {
        Ok(cases) => {
            let count = cases.iter().filter(|case| is_wanted(case, only)).count();
            println!(rt; "{path}: {count} cases")?;
            check_cases(rt, cases.as_slice(), only, tally)
        }
        Err(fault) => {
            tally.count_difference();
            println!(rt; "{path}: {fault}")
        }
    }
}

fn is_wanted(case: &Case, only: Option<&str>) -> bool
    ensures { result ≡ is_wanted (option_map (λ name. name.now) only.entry) case.now }
{
    match only {
        Some(name) => case.name.as_str() == name,
        None => true,
    }
}

// Runs each case that is wanted. A name that a file has twice is a difference.
fn check_cases<R: Print + AllocGlobal>(
    rt: &R,
    cases: &[Case],
    only: Option<&str>,
    tally: &mut Tally,
) -> io::Result<()>
    ensures cases { OnOk result (CountsCases tally.old tally.new
        (wanted_count (option_map (λ name. name.now) only.entry) cases.now)) }
    ensures kept { tally.old.differences ≤ tally.new.differences }
    ensures same { OnOk result (tally.new.differences ≡ 0
        → AreAsWanted (option_map (λ name. name.now) only.entry) cases.now) }
{
    let mut names = BTreeSet::new(rt.alloc());
    for case in cases {
        check_name(rt, &mut names, case, tally)?;
        check_wanted(rt, case, only, tally)?;
    }
    Ok(())
}

// Runs a case where it is wanted.
fn check_wanted<R: Print + AllocGlobal>(
    rt: &R,
    case: &Case,
    only: Option<&str>,
    tally: &mut Tally,
) -> io::Result<()>
    ensures cases { CountsCases tally.old tally.new
        (wanted_count (option_map (λ name. name.now) only.entry) (case.now ∷ [])) }
    ensures kept { tally.old.differences ≤ tally.new.differences }
    ensures same { tally.new.differences ≡ 0
        → ComesOut (option_map (λ name. name.now) only.entry) case.now }
{
    if is_wanted(case, only) {
        check_case(rt, case, tally)
    } else {
        Ok(())
    }
}

// Notes the name of a case. Where it is noted already, that is a difference.
fn check_name(
    rt: &impl Print,
    names: &mut BTreeSet<String>,
    case: &Case,
    tally: &mut Tally,
) -> io::Result<()>
    ensures cases { tally.new.cases ≡ tally.old.cases }
    ensures kept { tally.old.differences ≤ tally.new.differences }
{
    if !names.insert(case.name.clone()?)? {
        tally.count_difference();
        let name = case.name.as_str();
        println!(rt; "  {name}: named twice")?;
    }
    Ok(())
}

// Runs a case. It counts as the same only where the program was run and none of the four differs.
#[tactic(auto, using(crate::proofs::Judging::as_wanted))]
fn check_case<R: Print + AllocGlobal>(rt: &R, case: &Case, tally: &mut Tally) -> io::Result<()>
    ensures cases { tally.new.cases ≡ min (tally.old.cases + 1) (2 ^ 64 - 1) }
    ensures kept { tally.old.differences ≤ tally.new.differences }
    ensures same { tally.new.differences ≡ 0 → IsAsWanted case.now }
{
    let judged = judge(rt.alloc(), case);
    count_judged(&judged, tally);
    tell(rt, case.name.as_str(), &judged)
}

// What a run of a case differs in from what the case wants.
fn judge(alloc: Global, case: &Case) -> Result<Differences, AllocError>
    ensures { IfOk result (λ differences. IsJudged case.now differences) }
{
    let ended = call(alloc, case)?;
    Ok(compare(&ended, case))
}

fn count_judged(judged: &Result<Differences, AllocError>, tally: &mut Tally)
    ensures cases { tally.new.cases ≡ min (tally.old.cases + 1) (2 ^ 64 - 1) }
    ensures kept { tally.old.differences ≤ tally.new.differences }
    ensures differs { tally.new.differences ≡ (if is_same judged.now then tally.old.differences
        else min (tally.old.differences + 1) (2 ^ 64 - 1)) }
{
    match judged {
        Ok(differences) => tally.count_case(differences.is_none()),
        Err(_) => tally.count_case(false),
    }
}

// Prints a line for each of the four that differs.
fn tell(rt: &impl Print, name: &str, judged: &Result<Differences, AllocError>) -> io::Result<()> {
    match judged {
        Ok(differences) => tell_differences(rt, name, differences),
        Err(_) => println!(rt; "  {name}: out of memory"),
    }
}

fn tell_differences(rt: &impl Print, name: &str, differences: &Differences) -> io::Result<()> {
    if let Some(statuses) = differences.status {
        println!(rt; "  {name}: {statuses}")?;
    }
    if let Some(statuses) = differences.steady_status {
        println!(rt; "  {name}: over streams that never fail: {statuses}")?;
    }
    if let Some(place) = differences.output {
        println!(rt; "  {name}: output {place}")?;
    }
    if let Some(place) = differences.error {
        println!(rt; "  {name}: error {place}")?;
    }
    Ok(())
}
