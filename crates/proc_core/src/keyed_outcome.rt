//! Outcomes of processes with a number each by which most names are compared.

ghost use Rattle.std.specs.Prelude.{◌≡◌, ◌<◌};
ghost use Rattle.proc_core.specs.inner.NameKey.{digit_of, name_key, rest_of};
ghost use Rattle.proc_core.specs.inner.SlotOutcome.{name_cmp};

use run_model::ProcOutcome;
use std::cmp::Ordering;
use std::marker::Model;

/// The outcome of a process, with the key of its name. Contracts see the outcome.
#[derive(Drop)]
pub(crate) struct KeyedOutcome {
    key: u128,
    outcome: ProcOutcome,
}

impl Model for KeyedOutcome {
    ghost use Rattle.std.specs.Prelude.{◌≡◌};
    ghost use Rattle.run_model.specs.declared.outcome.ProcOutcome.{ProcOutcome as Outcome};
    ghost use Rattle.proc_core.specs.inner.NameKey.{name_key};

    ghost Value = { Outcome };

    ghost view = { λ a. a.outcome };

    ghost invariant = { λ a. a.key ≡ name_key a.outcome.name.parts };
}

impl KeyedOutcome {
    /// An outcome with its key.
    pub(crate) fn of(outcome: ProcOutcome) -> KeyedOutcome
        ensures { result ≡ outcome }
    {
        KeyedOutcome {
            key: name_key(outcome.name.parts.items()),
            outcome,
        }
    }

    /// The outcome alone.
    pub(crate) fn into_outcome(self) -> ProcOutcome
        ensures { result ≡ self }
    {
        let KeyedOutcome { key: _, outcome } = self;
        outcome
    }

    /// Compares the names. Only where the keys are the same, the names themselves are looked at.
    #[tactic(auto, using(crate::proofs::NameKeys::key_rules))]
    pub(crate) fn compare(&self, other: &KeyedOutcome) -> Ordering
        ensures { result ≡ name_cmp self.now other.now }
    {
        if self.key < other.key {
            Ordering::Less
        } else if other.key < self.key {
            Ordering::Greater
        } else {
            self.outcome.name.parts.cmp(&other.outcome.name.parts)
        }
    }
}

// The digit of the first part of a name.
fn digit_of(parts: &[u32]) -> u32
    ensures digit { result ≡ digit_of parts.now }
    ensures small { result < 256 }
{
    match parts {
        [] => 0,
        [part, _rest @ ..] => { if *part < 254 { *part + 1 } else { 255 } }
    }
}

// The parts of which the digits come after the first one.
fn rest_of(parts: &[u32]) -> &[u32]
    ensures { result.now ≡ rest_of parts.now }
{
    match parts {
        [] => parts,
        [part, rest @ ..] => { if *part < 254 { rest } else { &[] } }
    }
}

// The key of a name.
#[tactic(auto, using(crate::proofs::NameKeys::loop_rules))]
fn name_key(parts: &[u32]) -> u128
    ensures { result ≡ name_key parts.now }
{
    let mut key: u128 = 0;
    let mut rest = parts;
    for _digit in 0..16usize {
        key = key * 256 + digit_of(rest) as u128;
        rest = rest_of(rest);
    }
    key
}
