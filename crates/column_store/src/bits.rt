//! Bits of slots, 64 in a word.

ghost use Rattle.std.specs.Prelude.{◌≡◌, ◌==◌, ℕ, ◌+◌, ◌-◌, ◌*◌, ◌/◌, ◌%◌, ◌^◌, ◌<◌, ◌≤◌, Bool, true, false};
ghost use Rattle.std.specs.Prelude.{cond, List, [], ◌∷◌, ◌++◌, length, vec_len, vec_capacity, slice_index_or};
ghost use Rattle.std.specs.Prelude.{slice_set, OnOk, OnErr, IfOk, IsOk};
ghost use Rattle.column_store.specs.Flags.{flag_in};

use std::alloc::{AllocError, Global};
use std::marker::Model;

/// A bit for each slot. Contracts see a list of bits, and `spare`, the number of bits that can be added
/// without more memory.
#[derive(Drop)]
pub struct Bits {
    words: Vec<u64>,
    len: usize,
}

impl Model for Bits {
    ghost use Rattle.column_store.specs.Flags.{Flags};

    ghost Value = { Flags };

    ghost use Rattle.column_store.specs.Flags.{seen_flags, IsBits};

    ghost view = { seen_flags };

    ghost invariant = { IsBits };
}

impl Bits {
    /// No bits.
    pub fn new(alloc: Global) -> Bits
        ensures { result.items ≡ [] }
    {
        Bits {
            words: Vec::new(alloc),
            len: 0,
        }
    }

    /// The words: bit i of word j belongs to slot 64 * j + i, and no bit past the last slot is set.
    #[tactic(auto, using(crate::proofs::FlagLaws::flag_rules))]
    pub fn words(&self) -> &[u64]
        ensures count { length result.now ≡ (length self.now.items + 63) / 64 }
        ensures bits { (n : ℕ) → n < length self.now.items
            → flag_in result.now n ≡ slice_index_or self.now.items n false }
        ensures clear { (n : ℕ) → length self.now.items ≤ n → flag_in result.now n ≡ false }
    {
        self.words.as_slice()
    }

    /// The bit of a slot.
    #[tactic(auto, using(crate::proofs::FlagLaws::flag_rules))]
    pub fn get(&self, slot: usize) -> bool
        requires { slot < length self.now.items }
        ensures { result ≡ slice_index_or self.now.items slot false }
    {
        has_flag(&self.words, slot)
    }

    /// Reserves memory for `more` bits, fewer than 2^32. On `AllocError` nothing has changed.
    #[tactic(auto, using(crate::proofs::FlagLaws::flag_rules))]
    pub fn reserve(&mut self, more: usize) -> Result<(), AllocError>
        requires { more < 2 ^ 32 }
        ensures items { self.new.items ≡ self.old.items }
        ensures room { OnOk result (more ≤ self.new.spare) }
        ensures spare { self.old.spare ≤ self.new.spare }
        ensures err { OnErr result (self.new ≡ self.old) }
    {
        self.words.reserve(more / 64 + 1)
    }

    /// Adds a bit to fewer than 2^32. It never fails if `spare` is at least 1. On `AllocError` nothing has
    /// changed.
    #[tactic(auto, using(crate::proofs::FlagLaws::flag_rules))]
    pub fn push(&mut self, bit: bool) -> Result<(), AllocError>
        requires few { length self.old.items < 2 ^ 32 }
        ensures ok { OnOk result (self.new.items ≡ self.old.items ++ bit ∷ []) }
        ensures err { OnErr result (self.new ≡ self.old) }
        ensures spare { self.old.spare ≤ self.new.spare + 1 }
        ensures succeeds { 1 ≤ self.old.spare → IsOk result }
    {
        widen(&mut self.words, self.len)?;
        put(&mut self.words, self.len, bit);
        self.len += 1;
        Ok(())
    }

    /// Writes the bit of a slot.
    #[tactic(auto, using(crate::proofs::FlagLaws::flag_rules))]
    pub fn set(&mut self, slot: usize, bit: bool)
        requires { slot < length self.old.items }
        ensures items { self.new.items ≡ slice_set self.old.items slot bit }
        ensures spare { self.new.spare ≡ self.old.spare }
    {
        put(&mut self.words, slot, bit);
    }
}

// Adds a word where all bits of the words are taken.
#[tactic(auto, using(crate::proofs::FlagLaws::zero_word))]
fn widen(words: &mut Vec<u64>, len: usize) -> Result<(), AllocError>
    requires { vec_len words.old ≡ (len + 63) / 64 }
    ensures count { OnOk result (vec_len words.new ≡ (len + 64) / 64) }
    ensures bits { (n : ℕ) → flag_in words.new.items n ≡ flag_in words.old.items n }
    ensures err { OnErr result (words.new.items ≡ words.old.items
        × vec_capacity words.new ≡ vec_capacity words.old) }
    ensures capacity { vec_capacity words.old ≤ vec_capacity words.new }
    ensures succeeds { len < vec_capacity words.old * 64 → IsOk result }
{
    if len % 64 != 0 {
        return Ok(());
    }
    words.reserve(1)?;
    words.push(0)?;
    Ok(())
}

// Writes a bit.
fn put(words: &mut Vec<u64>, slot: usize, bit: bool)
    requires { slot / 64 < vec_len words.old }
    ensures bits { (n : ℕ) → flag_in words.new.items n ≡ cond (n == slot) bit (flag_in words.old.items n) }
    ensures count { vec_len words.new ≡ vec_len words.old }
    ensures capacity { vec_capacity words.new ≡ vec_capacity words.old }
{
    if bit {
        set_bit(words, slot);
    } else {
        clear_bit(words, slot);
    }
}

#[tactic(auto, using(crate::proofs::FlagLaws::bit_set))]
fn set_bit(words: &mut Vec<u64>, slot: usize)
    requires { slot / 64 < vec_len words.old }
    ensures bits { (n : ℕ) → flag_in words.new.items n ≡ cond (n == slot) true (flag_in words.old.items n) }
    ensures count { vec_len words.new ≡ vec_len words.old }
    ensures capacity { vec_capacity words.new ≡ vec_capacity words.old }
{
    words[slot / 64] |= 1 << (slot % 64);
}

#[tactic(auto, using(crate::proofs::FlagLaws::bit_cleared))]
fn clear_bit(words: &mut Vec<u64>, slot: usize)
    requires { slot / 64 < vec_len words.old }
    ensures bits { (n : ℕ) → flag_in words.new.items n ≡ cond (n == slot) false (flag_in words.old.items n) }
    ensures count { vec_len words.new ≡ vec_len words.old }
    ensures capacity { vec_capacity words.new ≡ vec_capacity words.old }
{
    words[slot / 64] &= !(1 << (slot % 64));
}

/// Clears the bit of a slot in words that have one for it.
#[tactic(auto, using(crate::proofs::FlagLaws::bit_cleared_at))]
pub fn drop_bit(words: &mut [u64], slot: usize)
    requires { slot / 64 < length words.old }
    ensures { (n : ℕ) → flag_in words.new n ≡ cond (n == slot) false (flag_in words.old n) }
{
    words[slot / 64] &= !(1 << (slot % 64));
}

fn has_flag(words: &[u64], slot: usize) -> bool
    requires { slot / 64 < length words.now }
    ensures { result ≡ flag_in words.now slot }
{
    (words[slot / 64] >> (slot % 64)) & 1 == 1
}
