//! Items by slot, in pages. A page takes memory only from the first time that one of its slots is set, so
//! names that a process never sets cost it nothing.

ghost use Rattle.std.specs.Prelude.{◌≡◌, ◌≢◌, ◌<◌, ℕ, Some, length, OnOk};
ghost use Rattle.std.specs.Option.{option_map};
ghost use Rattle.proc_core.specs.inner.Paged.{item_at, item_in, page_at};

use ldv_value::List;
use std::alloc::AllocError;

/// How many slots a page has.
const PAGE: usize = 128;

/// Items by slot.
pub(crate) type Pages<X> = Vec<List<Option<X>>>;

/// The item in a slot.
#[inline(always)]
pub(crate) fn item_in<X>(pages: &Pages<X>, slot: usize) -> Option<&X>
    ensures { option_map (λ x. x.now) result ≡ item_in pages.now.items slot }
{
    match pages.get(slot / PAGE) {
        None => None,
        Some(page) => item_at(page, slot % PAGE),
    }
}

// The item at a place of a page.
#[inline(always)]
fn item_at<X>(page: &List<Option<X>>, place: usize) -> Option<&X>
    ensures { option_map (λ x. x.now) result ≡ item_at page.now place }
{
    match page.get(place) {
        None => None,
        Some(None) => None,
        Some(Some(item)) => Some(item),
    }
}

/// Puts an item into a slot. On `AllocError`, which means out of memory only, nothing is promised.
#[tactic(auto, using(crate::proofs::Paging::put_rules))]
pub(crate) fn put<X: Drop>(pages: &mut Pages<X>, slot: usize, item: X) -> Result<(), AllocError>
    ensures there { OnOk result (item_in pages.new.items slot ≡ Some item) }
    ensures others { OnOk result ((i : ℕ) → i ≢ slot
        → item_in pages.new.items i ≡ item_in pages.old.items i) }
{
    let place = slot / PAGE;
    widen(pages, place)?;
    put_in(pages, place, slot % PAGE, item)?;
    Ok(())
}

// Puts an item at a place of one of the pages.
#[tactic(auto, using(crate::proofs::Paging::page_rules))]
fn put_in<X: Drop>(
    pages: &mut Pages<X>,
    page: usize,
    place: usize,
    item: X,
) -> Result<(), AllocError>
    requires { page < length pages.old.items }
    ensures there { OnOk result (item_at (page_at pages.new.items page) place ≡ Some item) }
    ensures same { OnOk result ((i : ℕ) → i ≢ place
        → item_at (page_at pages.new.items page) i ≡ item_at (page_at pages.old.items page) i) }
    ensures others { OnOk result ((i : ℕ) → i ≢ page
        → page_at pages.new.items i ≡ page_at pages.old.items i) }
{
    let chosen = &mut pages[page];
    put_at(chosen, place, item)?;
    Ok(())
}

// Makes a page for a place, if there is none.
#[tactic(auto, using(crate::proofs::Paging::push_page))]
fn widen<X: Drop>(pages: &mut Pages<X>, place: usize) -> Result<(), AllocError>
    ensures within { OnOk result (place < length pages.new.items) }
    ensures same { OnOk result ((i : ℕ) → page_at pages.new.items i ≡ page_at pages.old.items i) }
{
    while pages.len() <= place {
        let page = List::new(*pages.allocator());
        pages.push(page)?;
    }
    Ok(())
}

// Puts an item at a place of a page.
#[tactic(auto, using(crate::proofs::Paging::place_rules))]
fn put_at<X: Drop>(page: &mut List<Option<X>>, place: usize, item: X) -> Result<(), AllocError>
    ensures there { OnOk result (item_at page.new place ≡ Some item) }
    ensures others { OnOk result ((i : ℕ) → i ≢ place → item_at page.new i ≡ item_at page.old i) }
{
    fill(page, place)?;
    page.replace(place, Some(item));
    Ok(())
}

// Makes room for an item at a place of a page, if there is none.
#[tactic(auto, using(crate::proofs::Paging::push_none))]
fn fill<X: Drop>(page: &mut List<Option<X>>, place: usize) -> Result<(), AllocError>
    ensures within { OnOk result (place < length page.new) }
    ensures same { OnOk result ((i : ℕ) → item_at page.new i ≡ item_at page.old i) }
{
    while page.len() <= place {
        page.push(None)?;
    }
    Ok(())
}
