//! Lists and texts: each call once.

ghost use Rattle.std.specs.Prelude.{◌<◌};

use ldv_value::{Bytes, Calls, CopyItem, File, Files, Numbers, Utf8};
use std::alloc::{AllocError, Global};
use std::process::Abort;
use std::test::Fail;

fn numbers_of(alloc: Global, items: &[u32]) -> Result<Numbers, AllocError> {
    Ok(Numbers::of_vec(Vec::from_slice(alloc, items)?))
}

fn change(rt: &impl Abort, numbers: &mut Numbers, place: usize, number: u32) {
    assert!(rt; place < numbers.len());
    numbers.replace(place, number);
}

// The numbers 4, 7 and 6, by each way into a list.
fn numbers(rt: &impl Abort, alloc: Global) -> Result<Numbers, AllocError> {
    let mut numbers = numbers_of(alloc, &[4, 5])?;
    numbers.push(6)?;
    change(rt, &mut numbers, 1, 7);
    Ok(numbers)
}

fn has_three(numbers: &Numbers) -> bool {
    !numbers.is_empty()
        && numbers.len() == 3
        && numbers.get(1).copied() == Some(7)
        && numbers.get(3).copied() == None
}

fn is_of(numbers: Numbers, items: &[u32]) -> bool {
    numbers.into_vec().as_slice() == items
}

#[test]
fn keeps_lists(rt: HostRuntime) -> Result<(), Fail> {
    let numbers = numbers(&rt, rt.alloc())?;
    let copied = numbers.copy_item(numbers.allocator())?;
    assert!(rt; has_three(&numbers) && has_three(&copied));
    assert!(rt; is_of(copied, &[4, 7, 6]));
    assert!(rt; Calls::new(rt.alloc()).copy()?.is_empty());
    Ok(())
}

fn greeting_text(alloc: Global) -> Result<Utf8, AllocError> {
    let mut greeting = Utf8::of_string(Utf8::of(alloc, "h")?.into_string());
    greeting.push_str("i")?;
    Ok(greeting)
}

fn is_greeting(text: &Utf8) -> bool {
    text.is_text("hi") && !text.is_empty()
}

fn is_copied(text: &Utf8) -> Result<bool, AllocError> {
    let same = text.copy_item(text.allocator())?;
    Ok(*text == same && is_greeting(&same))
}

#[test]
fn keeps_texts(rt: HostRuntime) -> Result<(), Fail> {
    let greeting = greeting_text(rt.alloc())?;
    assert!(rt; is_greeting(&greeting) && is_copied(&greeting)?);
    assert!(rt; Utf8::new(rt.alloc()).is_empty());
    Ok(())
}

// Whether the list of the first items comes before that of the second.
fn are_ordered(alloc: Global, first: &[u32], second: &[u32]) -> Result<bool, AllocError> {
    let first = numbers_of(alloc, first)?;
    let second = numbers_of(alloc, second)?;
    Ok(first < second && second != first)
}

fn equals_its_copy(numbers: &Numbers) -> Result<bool, AllocError> {
    Ok(*numbers == numbers.copy()?)
}

#[test]
fn orders_lists(rt: HostRuntime) -> Result<(), Fail> {
    let alloc = rt.alloc();
    assert!(rt; are_ordered(alloc, &[], &[4])? && are_ordered(alloc, &[4], &[4, 0])?);
    assert!(rt; are_ordered(alloc, &[4, 0], &[4, 7, 6])?);
    assert!(rt; equals_its_copy(&numbers_of(alloc, &[4, 0])?)?);
    Ok(())
}

fn one_file(alloc: Global) -> Result<Files, AllocError> {
    let path = Utf8::of(alloc, "hi")?;
    let content = Bytes::of_slice(alloc, b"x")?;
    let mut files = Files::new(alloc);
    files.push(File { path, content })?;
    Ok(files)
}

fn is_the_file(file: &File) -> bool {
    file.path.is_text("hi") && file.content.as_slice() == b"x".as_slice()
}

fn is_one_file(files: &Files) -> bool {
    match files.items() {
        [file] => is_the_file(file),
        _ => false,
    }
}

#[test]
fn copies_files(rt: HostRuntime) -> Result<(), Fail> {
    let files = one_file(rt.alloc())?;
    assert!(rt; is_one_file(&files.copy()?));
    Ok(())
}
