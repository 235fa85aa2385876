//! Files by hand: lines, limits, modes, copies and marks.

ghost use Rattle.std.specs.Prelude.{◌≡◌, ◌≤◌, length, IfOk, IsTrue, OnOk};
ghost use Rattle.std.specs.List.{All};
ghost use Rattle.ldv_value.specs.Names.{path_test};
ghost use Rattle.ldv_value.specs.FileState.{IsFile};

use file_tree::{AppendStop, LineRead, Tree, TreeStop};
use ldv_value::{Bytes, File, Files, OpenMode, Paths, Utf8, is_path};
use std::alloc::{AllocError, Global};
use std::process::Abort;
use std::test::Fail;

fn file(alloc: Global, path: &str, content: &[u8]) -> Result<File, AllocError>
    requires valid { IsTrue (path_test path.now) }
    requires within { length content.now ≤ 16777216 }
    ensures { IfOk result (λ f. IsFile f.path f.content) }
{
    let path = Utf8::of(alloc, path)?;
    let content = Bytes::of_slice(alloc, content)?;
    Ok(File { path, content })
}

// Adds a file to a list.
fn add(
    rt: &impl Abort,
    alloc: Global,
    files: &mut Files,
    path: &str,
    content: &[u8],
) -> Result<(), AllocError>
    requires { All (λ f. IsFile f.path f.content) files.old }
    ensures { OnOk result (All (λ f. IsFile f.path f.content) files.new) }
{
    assert!(rt; is_path(path));
    assert!(rt; content.len() <= 16_777_216);
    match file(alloc, path, content) {
        Ok(file) => files.push(file),
        Err(stop) => Err(stop),
    }
}

fn files_of(rt: &impl Abort, alloc: Global, entries: &[(&str, &[u8])]) -> Result<Files, AllocError>
    ensures { IfOk result (All (λ f. IsFile f.path f.content)) }
{
    let mut files = Files::new(alloc);
    for (path, content) in entries {
        add(rt, alloc, &mut files, path, content)?;
    }
    Ok(files)
}

// The tree of these files.
fn tree_of(rt: &impl Abort, alloc: Global, entries: &[(&str, &[u8])]) -> Result<Tree, AllocError> {
    match files_of(rt, alloc, entries) {
        Ok(files) => Tree::of_files(alloc, files),
        Err(stop) => Err(stop),
    }
}

fn is_opened(tree: &mut Tree, mode: OpenMode, path: &str, want: Result<(), TreeStop>) -> bool {
    is_path(path) && tree.open_path(mode, path) == want
}

fn is_appended(tree: &mut Tree, path: &str, bytes: &[u8], want: Result<(), AppendStop>) -> bool {
    is_path(path) && tree.append(path, bytes) == want
}

fn is_copied(
    tree: &mut Tree,
    from: &str,
    at: u32,
    to: &str,
    want: Result<u32, AppendStop>,
) -> bool {
    is_path(to) && tree.copy_rest(from, at, to) == want
}

fn expect_open(
    rt: &impl Abort,
    tree: &mut Tree,
    mode: OpenMode,
    path: &str,
    want: Result<(), TreeStop>,
) {
    assert!(rt; is_opened(tree, mode, path, want), "open at {path}");
}

fn expect_append(
    rt: &impl Abort,
    tree: &mut Tree,
    path: &str,
    bytes: &[u8],
    want: Result<(), AppendStop>,
) {
    assert!(rt; is_appended(tree, path, bytes, want), "append at {path}");
}

fn expect_copy(
    rt: &impl Abort,
    tree: &mut Tree,
    from: &str,
    at: u32,
    to: &str,
    want: Result<u32, AppendStop>,
) {
    assert!(rt; is_copied(tree, from, at, to, want), "copy to {to}");
}

fn expect_remove(rt: &impl Abort, tree: &mut Tree, path: &str, want: Result<(), TreeStop>) {
    assert!(rt; tree.remove(path) == want, "remove at {path}");
}

fn expect_content(rt: &impl Abort, tree: &Tree, path: &str, bytes: &[u8]) {
    match tree.state(path) {
        Some(content) => assert!(rt; content == bytes, "content at {path}"),
        None => assert!(rt; false, "no file at {path}"),
    }
}

// What a read of a line must return.
#[derive(Clone, Copy)]
enum Want {
    End,
    Line(&'static str, u32),
    Length(usize, u32),
    TooLong,
    NotText,
}

fn is_wanted_line(text: &str, next: u32, want: Want) -> bool {
    match want {
        Want::Line(line, place) => text == line && next == place,
        Want::Length(length, place) => text.len() == length && next == place,
        _ => false,
    }
}

fn is_wanted(read: &LineRead, want: Want) -> bool {
    match read {
        LineRead::End => matches!(want, Want::End),
        LineRead::Line { text, next } => is_wanted_line(text.as_str(), *next, want),
        LineRead::TooLong => matches!(want, Want::TooLong),
        LineRead::NotText => matches!(want, Want::NotText),
    }
}

fn expect_line(
    rt: &impl Abort,
    tree: &Tree,
    path: &str,
    at: u32,
    want: Want,
) -> Result<(), AllocError> {
    let read = tree.read_line(path, at)?;
    assert!(rt; is_wanted(&read, want), "line of {path} at {at}");
    Ok(())
}

fn bytes_of_length(alloc: Global, length: usize) -> Result<Vec<u8>, AllocError> {
    vec![in alloc; b'x'; length]
}

// A file of lines, one that is no text, and one whose line is too long by a byte.
fn tree_of_lines(rt: &impl Abort, alloc: Global, long: &[u8]) -> Result<Tree, AllocError> {
    tree_of(
        rt,
        alloc,
        &[("f", b"one\n\na\r\nlast"), ("ff", b"\xff"), ("long", long)],
    )
}

fn lines() -> [(&'static str, u32, Want); 14] {
    [
        ("f", 0, Want::Line("one", 4)),
        ("f", 1, Want::Line("ne", 4)),
        ("f", 3, Want::Line("", 4)),
        ("f", 4, Want::Line("", 5)),
        ("f", 5, Want::Line("a\r", 8)),
        ("f", 8, Want::Line("last", 12)),
        ("f", 11, Want::Line("t", 12)),
        ("f", 12, Want::End),
        ("f", 13, Want::End),
        ("f", u32::MAX, Want::End),
        ("g", 0, Want::End),
        ("ff", 0, Want::NotText),
        ("long", 0, Want::TooLong),
        ("long", 1, Want::Length(65_536, 65_537)),
    ]
}

fn expect_lines(
    rt: &impl Abort,
    tree: &Tree,
    lines: &[(&str, u32, Want)],
) -> Result<(), AllocError> {
    for (path, at, want) in lines {
        expect_line(rt, tree, path, *at, *want)?;
    }
    Ok(())
}

#[test]
fn reads_lines(rt: HostRuntime) -> Result<(), Fail> {
    let long = bytes_of_length(rt.alloc(), 65_537)?;
    let tree = tree_of_lines(&rt, rt.alloc(), &long)?;
    expect_lines(&rt, &tree, &lines())?;
    Ok(())
}

#[test]
fn keeps_the_limit(rt: HostRuntime) -> Result<(), Fail> {
    let alloc = rt.alloc();
    let almost = bytes_of_length(alloc, 16_777_215)?;
    let mut tree = tree_of(&rt, alloc, &[("big", almost.as_slice())])?;
    expect_append(&rt, &mut tree, "big", b"a\n", Err(AppendStop::TooLong));
    expect_copy(
        &rt,
        &mut tree,
        "big",
        16_777_213,
        "big",
        Err(AppendStop::TooLong),
    );
    expect_content(&rt, &tree, "big", almost.as_slice());
    expect_append(&rt, &mut tree, "big", b"\n", Ok(()));
    expect_append(&rt, &mut tree, "big", b"\n", Err(AppendStop::TooLong));
    expect_append(&rt, &mut tree, "big", b"", Ok(()));
    expect_copy(&rt, &mut tree, "big", 16_777_216, "big", Ok(16_777_216));
    expect_copy(&rt, &mut tree, "big", 16_777_215, "other", Ok(16_777_216));
    expect_content(&rt, &tree, "other", b"\n");
    Ok(())
}

fn three_files(rt: &impl Abort, alloc: Global) -> Result<Tree, AllocError> {
    tree_of(
        rt,
        alloc,
        &[("a.txt", b"old"), ("b.txt", b"one\n"), ("c.txt", b"c")],
    )
}

fn open_all(rt: &impl Abort, tree: &mut Tree) {
    for (mode, path, want) in [
        (OpenMode::Read, "g", Err(TreeStop::Absent)),
        (OpenMode::New, "c.txt", Err(TreeStop::Taken)),
        (OpenMode::Read, "c.txt", Ok(())),
        (OpenMode::New, "z", Ok(())),
        (OpenMode::Append, "b.txt", Ok(())),
        (OpenMode::Write, "a.txt", Ok(())),
        (OpenMode::Append, "n", Ok(())),
        (OpenMode::Write, "m", Ok(())),
    ] {
        expect_open(rt, tree, mode, path, want);
    }
}

fn append_all(rt: &impl Abort, tree: &mut Tree) {
    expect_append(rt, tree, "a.txt", b"new\n", Ok(()));
    expect_append(rt, tree, "b.txt", b"more\n", Ok(()));
}

// The same path, an absent source, a place past the end, and an absent target.
fn copy_all(rt: &impl Abort, tree: &mut Tree) {
    for (from, at, to, next) in [
        ("a.txt", 1, "a.txt", 4),
        ("none", 7, "made", 7),
        ("c.txt", 9, "c.txt", 9),
        ("b.txt", 4, "k", 9),
    ] {
        expect_copy(rt, tree, from, at, to, Ok(next));
    }
}

fn remove_all(rt: &impl Abort, tree: &mut Tree) {
    expect_remove(rt, tree, "none", Err(TreeStop::Absent));
    expect_remove(rt, tree, "m", Ok(()));
    expect_remove(rt, tree, "c.txt", Ok(()));
}

fn expect_contents(rt: &impl Abort, tree: &Tree) {
    let wants: [(&str, &[u8]); 6] = [
        ("a.txt", b"new\new\n"),
        ("b.txt", b"one\nmore\n"),
        ("k", b"more\n"),
        ("made", b""),
        ("n", b""),
        ("z", b""),
    ];
    for (path, bytes) in wants {
        expect_content(rt, tree, path, bytes);
    }
    assert!(rt; !tree.exists("c.txt"));
}

fn are_paths(paths: &Paths, wants: &[&str]) -> bool {
    paths.len() == wants.len()
        && paths
            .items()
            .iter()
            .zip(wants)
            .all(|(path, want)| path.is_text(want))
}

fn expect_touched(rt: &impl Abort, tree: &Tree) -> Result<(), AllocError> {
    let touched = tree.touched()?;
    assert!(rt; are_paths(&touched, &["a.txt", "b.txt", "c.txt", "m", "n", "z"]));
    Ok(())
}

#[test]
fn opens_and_copies(rt: HostRuntime) -> Result<(), Fail> {
    let mut tree = three_files(&rt, rt.alloc())?;
    open_all(&rt, &mut tree);
    append_all(&rt, &mut tree);
    copy_all(&rt, &mut tree);
    remove_all(&rt, &mut tree);
    expect_contents(&rt, &tree);
    expect_touched(&rt, &tree)?;
    Ok(())
}
