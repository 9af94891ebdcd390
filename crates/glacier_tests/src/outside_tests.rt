// Small owned values, and the files and the sink in memory.
ghost use Rattle.std.specs.Prelude.{◌≡◌, true};

use glacier_base::{Failed, Files, List, MemFiles, MemSink, Sink, Text};
use std::alloc::Global;

fn is_text_kept(alloc: Global) -> Option<bool> {
    let mut text = Text::new(alloc);
    text.extend_from_slice(b"ab").ok()?;
    text.extend_from_slice(Text::of(alloc, b"c").ok()?.bytes())
        .ok()?;
    Some(Text::from_vec(text.into_vec()).bytes() == b"abc".as_slice())
}

fn is_list_kept(alloc: Global) -> Option<bool> {
    let mut list = List::new(alloc);
    list.push(7u64).ok()?;
    Some(List::from_vec(list.into_vec()).as_slice() == [7].as_slice())
}

#[test]
fn texts_and_lists_hold_what_they_were_given(rt: HostRuntime) {
    assert!(rt; is_text_kept(rt.alloc()) == Some(true));
    assert!(rt; is_list_kept(rt.alloc()) == Some(true));
}

/// The call with this number is to fail.
fn failing(alloc: Global, call: u64) -> Option<List<u64>> {
    let mut calls = List::new(alloc);
    calls.push(call).ok()?;
    Some(calls)
}

/// Takes at most two bytes, and tells how many came, and the place that they came to.
fn take<F: Files>(files: &mut F) -> (Result<usize, Failed>, [u8; 2])
    requires { (F.told files.old).is_open ≡ true }
    ensures { (F.told files.new).is_open ≡ true }
{
    let mut into = [0; 2];
    let count = files.read(&mut into);
    (count, into)
}

/// Whether the file is read to its end, the third read failing.
fn is_file_read<F: Files>(files: &mut F) -> bool {
    files.open_read(Some("f")).is_ok()
        && take(files) == (Ok(2), *b"ab")
        && take(files) == (Ok(1), *b"c\0")
        && take(files) == (Err(Failed), [0, 0])
        && take(files) == (Ok(0), [0, 0])
}

/// Whether standard input is read once another name has no file.
fn is_input_read<F: Files>(files: &mut F) -> bool {
    files.open_read(Some("g")) == Err(Failed)
        && files.open_read(None).is_ok()
        && take(files) == (Ok(2), *b"in")
}

fn are_files_read(alloc: Global) -> Option<bool> {
    let mut files = MemFiles::new(alloc, Text::of(alloc, b"in").ok()?, failing(alloc, 3)?);
    files.add("f", b"abc").ok()?;
    Some(
        files.file("f") == Some(b"abc".as_slice())
            && is_file_read(&mut files)
            && is_input_read(&mut files),
    )
}

#[test]
fn a_file_is_read_to_its_end(rt: HostRuntime) {
    assert!(rt; are_files_read(rt.alloc()) == Some(true));
}

/// Whether of three writes the second fails.
fn is_second_failed<S: Sink>(sink: &mut S) -> bool {
    sink.write(b"ab").is_ok() && sink.write(b"cd") == Err(Failed) && sink.write(b"ef").is_ok()
}

fn is_written(alloc: Global) -> Option<bool> {
    let mut sink = MemSink::new(alloc, failing(alloc, 1)?);
    Some(is_second_failed(&mut sink) && sink.written() == b"abef".as_slice())
}

#[test]
fn a_sink_keeps_what_is_written(rt: HostRuntime) {
    assert!(rt; is_written(rt.alloc()) == Some(true));
}
