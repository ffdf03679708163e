//! Streams in memory, those that fail, and those that are slow.

use crate::support::ample;
use std::alloc::Global;
use std::io;
use std::io::{ErrorKind, Read, Write};
use std::process::Abort;
use tk_io::{
    FlakySink, FlakySource, MemSink, MemSource, ReadAll, Sink, SlowSink, SlowSource, Source,
    StdSink, StdSource, put, read_all,
};

/// How many bytes are read of a source, or why not all of them.
fn length<S: Source>(alloc: Global, source: &mut S, limit: usize) -> Result<usize, &'static str> {
    match read_all(alloc, source, limit) {
        Ok(bytes) => Ok(bytes.len()),
        Err(ReadAll::TooLong) => Err("too long"),
        Err(ReadAll::Fault) => Err("fault"),
        Err(ReadAll::NoMemory) => Err("no memory"),
    }
}

/// A list of these items.
fn list<T: Copy>(rt: &impl Abort, alloc: Global, items: &[T]) -> Vec<T> {
    ample(rt, items.to_vec(alloc))
}

/// Whether all bytes are put.
fn is_put<K: Sink>(sink: &mut K, bytes: &[u8]) -> bool {
    put(sink, bytes).is_ok()
}

#[test]
fn a_source_is_read_to_its_end(rt: HostRuntime) {
    let alloc = rt.alloc();
    for (limit, want) in [(4, Ok(3)), (3, Ok(3)), (2, Err("too long"))] {
        let mut source = MemSource::new(list(&rt, alloc, b"abc"));
        let answer = length(alloc, &mut source, limit);
        assert!(rt; answer == want, "limit {limit}");
        assert!(rt; source.left().len() == 0);
    }
}

#[test]
fn a_fault_in_mid_stream_is_told(rt: HostRuntime) {
    let alloc = rt.alloc();
    let mut source = FlakySource::new(list(&rt, alloc, b"abc"), list(&rt, alloc, &[2]));
    let answer = length(alloc, &mut source, 9);
    assert!(rt; answer == Err("fault"));
    assert!(rt; source.left().len() == 0);
}

#[test]
fn a_sink_takes_what_is_put(rt: HostRuntime) {
    let alloc = rt.alloc();
    let mut sink = ample(&rt, MemSink::new(alloc, 4));
    assert!(rt; is_put(&mut sink, b"abc"));
    assert!(rt; !is_put(&mut sink, b"de"));
    assert!(rt; sink.taken() == b"abcd".as_slice());
}

#[test]
fn a_listed_call_of_a_sink_fails(rt: HostRuntime) {
    let alloc = rt.alloc();
    let failing = list(&rt, alloc, &[2]);
    let mut sink = ample(&rt, FlakySink::new(alloc, 9, failing));
    assert!(rt; is_put(&mut sink, b"abc"));
    assert!(rt; !is_put(&mut sink, b"de"));
    assert!(rt; is_put(&mut sink, b"fg"));
    assert!(rt; sink.taken() == b"abcfg".as_slice());
}

#[test]
fn a_slow_source_gives_a_few_bytes_at_a_time(rt: HostRuntime) {
    let alloc = rt.alloc();
    let mut source = SlowSource::new(list(&rt, alloc, b"abcde"), 2);
    let mut room = [0; 4];
    for (want, left) in [(2, 3), (2, 1), (1, 0), (0, 0)] {
        assert!(rt; source.read(&mut room).ok() == Some(want));
        assert!(rt; source.left().len() == left);
    }
}

#[test]
fn a_slow_sink_takes_a_few_bytes_at_a_time(rt: HostRuntime) {
    let alloc = rt.alloc();
    let mut sink = ample(&rt, SlowSink::new(alloc, 3, 2));
    for (piece, want) in [
        ("abc", Some(2)),
        ("cd", Some(1)),
        ("d", None),
        ("", Some(0)),
    ] {
        assert!(rt; sink.write(piece.as_bytes()).ok() == want);
    }
    assert!(rt; sink.taken() == b"abc".as_slice());
}

#[test]
fn readers_and_writers_of_std_serve(rt: HostRuntime) {
    let alloc = rt.alloc();
    let mut source = StdSource::new(b"abc".as_slice());
    let answer = length(alloc, &mut source, 9);
    assert!(rt; answer == Ok(3));

    let mut room = [0; 4];
    let mut sink = StdSink::new(room.as_mut_slice());
    assert!(rt; is_put(&mut sink, b"abc"));
    // The writer takes one byte, and then none.
    assert!(rt; !is_put(&mut sink, b"de"));
}

/// A reader and writer of std of which nothing works.
#[derive(Drop)]
struct Broken;

impl Read for Broken {
    fn read(&mut self, _buf: &mut [u8]) -> io::Result<usize> {
        Err(ErrorKind::Other.into())
    }
}

impl Write for Broken {
    fn write(&mut self, _piece: &[u8]) -> io::Result<usize> {
        Err(ErrorKind::Other.into())
    }

    fn flush(&mut self) -> io::Result<()> {
        Err(ErrorKind::Other.into())
    }
}

#[test]
fn an_error_of_std_is_a_fault(rt: HostRuntime) {
    let mut source = StdSource::new(Broken);
    let answer = length(rt.alloc(), &mut source, 9);
    assert!(rt; answer == Err("fault"));
    assert!(rt; !is_put(&mut StdSink::new(Broken), b"a"));
}
