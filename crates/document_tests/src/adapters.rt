//! Sources and sinks over files.
use link::{Sink, StdSink, StdSource, WriteFailed, read_at_most};
use std::alloc::Global;
use std::fs::File;
use std::io::BufWriter;
use std::test::Fail;

fn puts<S: Sink>(sink: &mut S, bytes: &[u8], put: Result<(), WriteFailed>) -> bool {
    sink.put(bytes) == put
}

fn flushes<S: Sink>(sink: &mut S, flushed: Result<(), WriteFailed>) -> bool {
    sink.flush() == flushed
}

fn puts_to_a_file<S: Sink>(sink: &mut S) -> bool {
    puts(sink, b"to a ", Ok(())) && puts(sink, b"file", Ok(())) && flushes(sink, Ok(()))
}

fn writes_by(buffer: BufWriter<File>) -> bool {
    puts_to_a_file(&mut StdSink::new(buffer))
}

fn writes_to(alloc: Global, file: File) -> bool {
    match BufWriter::new(alloc, file) {
        Ok(buffer) => writes_by(buffer),
        Err(_) => false,
    }
}

fn reads_from(alloc: Global, file: File) -> bool {
    let mut source = StdSource::new(file);
    match read_at_most(alloc, &mut source, 100) {
        Ok(bytes) => bytes.as_slice() == b"to a file".as_slice() && source.fault().is_none(),
        Err(_) => false,
    }
}

#[test]
fn writes_and_reads_a_file(rt: HostRuntime) -> Result<(), Fail> {
    let file = File::create(&rt, "streams")?;
    assert!(rt; writes_to(rt.alloc(), file));
    let file = File::open(&rt, "streams")?;
    assert!(rt; reads_from(rt.alloc(), file));
    Ok(())
}

// A write to a file that is open to read fails.
fn fails_to_write(file: File) -> bool {
    let mut closed = StdSink::new(file);
    puts(&mut closed, b"x", Err(WriteFailed)) && closed.fault().is_some()
}

#[test]
fn fails_to_write_to_what_is_open_to_read(rt: HostRuntime) -> Result<(), Fail> {
    drop(File::create(&rt, "closed")?);
    let file = File::open(&rt, "closed")?;
    assert!(rt; fails_to_write(file));
    Ok(())
}

fn fails_to_flush<S: Sink>(held_back: &mut S) -> bool {
    puts(held_back, b"x", Ok(())) && flushes(held_back, Err(WriteFailed))
}

fn holds_back_by(buffer: BufWriter<File>) -> bool {
    fails_to_flush(&mut StdSink::new(buffer))
}

// What a buffer holds back fails only when it is flushed.
fn holds_back(alloc: Global, file: File) -> bool {
    match BufWriter::new(alloc, file) {
        Ok(buffer) => holds_back_by(buffer),
        Err(_) => false,
    }
}

#[test]
fn fails_when_it_is_flushed(rt: HostRuntime) -> Result<(), Fail> {
    drop(File::create(&rt, "held_back")?);
    let file = File::open(&rt, "held_back")?;
    assert!(rt; holds_back(rt.alloc(), file));
    Ok(())
}
