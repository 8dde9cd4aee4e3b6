ghost use Rattle.std.specs.Prelude.{◌<◌};

use ocr_io::{
    MemorySink, MemorySource, ReadStop, Sink, Source, StderrSink, StdinSource, StdoutSink,
    WriteStop, read_all, write_all,
};
use std::alloc::Global;
use std::test::Fail;

fn source(alloc: Global, text: &str, most: usize, fails: &[u64]) -> Result<MemorySource, Fail>
    requires { 0 < most }
{
    let bytes = text.as_bytes().to_vec(alloc)?;
    Ok(MemorySource::new(bytes, most, fails.to_vec(alloc)?))
}

fn sink(alloc: Global, room: usize, most: usize, fails: &[u64]) -> Result<MemorySink, Fail>
    requires { 0 < most }
{
    let room = Vec::with_capacity(alloc, room)?;
    Ok(MemorySink::new(room, most, fails.to_vec(alloc)?))
}

// Reads through the bound alone, and answers what was read, why it stopped and how many reads
// failed.
fn read<S: Source>(rt: &HostRuntime, mut source: S, most: usize) -> (Result<Vec<u8>, ReadStop>, u64)
where
    S: Drop,
{
    let read = read_all(rt.alloc(), &mut source, most);
    (read, source.faults())
}

#[test]
fn reads_all_bytes_in_pieces(rt: HostRuntime) -> Result<(), Fail> {
    let (all, faults) = read(&rt, source(rt.alloc(), "0123456789", 3, &[])?, 20);
    assert_eq!(rt; all?.as_slice(), b"0123456789".as_slice());
    assert_eq!(rt; faults, 0);
    Ok(())
}

// Each source and sink is held in a function of a few calls: it is dropped on each way out.
fn stop_at(alloc: Global, most: usize) -> Result<Option<ReadStop>, Fail> {
    let mut input = source(alloc, "0123456789", 3, &[])?;
    Ok(read_all(alloc, &mut input, most).err())
}

#[test]
fn meets_the_limit_and_passes_it_by_one(rt: HostRuntime) -> Result<(), Fail> {
    assert_eq!(rt; stop_at(rt.alloc(), 10)?, None);
    assert_eq!(rt; stop_at(rt.alloc(), 9)?, Some(ReadStop::TooBig));
    assert_eq!(rt; stop_at(rt.alloc(), 0)?, Some(ReadStop::TooBig));
    let (none, _) = read(&rt, source(rt.alloc(), "", 3, &[])?, 0);
    assert!(rt; none?.is_empty());
    Ok(())
}

// The reads after one that failed go on where it stopped.
fn goes_on_after(alloc: Global, call: u64, left: usize) -> Result<bool, Fail> {
    let mut input = source(alloc, "0123456789", 3, &[call])?;
    let stop = read_all(alloc, &mut input, 20).err();
    let faults = input.faults();
    let rest = read_all(alloc, &mut input, 20)?;
    Ok(stop == Some(ReadStop::Failed) && faults == 1 && rest.len() == left)
}

#[test]
fn stops_at_a_read_that_fails(rt: HostRuntime) -> Result<(), Fail> {
    for (call, left) in [(0, 10), (2, 4), (4, 0)] {
        assert!(rt; goes_on_after(rt.alloc(), call, left)?, "after call {call}");
    }
    Ok(())
}

fn writes_up_to(alloc: Global, call: u64, wanted: &[u8]) -> Result<bool, Fail> {
    let mut out = sink(alloc, 10, 1, &[call])?;
    let written = write_all(&mut out, b"hello");
    let sent = wanted.len();
    Ok(written == Err(WriteStop { sent }) && out.bytes() == wanted && out.faults() == 1)
}

#[test]
fn writes_a_byte_at_a_time_up_to_a_fault(rt: HostRuntime) -> Result<(), Fail> {
    assert!(rt; writes_up_to(rt.alloc(), 0, b"")?);
    assert!(rt; writes_up_to(rt.alloc(), 2, b"he")?);
    assert!(rt; writes_up_to(rt.alloc(), 4, b"hell")?);
    Ok(())
}

fn fills_the_room(out: &mut MemorySink) -> bool {
    let first = write_all(out, b"hello");
    let second = write_all(out, b"hello");
    let are_sent = first == Ok(()) && second == Err(WriteStop { sent: 2 });
    are_sent && out.bytes() == b"hellohe".as_slice()
}

#[test]
fn writes_into_the_room_and_no_further(rt: HostRuntime) -> Result<(), Fail> {
    let mut out = sink(rt.alloc(), 7, 4, &[])?;
    assert!(rt; fills_the_room(&mut out));
    Ok(())
}

#[test]
fn adapts_readers(rt: HostRuntime) -> Result<(), Fail> {
    let (all, faults) = read(&rt, StdinSource::new(b"0123456789".as_slice()), 20);
    assert_eq!(rt; all?.as_slice(), b"0123456789".as_slice());
    assert_eq!(rt; faults, 0);
    Ok(())
}

#[test]
fn adapts_writers(rt: HostRuntime) {
    let mut held = Vec::new(rt.alloc());
    let first = write_all(&mut StdoutSink::new(&mut held), b"hello ");
    let second = write_all(&mut StderrSink::new(&mut held), b"world");
    assert!(rt; first == Ok(()) && second == Ok(()));
    assert_eq!(rt; held.as_slice(), b"hello world".as_slice());
}

#[test]
fn a_writer_with_no_room_takes_no_byte_which_is_a_fault(rt: HostRuntime) {
    let mut full = [0u8; 2];
    let mut out = StdoutSink::new(full.as_mut_slice());
    assert_eq!(rt; write_all(&mut out, b"abc"), Err(WriteStop { sent: 2 }));
    assert_eq!(rt; out.faults(), 1);
    let mut full = [0u8; 1];
    let mut err = StderrSink::new(full.as_mut_slice());
    assert_eq!(rt; (write_all(&mut err, b"a"), err.faults()), (Ok(()), 0));
    assert_eq!(rt; write_all(&mut err, b"bc"), Err(WriteStop { sent: 0 }));
    assert_eq!(rt; err.faults(), 1);
}
