ghost use Rattle.std.specs.Prelude.{◌<◌};

use crate::{
    Failed, MemSink, MemSource, NoMemory, ReadStop, Sink, Source, StdSink, StdSource, WriteStop,
    read_all, write_all,
};
use std::alloc::Global;
use std::io::Cursor;
use std::test::Fail;

fn source(alloc: Global, bytes: &[u8], fails: &[u64]) -> Result<MemSource, Fail> {
    Ok(MemSource::new(bytes.to_vec(alloc)?, fails.to_vec(alloc)?))
}

fn sink(alloc: Global, room: usize, step: usize, fails: &[u64]) -> Result<MemSink, Fail>
    requires { 0 < step }
{
    let fails = fails.to_vec(alloc)?;
    Ok(MemSink::new(alloc, room, step, fails)?)
}

#[test]
fn reads_all_that_is_no_more_than_the_limit(rt: HostRuntime) -> Result<(), Fail> {
    let alloc = rt.alloc();
    for (most, length, end) in [
        (3, 3, Ok(3)),
        (3, 4, Err(ReadStop::TooLarge)),
        (5000, 5000, Ok(5000)),
    ] {
        let bytes = vec![in alloc; 7u8; length]?;
        let mut from = source(alloc, &bytes, &[])?;
        let read = read_all(alloc, &mut from, most).map(|read| read.len());
        assert_eq!(rt; read, end, "{length} bytes");
    }
    Ok(())
}

#[test]
fn fails_at_the_reads_that_it_was_told(rt: HostRuntime) -> Result<(), Fail> {
    let alloc = rt.alloc();
    let mut from = source(alloc, b"abc", &[2])?;
    let mut out = [0; 2];
    assert_eq!(rt; from.read(&mut out), Ok(2));
    assert_eq!(rt; from.read(&mut out), Err(Failed));
    assert_eq!(rt; from.read(&mut out), Ok(1));
    assert_eq!(rt; from.read(&mut out), Ok(0));
    let mut from = source(alloc, b"abc", &[1])?;
    assert_eq!(rt;
        read_all(alloc, &mut from, 9).map(|read| read.len()),
        Err(ReadStop::Failed)
    );
    Ok(())
}

#[test]
fn takes_what_its_room_and_its_step_allow(rt: HostRuntime) -> Result<(), Fail> {
    let alloc = rt.alloc();
    let mut to = sink(alloc, 5, 2, &[])?;
    assert_eq!(rt; write_all(&mut to, b"abcd"), Ok(()));
    assert_eq!(rt; to.flush(), Ok(()));
    assert_eq!(rt; write_all(&mut to, b"ef"), Err(WriteStop::Failed));
    assert_eq!(rt; to.taken(), b"abcde".as_slice());
    let mut to = sink(alloc, 9, 2, &[2])?;
    assert_eq!(rt; write_all(&mut to, b"abcd"), Err(WriteStop::Failed));
    assert_eq!(rt; to.taken(), b"ab".as_slice());
    Ok(())
}

#[test]
fn a_reader_takes_one_byte_more_than_its_limit_at_most(rt: HostRuntime) -> Result<(), Fail> {
    let alloc = rt.alloc();
    let mut from = source(alloc, b"abcde", &[])?;
    assert_eq!(rt;
        read_all(alloc, &mut from, 2).map(|read| read.len()),
        Err(ReadStop::TooLarge)
    );
    let mut out = [0; 9];
    assert_eq!(rt; from.read(&mut out), Ok(2));
    assert_eq!(rt; &out[..2], b"de".as_slice());
    Ok(())
}

#[test]
fn std_readers_pass_bytes_on(rt: HostRuntime) -> Result<(), Fail> {
    let alloc = rt.alloc();
    let mut from = StdSource::new(Cursor::new(b"abc".as_slice()));
    let read = read_all(alloc, &mut from, 3).map_err(|_| NoMemory)?;
    assert_eq!(rt; read.as_slice(), b"abc".as_slice());
    Ok(())
}

#[test]
fn std_writers_take_what_is_passed_on(rt: HostRuntime) -> Result<(), Fail> {
    let alloc = rt.alloc();
    let mut passed = Vec::new(alloc);
    let mut to = StdSink::new(&mut passed);
    assert_eq!(rt; write_all(&mut to, b"abc"), Ok(()));
    assert_eq!(rt; to.flush(), Ok(()));
    drop(to);
    assert_eq!(rt; passed.as_slice(), b"abc".as_slice());
    Ok(())
}
