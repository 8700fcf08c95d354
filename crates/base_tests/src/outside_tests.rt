// Tests of what lies outside, in memory and on the host.
use sd_outside::{
    Cabinet, Failed, FetchError, HostCabinet, HostSink, HostSource, MemCabinet, MemSink, MemSource,
    NoMemory, Sink, Source,
};
use std::alloc::Global;
use std::fs;
use std::fs::File;

// A cabinet with a file that was added twice, of which two fetches fail.
fn cabinet(alloc: Global) -> Result<MemCabinet, NoMemory> {
    let mut cabinet = MemCabinet::new(alloc);
    cabinet.add("name", b"first")?;
    cabinet.add("name", b"second")?;
    cabinet.fail_at(1)?;
    cabinet.fail_at(3)?;
    Ok(cabinet)
}

// Whether these are the first three bytes of a file, and none where the fetch fails.
fn begins(alloc: Global, cabinet: &mut MemCabinet, name: &str, front: Option<&[u8]>) -> bool {
    match cabinet.fetch(alloc, name, 3) {
        Ok(bytes) => front == Some(bytes.bytes()),
        Err(error) => error == FetchError::Failed && front.is_none(),
    }
}

fn is_cabinet(alloc: Global) -> Result<bool, NoMemory> {
    let mut cabinet = cabinet(alloc)?;
    let second = Some(b"sec".as_slice());
    for (name, front) in [
        ("name", second),
        ("name", None),
        ("name", second),
        ("name", None),
        ("other", None),
        ("name", second),
    ] {
        if !begins(alloc, &mut cabinet, name, front) {
            return Ok(false);
        }
    }
    Ok(cabinet.failures() == 3)
}

#[test]
fn a_cabinet_in_memory_gives_what_was_added_last_and_fails_where_it_is_to(rt: HostRuntime) {
    assert!(rt; is_cabinet(rt.alloc()) == Ok(true));
}

fn is_source(alloc: Global) -> Result<bool, NoMemory> {
    let mut source = MemSource::new(alloc, b"abcdefg", 3)?;
    source.fail_at(1)?;
    source.fail_at(4)?;
    let mut room = [0u8; 4];
    for answer in [Ok(3), Err(Failed), Ok(3), Ok(1), Err(Failed), Ok(0)] {
        if source.pull(&mut room) != answer {
            return Ok(false);
        }
    }
    Ok(room[0] == b'g' && source.failures() == 2)
}

#[test]
fn a_source_in_memory_gives_pieces_and_fails_where_it_is_to(rt: HostRuntime) {
    assert!(rt; is_source(rt.alloc()) == Ok(true));
}

fn is_sink(alloc: Global) -> Result<bool, NoMemory> {
    let mut sink = MemSink::new(alloc, 5)?;
    sink.fail_at(1)?;
    for (piece, answer) in [
        ("ab", Ok(())),
        ("x", Err(Failed)),
        ("c", Ok(())),
        ("defg", Err(Failed)),
    ] {
        if sink.put(piece.as_bytes()) != answer {
            return Ok(false);
        }
    }
    Ok(sink.written() == b"abcde".as_slice() && sink.failures() == 2)
}

#[test]
fn a_sink_in_memory_takes_what_fits_and_fails_where_it_is_to(rt: HostRuntime) {
    assert!(rt; is_sink(rt.alloc()) == Ok(true));
}

// Bytes of which neighbouring blocks differ.
fn long_content(alloc: Global) -> Result<Vec<u8>, NoMemory> {
    let mut content = Vec::new(alloc);
    for i in 0..100_000u32 {
        content.push((i % 251) as u8)?;
    }
    Ok(content)
}

// Whether a cabinet answers so many of these bytes, and none where it is to fail.
fn answers<C: Cabinet>(
    alloc: Global,
    cabinet: &mut C,
    file: (&str, usize),
    long: &[u8],
    size: Option<usize>,
) -> bool {
    let (name, most) = file;
    match cabinet.fetch(alloc, name, most) {
        Ok(bytes) => size == Some(bytes.bytes().len()) && long.starts_with(bytes.bytes()),
        Err(error) => error == FetchError::Failed && size.is_none(),
    }
}

fn is_host_cabinet(rt: &HostRuntime) -> bool {
    let Ok(long) = long_content(rt.alloc()) else {
        return false;
    };
    let long = long.as_slice();
    let mut cabinet = HostCabinet::new(rt);
    let mut is_so = fs::write(rt, "long", long).is_ok();
    for (name, most, size) in [
        ("long", 0, Some(0)),
        ("long", 1, Some(1)),
        ("long", 99_999, Some(99_999)),
        ("long", 100_001, Some(100_000)),
        ("absent", 10, None),
        (".", 10, None),
        ("", 10, None),
    ] {
        is_so = answers(rt.alloc(), &mut cabinet, (name, most), long, size) && is_so;
    }
    is_so
}

#[test]
fn files_of_the_host_are_read_in_part_and_in_whole(rt: HostRuntime) {
    assert!(rt; is_host_cabinet(&rt));
}

fn is_host_source(rt: &HostRuntime) -> bool {
    let is_written = fs::write(rt, "given", b"abc".as_slice()).is_ok();
    let Ok(given) = File::open(rt, "given") else {
        return false;
    };
    let mut source = HostSource::new(given);
    let mut room = [0u8; 2];
    let first = source.pull(&mut room) == Ok(2) && room == [b'a', b'b'];
    let second = source.pull(&mut room) == Ok(1) && room[0] == b'c';
    let third = source.pull(&mut room) == Ok(0);
    let Ok(written) = File::create(rt, "written") else {
        return false;
    };
    let mut closed = HostSource::new(written);
    is_written && first && second && third && closed.pull(&mut room) == Err(Failed)
}

#[test]
fn streams_of_the_host_give_what_they_have(rt: HostRuntime) {
    assert!(rt; is_host_source(&rt));
}

fn is_host_sink(rt: &HostRuntime) -> bool {
    let Ok(long) = long_content(rt.alloc()) else {
        return false;
    };
    let Ok(written) = File::create(rt, "written") else {
        return false;
    };
    let mut sink = HostSink::new(written);
    let put = sink.put(long.as_slice()).is_ok() && sink.put(b"").is_ok();
    let Ok(full) = File::create(rt, "/dev/full") else {
        return false;
    };
    let mut full = HostSink::new(full);
    let Ok(file) = fs::read(rt, "written") else {
        return false;
    };
    put && full.put(b"a") == Err(Failed) && file.as_slice() == long.as_slice()
}

#[test]
fn streams_of_the_host_take_whole_pieces_or_fail(rt: HostRuntime) {
    assert!(rt; is_host_sink(&rt));
}
