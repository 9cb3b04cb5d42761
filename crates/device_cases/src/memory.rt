//! The forms in memory, each call once, and one that fails.

use mast_base::{Bytes, List, NoMemory};
use mast_world::{
    Failed, FileId, MemFile, MemSink, MemSource, MemVolume, Sink, Source, StoreFault, Volume,
};
use std::alloc::{AllocError, Global};
use std::test::Fail;

fn second(alloc: Global) -> Result<List<u64>, AllocError> {
    let mut calls = List::new(alloc);
    calls.push(2)?;
    Ok(calls)
}

#[test]
fn a_file_goes_on_with_its_fill(rt: HostRuntime) -> Result<(), Fail> {
    let alloc = rt.alloc();
    let mut files = List::new(alloc);
    files.push(MemFile {
        name: Bytes::copy_of(alloc, b"a")?,
        size: 1 << 40,
        fill: 7,
        bytes: Bytes::copy_of(alloc, b"xyz")?,
    })?;
    let mut source = MemSource::new(files, second(alloc)?);
    assert_eq!(rt; source.find(b"a"), Ok(Some(1 << 40)));
    assert_eq!(rt; source.find(b"a"), Err(Failed));
    assert_eq!(rt; source.find(b"b"), Ok(None));
    assert_eq!(rt; source.absent(), 1);
    assert_eq!(rt; source.taken(), 0);
    Ok(())
}

#[test]
fn a_volume_keeps_its_files(rt: HostRuntime) -> Result<(), Fail> {
    let alloc = rt.alloc();
    let mut volume = MemVolume::new(alloc, second(alloc)?);
    assert_eq!(rt; volume.write(FileId::Job, 0, b"abcd"), Ok(()));
    assert_eq!(rt; volume.sync(FileId::Job), Err(Failed));
    assert_eq!(rt; volume.cut(FileId::Job, 3), Ok(()));
    assert_eq!(rt; volume.len(FileId::Job), Ok(3));
    assert_eq!(rt; volume.len(FileId::Picture(1)), Ok(0));
    assert_eq!(rt; volume.bytes(FileId::Job), b"abc".as_slice());
    assert_eq!(rt; volume.put(FileId::Job), 4);
    Ok(())
}

#[test]
fn a_sink_appends(rt: HostRuntime) -> Result<(), Fail> {
    let alloc = rt.alloc();
    let mut sink = MemSink::new(alloc, second(alloc)?);
    assert_eq!(rt; sink.put(b"ab"), Ok(()));
    assert_eq!(rt; sink.put(b"cd"), Err(Failed));
    assert_eq!(rt; sink.put(b"ef"), Ok(()));
    assert_eq!(rt; sink.written(), b"abef".as_slice());
    Ok(())
}

#[test]
fn faults_are_printed(rt: HostRuntime) -> Result<(), Fail> {
    let alloc = rt.alloc();
    assert_eq!(rt; format!(in alloc; "{}", Failed)?.as_str(), "device fault");
    assert_eq!(rt; format!(in alloc; "{}", NoMemory)?.as_str(), "no memory");
    assert_eq!(rt;
        format!(in alloc; "{}", StoreFault)?.as_str(),
        "store fault"
    );
    Ok(())
}
