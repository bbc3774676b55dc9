// Bases that are found again in a folder of the system, and the folder's files.
use sea_core::Limits;
use sea_disk::{Disk, Failed, File, FolderDisk};
use sea_drive::{Status, play};
use sea_edge::{FixedClock, MemSink, MemSource};
use std::alloc::{AllocError, Global};
use std::fs;
use std::test::Fail;

const FILES: [File; 5] = [File::Base0, File::Base1, File::Log0, File::Log1, File::Arch];

// What a file holds from a place on.
fn four_at(disk: &mut FolderDisk, file: File, at: u64) -> Result<[u8; 4], Failed> {
    let mut bytes = [0u8; 4];
    disk.read(file, at, &mut bytes)?;
    Ok(bytes)
}

#[test]
fn a_folder_keeps_what_was_written(rt: HostRuntime) -> Result<(), Fail> {
    fs::create_dir_all(&rt, "kept")?;
    let mut disk = FolderDisk::open(&rt, rt.alloc(), "kept")?;
    for file in FILES {
        assert_eq!(rt; disk.size(file), Ok(0));
    }
    disk.write_at(File::Log0, 3, b"abc")?;
    assert_eq!(rt; disk.size(File::Log0), Ok(6));
    assert_eq!(rt; four_at(&mut disk, File::Log0, 1), Ok([0, 0, b'a', b'b']));
    disk.cut(File::Log0, 5)?;
    disk.sync(File::Log0)?;
    disk.write_at(File::Arch, 0, b"slot")?;
    let mut again = FolderDisk::open(&rt, rt.alloc(), "kept")?;
    assert_eq!(rt; again.size(File::Log0), Ok(5));
    assert_eq!(rt; four_at(&mut again, File::Log0, 1), Ok([0, 0, b'a', b'b']));
    assert_eq!(rt; four_at(&mut again, File::Arch, 0), Ok(*b"slot"));
    assert_eq!(rt; again.size(File::Log1), Ok(0));
    assert_eq!(rt; again.faults(), 0);
    assert_eq!(rt; four_at(&mut again, File::Log0, 2), Err(Failed));
    assert_eq!(rt; again.faults(), 1);
    Ok(())
}

// The status of a script on the files of the folder, and its replies.
fn played(alloc: Global, script: &str, disk: FolderDisk) -> Result<(Status, Vec<u8>), AllocError> {
    let bytes = Vec::from_slice(alloc, script.as_bytes())?;
    let mut source = MemSource::new(bytes, 1_000, Vec::new(alloc));
    let mut sink = MemSink::new(Vec::new(alloc), Vec::new(alloc));
    let mut clock = FixedClock::new(0);
    let limits = Limits::standard();
    let (status, _disk) = play(alloc, limits, &mut source, &mut sink, disk, &mut clock);
    Ok((status, Vec::from_slice(alloc, sink.taken.as_slice())?))
}

// A table with a row.
const KEPT: &str = r#"op {"op":"insert_table","table":"T","columns":[{"name":"Name","type":"text"}]}
op {"op":"append_rows","table":"T","rows":[{"Name":"A"}]}
"#;

#[test]
fn a_base_is_found_again_in_its_folder(rt: HostRuntime) -> Result<(), Fail> {
    let alloc = rt.alloc();
    fs::create_dir_all(&rt, "box")?;
    let disk = FolderDisk::open(&rt, alloc, "box")?;
    let (status, _) = played(alloc, KEPT, disk)?;
    assert_eq!(rt; status, Status::Done);
    let disk = FolderDisk::open(&rt, alloc, "box")?;
    let (_, written) = played(alloc, "sql SELECT * FROM T", disk)?;
    assert!(rt; written.as_slice() == b"{\"columns\":[\"Name\"],\"rows\":[[\"A\"]]}\n".as_slice());
    Ok(())
}
