// What a stop may leave of a disk in memory, and what a fuse passes on.
use sea_disk::{Disk, Failed, File, Fuse, MemDisk, cut_through, write_through};
use std::alloc::Global;
use std::process::Abort;
use std::test::Fail;

// What a stop leaves of a log file by choice.
fn left(alloc: Global, disk: &MemDisk, choice: u8) -> Result<Vec<u8>, Fail> {
    let mut image = disk.image(choice)?;
    let size = image.size(File::Log0)?;
    let mut bytes = vec![in alloc; 0; size as usize]?;
    image.read(File::Log0, 0, bytes.as_mut_slice())?;
    Ok(bytes)
}

// Stops a test where a stop doesn't leave these bytes: what is safe, all that was written, or the worst of it.
fn leaves(
    rt: &impl Abort,
    alloc: Global,
    disk: &MemDisk,
    safe: &[u8],
    all: &[u8],
    worst: &[u8],
) -> Result<(), Fail> {
    assert_eq!(rt; left(alloc, disk, 0)?.as_slice(), safe);
    assert_eq!(rt; left(alloc, disk, 1)?.as_slice(), all);
    assert_eq!(rt; left(alloc, disk, 2)?.as_slice(), worst);
    Ok(())
}

// A log file of which four bytes are safe, and some written and cut off since.
fn changed(alloc: Global) -> Result<MemDisk, Fail> {
    let mut disk = MemDisk::blank(alloc)?;
    write_through(&mut disk, File::Log0, 0, b"abcd")?;
    disk.write_at(File::Log0, 1, b"XY")?;
    disk.write_at(File::Log0, 5, b"Z")?;
    disk.cut(File::Log0, 5)?;
    Ok(disk)
}

// A log file of which four bytes are safe, and whose next cut, write and sync fail.
fn faulty(alloc: Global) -> Result<MemDisk, Fail> {
    let mut disk = MemDisk::blank(alloc)?;
    for call in 3..6 {
        disk.fail(call)?;
    }
    write_through(&mut disk, File::Log0, 0, b"safe")?;
    let _ = disk.cut(File::Log0, 1);
    let _ = disk.write_at(File::Log0, 3, b"not");
    let _ = disk.sync(File::Log0);
    Ok(disk)
}

#[test]
fn a_stop_leaves_what_is_safe_and_may_change_the_rest(rt: HostRuntime) -> Result<(), Fail> {
    let disk = changed(rt.alloc())?;
    assert_eq!(rt; (disk.calls(), disk.faults()), (5, 0));
    leaves(
        &rt,
        rt.alloc(),
        &disk,
        b"abcd",
        b"aXYd\0",
        b"a\x01\x01d\x01\x01",
    )?;
    let disk = faulty(rt.alloc())?;
    assert_eq!(rt; (disk.calls(), disk.faults()), (5, 3));
    leaves(
        &rt,
        rt.alloc(),
        &disk,
        b"safe",
        b"safe",
        b"s\x01\x01\x01\x01\x01",
    )
}

#[test]
fn a_fuse_passes_so_many_calls_on(rt: HostRuntime) -> Result<(), Fail> {
    let mut fuse = Fuse::over(MemDisk::blank(rt.alloc())?, 6);
    assert_eq!(rt; write_through(&mut fuse, File::Log0, 1, b"abcd"), Ok(()));
    assert_eq!(rt; fuse.size(File::Log0), Ok(5));
    assert_eq!(rt; cut_through(&mut fuse, File::Log0, 4), Ok(()));
    assert_eq!(rt; write_through(&mut fuse, File::Log0, 0, b"x"), Err(Failed));
    assert_eq!(rt; cut_through(&mut fuse, File::Log0, 0), Err(Failed));
    assert_eq!(rt; fuse.size(File::Log0), Err(Failed));
    assert_eq!(rt; fuse.faults(), 3);
    let disk = fuse.into_disk();
    assert_eq!(rt; (disk.calls(), disk.faults()), (6, 0));
    leaves(&rt, rt.alloc(), &disk, b"\0abc", b"xabc", b"\x01abc")
}
