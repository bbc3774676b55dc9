// What a log is found to hold, and what each fault of a disk and each stop leave of one that is cleared.
use sea_disk::{Disk, File, Fuse, MemDisk};
use sea_log::{LogFault, Scan, append, begin, clear, scan};
use std::alloc::{AllocError, Global};
use std::process::Abort;
use std::test::Fail;

// How many bytes the log here may have at most.
const MOST: u64 = 1_000;

// How many payloads are found where only what is safe is left, where all that was written is, and the worst of it: for a
// clear whose first, second, third and last call fails, and for a stop behind none of them, one, two, three and all.
const AFTER_FAULTS: &str = "222 202 000 000";

const AFTER_STOPS: &str = "222 202 000 000 000";

// A log of two records, all of it safe.
fn two_records(alloc: Global) -> Result<MemDisk, Fail> {
    let mut disk = MemDisk::blank(alloc)?;
    begin(&mut disk, File::Log0)?;
    let end = append(alloc, &mut disk, File::Log0, 0, b"one", MOST)?;
    append(alloc, &mut disk, File::Log0, end, b"", MOST)?;
    Ok(disk)
}

// The digit of how many payloads a stop leaves by choice.
fn found(alloc: Global, disk: &MemDisk, choice: u8) -> Result<char, Fail> {
    let mut image = disk.image(choice)?;
    let count = scan(alloc, &mut image, File::Log0)?.payloads.len();
    Ok(match count {
        0 => '0',
        1 => '1',
        2 => '2',
        _ => '9',
    })
}

// Stops a test where a stop leaves other payloads than these three digits say.
fn leaves(rt: &impl Abort, alloc: Global, disk: &MemDisk, want: &str) -> Result<(), Fail> {
    let mut digits = String::new(alloc);
    for choice in 0..3 {
        digits.push(found(alloc, disk, choice)?)?;
    }
    assert_eq!(rt; digits.as_str(), want);
    Ok(())
}

fn fault_in_a_clear(rt: &impl Abort, alloc: Global, call: u64, want: &str) -> Result<(), Fail> {
    let mut disk = two_records(alloc)?;
    disk.fail(disk.calls().saturating_add(call))?;
    assert_eq!(rt; clear(&mut disk, File::Log0), Err(LogFault::DiskFault));
    assert_eq!(rt; disk.faults(), 1);
    leaves(rt, alloc, &disk, want)
}

fn stop_in_a_clear(rt: &impl Abort, alloc: Global, calls: u64, want: &str) -> Result<(), Fail> {
    let mut fuse = Fuse::over(two_records(alloc)?, calls);
    let answer = clear(&mut fuse, File::Log0);
    assert_eq!(rt; answer.is_ok(), calls == 4);
    leaves(rt, alloc, &fuse.into_disk(), want)
}

#[test]
fn a_clear_leaves_the_list_or_none(rt: HostRuntime) -> Result<(), Fail> {
    for (call, want) in (1..).zip(AFTER_FAULTS.split(' ')) {
        fault_in_a_clear(&rt, rt.alloc(), call, want)?;
    }
    for (calls, want) in (0..).zip(AFTER_STOPS.split(' ')) {
        stop_in_a_clear(&rt, rt.alloc(), calls, want)?;
    }
    let mut disk = two_records(rt.alloc())?;
    clear(&mut disk, File::Log0)?;
    let mut gate = [9u8];
    disk.read(File::Log0, 0, &mut gate)?;
    assert_eq!(rt; (disk.size(File::Log0), gate), (Ok(1), [0]));
    let found = scan(rt.alloc(), &mut disk, File::Log0)?;
    assert_eq!(rt; (found.end, found.payloads.len()), (0, 0));
    Ok(())
}

// The bytes of files, and behind an arrow the end of the log and the bytes of each payload, with a semicolon behind it; or
// that the file is no log. A record is a gate of 1, four bytes of length and the payload; a gate that isn't 1 is closed.
const FILES: &str = " -> 0:
1 0 0 0 0 -> 0:
2 0 0 0 0 9 -> 0:
1 0 0 0 0 0 -> 5: ;
1 0 0 0 1 97 1 0 0 0 0 255 1 -> 11: 97 ; ;
1 0 0 0 19 0 0 0 0 0 0 0 7 4 0 0 0 1 0 0 0 1 1 97 0 -> 24: 0 0 0 0 0 0 0 7 4 0 0 0 1 0 0 0 1 1 97 ;
1 0 0 0 1 97 -> BadLog
1 0 0 0 1 97 1 0 -> BadLog
1 255 255 255 255 97 0 -> BadLog";

// A disk whose log has these bytes and nothing else.
fn disk_with(alloc: Global, numbers: &str) -> Result<MemDisk, Fail> {
    let mut bytes = Vec::new(alloc);
    for number in numbers.split(' ') {
        if !number.is_empty() {
            bytes.push(number.parse::<u8>().ok().ok_or("no byte")?)?;
        }
    }
    let mut disk = MemDisk::blank(alloc)?;
    disk.write_at(File::Log0, 0, bytes.as_slice())?;
    Ok(disk)
}

// The end of a log and its payloads.
fn shown(alloc: Global, log: &Scan) -> Result<String, AllocError> {
    let mut all = format!(in alloc; "{}:", log.end)?;
    for payload in log.payloads.as_slice() {
        for byte in payload.as_slice() {
            all.push_str(format!(in alloc; " {byte}")?.as_str())?;
        }
        all.push_str(" ;")?;
    }
    Ok(all)
}

#[test]
fn files_hold_a_list_or_none(rt: HostRuntime) -> Result<(), Fail> {
    let alloc = rt.alloc();
    for line in FILES.lines() {
        let (numbers, wanted) = line.split_once(" -> ").unwrap_or((line, ""));
        let found = match scan(alloc, &mut disk_with(alloc, numbers)?, File::Log0) {
            Ok(log) => shown(alloc, &log)?,
            Err(fault) => format!(in alloc; "{fault:?}")?,
        };
        assert_eq!(rt; found.as_str(), wanted, "{line}");
    }
    Ok(())
}

// How many bytes payloads have, from none to one more than are read at once.
const SIZES: &str = "0 1 600000 600000 1048576 1048577 3";

// How many bytes a log of them may have at most.
const ROOM: u64 = 268_435_456;

// Appends a payload to the second log for each size: the first of bytes 0, the second of bytes 1, and so on. Answers the end.
fn append_all(alloc: Global, disk: &mut MemDisk) -> Result<u64, Fail> {
    let mut end = 0;
    for (at, size) in SIZES.split(' ').enumerate() {
        let size = size.parse::<usize>().ok().ok_or("no number")?;
        let payload = vec![in alloc; (at % 251) as u8; size]?;
        end = append(alloc, disk, File::Log1, end, payload.as_slice(), ROOM)?;
    }
    Ok(end)
}

// Whether all of some bytes are the same one.
fn are_all(bytes: &[u8], mark: u8) -> bool {
    bytes.iter().all(|byte| *byte == mark)
}

#[test]
fn payloads_of_any_size_are_read_again(rt: HostRuntime) -> Result<(), Fail> {
    let mut disk = MemDisk::blank(rt.alloc())?;
    begin(&mut disk, File::Log1)?;
    let end = append_all(rt.alloc(), &mut disk)?;
    let found = scan(rt.alloc(), &mut disk, File::Log1)?;
    // five bytes before each payload
    assert_eq!(rt;
        (found.end, end, found.payloads.len()),
        (3_297_192, 3_297_192, 7)
    );
    for (at, size) in SIZES.split(' ').enumerate() {
        let payload = found.payloads.as_slice().get(at).ok_or("no payload")?;
        assert_eq!(rt; Some(payload.len()), size.parse::<usize>().ok());
        assert!(rt; are_all(payload.as_slice(), (at % 251) as u8), "at {size}");
    }
    Ok(())
}
