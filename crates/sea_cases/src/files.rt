// The files of a disk: what stands in them before a run, and what has to stand there after it.
use crate::bytes::bytes_of;
use crate::lines::{behind, cut, number};
use sea_disk::{Disk, File, MemDisk};
use std::alloc::{AllocError, Global};

/// The file of a name.
pub fn file_named(name: &str) -> Option<File> {
    match name {
        "base0" => Some(File::Base0),
        "base1" => Some(File::Base1),
        "log0" => Some(File::Log0),
        "log1" => Some(File::Log1),
        "arch" => Some(File::Arch),
        _ => None,
    }
}

/// The disk with what a run puts into its files first.
pub fn filled(alloc: Global, run: &str, disk: MemDisk) -> Result<MemDisk, AllocError> {
    let mut disk = disk;
    for line in run.split('\n') {
        if let Some(rest) = behind(line, "@file") {
            put(alloc, rest, &mut disk)?;
        }
    }
    Ok(disk)
}

// Writes bytes at the start of a file, and syncs it. A disk that is to fail no call has no other fault than no memory.
fn put(alloc: Global, rest: &str, disk: &mut MemDisk) -> Result<(), AllocError> {
    let (name, text) = cut(rest);
    let Some(file) = file_named(name) else {
        return Ok(());
    };
    let bytes = bytes_of(alloc, text)?;
    write(file, bytes.as_slice(), disk)
}

fn write(file: File, bytes: &[u8], disk: &mut MemDisk) -> Result<(), AllocError> {
    let Ok(()) = disk.write_at(file, 0, bytes) else {
        return Err(AllocError);
    };
    let Ok(()) = disk.sync(file) else {
        return Err(AllocError);
    };
    Ok(())
}

/// What differs from what a run wants of its files.
pub fn differs(alloc: Global, run: &str, disk: &MemDisk) -> Result<Option<String>, AllocError> {
    for line in run.split('\n') {
        if let Some(what) = line_differs(alloc, line, disk)? {
            return Ok(Some(what));
        }
    }
    Ok(None)
}

fn line_differs(alloc: Global, line: &str, disk: &MemDisk) -> Result<Option<String>, AllocError> {
    let (name, rest) = cut(line);
    if name == "@size" {
        return size_differs(alloc, rest, disk);
    }
    if name == "@holds" {
        return bytes_differ(alloc, rest, disk);
    }
    Ok(None)
}

// The bytes of the file of a name.
fn bytes_in<'a>(name: &str, disk: &'a MemDisk) -> &'a [u8] {
    match file_named(name) {
        Some(file) => disk.history.bytes(file),
        None => &[],
    }
}

fn size_differs(alloc: Global, rest: &str, disk: &MemDisk) -> Result<Option<String>, AllocError> {
    let (name, size) = cut(rest);
    let came = bytes_in(name, disk).len() as u64;
    if number(size) == Some(came) {
        return Ok(None);
    }
    let what = format!(in alloc; "{name} has {came} bytes, wanted {size}")?;
    Ok(Some(what))
}

fn bytes_differ(alloc: Global, rest: &str, disk: &MemDisk) -> Result<Option<String>, AllocError> {
    let (name, rest) = cut(rest);
    let (at, text) = cut(rest);
    let wanted = bytes_of(alloc, text)?;
    let file = bytes_in(name, disk);
    let came = part(file, number(at).unwrap_or(0), wanted.len());
    if came == wanted.as_slice() {
        return Ok(None);
    }
    let shown = hexadecimal(alloc, came)?;
    let what = format!(in alloc; "{name} holds {shown} at {at}, wanted {text}")?;
    Ok(Some(what))
}

// So many bytes of a file from a place on, or as many as there are.
fn part(file: &[u8], at: u64, count: usize) -> &[u8] {
    let rest = file.get(at as usize..).unwrap_or(&[]);
    rest.get(..count).unwrap_or(rest)
}

fn hexadecimal(alloc: Global, bytes: &[u8]) -> Result<String, AllocError> {
    let mut text = String::new(alloc);
    for byte in bytes {
        let byte = *byte;
        text.push_str(format!(in alloc; "{byte:02x}")?.as_str())?;
    }
    Ok(text)
}
