// The lines of a source, whatever the size of its pieces.
use sea_edge::MemSource;
use sea_lines::LineReader;
use std::alloc::Global;
use std::process::Abort;
use std::test::Fail;

// Five lines. Two are empty, one ends with a return, and the last newline may be left out.
const TEXT: &str = "one\n\ntwo\r\n\nthree\n";

// The most bytes that one take gives, how many bytes of the text there are, and how many were taken behind each line and at
// the end: up to the piece that has the line's newline. One byte a take shows how many bytes are read as lines.
const TAKEN: &str = "1 17 -> 4 5 10 11 17 17
1 16 -> 4 5 10 11 16 16
3 17 -> 6 6 12 12 17 17
3 16 -> 6 6 12 12 16 16
1000 17 -> 17 17 17 17 17 17
1000 16 -> 16 16 16 16 16 16";

// Stops a test where the next line is another one, or another number of bytes was taken behind it.
fn is_next(
    rt: &impl Abort,
    alloc: Global,
    reader: &mut LineReader,
    source: &mut MemSource,
    line: Option<&str>,
    taken: &str,
) -> Result<(), Fail> {
    let read = reader.next_line(alloc, source)?;
    assert_eq!(rt;
        read.as_ref().map(|bytes| bytes.as_slice()),
        line.map(|line| line.as_bytes())
    );
    assert_eq!(rt; Some(source.given), taken.parse::<usize>().ok());
    Ok(())
}

// Stops a test where a source of so many bytes of the text has other lines, or further ones behind them.
fn has_lines(
    rt: &impl Abort,
    alloc: Global,
    piece: usize,
    count: usize,
    taken: &str,
) -> Result<(), Fail> {
    let bytes = TEXT.as_bytes().get(..count).ok_or("no such text")?;
    assert!(rt; 0 < piece);
    let mut source = MemSource::new(Vec::from_slice(alloc, bytes)?, piece, Vec::new(alloc));
    let mut reader = LineReader::new(alloc)?;
    let mut lines = "one,,two\r,,three".split(',');
    for taken in taken.split(' ') {
        is_next(rt, alloc, &mut reader, &mut source, lines.next(), taken)?;
    }
    Ok(())
}

#[test]
fn lines_are_read_in_pieces_of_any_size(rt: HostRuntime) -> Result<(), Fail> {
    for row in TAKEN.lines() {
        let (sizes, taken) = row.split_once(" -> ").unwrap_or((row, ""));
        let (piece, count) = sizes.split_once(' ').unwrap_or((sizes, ""));
        let piece: usize = piece.parse().unwrap_or(0);
        let count: usize = count.parse().unwrap_or(0);
        has_lines(&rt, rt.alloc(), piece, count, taken)?;
    }
    Ok(())
}
