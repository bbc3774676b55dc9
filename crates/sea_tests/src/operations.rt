// Operations: the texts of those that no base takes, the plain base at the ends of its numbers, runs of entries, the check
// over a schema and the rows beside it, and the entry that a record has.
ghost use Rattle.std.specs.Prelude.{◌≡◌};

use sea_cell::{ColKind, Moment, NewColumn, NewEnd, RowId, TableNo, Text, Texts};
use sea_fields::Bytes;
use sea_operation::{
    Counter, Counters, Entries, Entry, Op, OpRefusal, Plain, PlainPairs, PlainTables, plain_named,
};
use sea_ops::{OpFault, RowsSeen, check, op_of_json, op_text};
use sea_plain::{apply_plain, run_plain};
use sea_record::entry_of_record;
use sea_schema::Schema;
use std::alloc::{AllocError, Global};
use std::process::Abort;
use std::test::Fail;

// Texts of operations, and behind an arrow the canonical one, where it is another.
const TEXTS: &str =
    r#"{"op":"append_rows","rows":[{"a":1,"b":-5,"c":18446744073709551615,"d":-9223372036854775808}],"table":"T"}
{"op":"append_rows","rows":[{"a":1e2,"b":1.5,"c":18446744073709551616,"d":-0}],"table":"T"} -> {"op":"append_rows","rows":[{"a":{},"b":{},"c":{},"d":{}}],"table":"T"}
{"op":"append_rows","rows":[{"e":{"x":[{}]},"f":[1],"g":1.0,"h":-9223372036854775809}],"table":"T"} -> {"op":"append_rows","rows":[{"e":{},"f":{},"g":{},"h":{}}],"table":"T"}
{"op":"append_rows","rows":[{"a":"1","_id":"r","_a":"2","Z":"3"}],"table":"T"} -> {"op":"append_rows","rows":[{"Z":"3","_a":"2","_id":"r","a":"1"}],"table":"T"}
{"to":"","table":"","op":"rename_table"} -> {"op":"rename_table","table":"","to":""}
{"column":"S","op":"add_options","options":["red","red",""],"table":"T"}
{"op":"modify_rows","rows":[{"_id":"no id at all"}],"table":"T"}
{"ids":["a","a",""],"op":"delete_rows","table":"T"}
{"op":"modify_view","table":"T","view":{"conjunction":"Or","filters":[{"column":"B","predicate":"is","term":1.5}],"name":"V"}} -> {"op":"modify_view","table":"T","view":{"conjunction":"Or","filters":[{"column":"B","predicate":"is","term":{}}],"name":"V"}}
{"op":"insert_view","table":"T","view":{"conjunction":"Or","filters":[{"column":"M","predicate":"no such","term":["x","x"]}],"name":""}}
{"op":"rename_table","table":"\u0054","to":"\"\\\/\b\f\n\r\t\u00e9"} -> {"op":"rename_table","table":"T","to":"\"\\/\b\f\n\r\té"}
"#;

// Stops a test where a text has another canonical one, or that one isn't its own.
fn is_canonical(rt: &impl Abort, alloc: Global, text: &str, wanted: &str) -> Result<(), Fail> {
    for one in [text, wanted] {
        let canonical = op_text(alloc, &op_of_json(alloc, one.as_bytes())?)?;
        assert!(rt; canonical.as_slice() == wanted.as_bytes(), "{text}");
    }
    Ok(())
}

#[test]
fn operations_that_no_base_takes_have_a_canonical_text(rt: HostRuntime) -> Result<(), Fail> {
    let alloc = rt.alloc();
    for line in TEXTS.lines() {
        let (text, wanted) = line.split_once(" -> ").unwrap_or((line, line));
        is_canonical(&rt, alloc, text, wanted)?;
    }
    let no_text = op_of_json(alloc, b"{\"op\":\"delete_table\",\"table\":\"\xff\"}");
    assert!(rt; matches!(no_text, Err(OpFault::BadOperation)));
    Ok(())
}

// The refusal where numbers are spent, with the name of what counts them.
fn spent_shown(alloc: Global, counter: Counter) -> Result<String, AllocError> {
    match counter {
        Counter::Version => format!(in alloc; "NumbersSpent version"),
        Counter::NextRow => format!(in alloc; "NumbersSpent next_row"),
        Counter::NextTable => format!(in alloc; "NumbersSpent next_table"),
        Counter::NextColumn => format!(in alloc; "NumbersSpent next_column"),
        Counter::NextLink => format!(in alloc; "NumbersSpent next_link"),
        Counter::Lsn => format!(in alloc; "NumbersSpent lsn"),
    }
}

// A refusal as its name and the text or number that it has.
fn refusal_shown(alloc: Global, refusal: &OpRefusal) -> Result<String, AllocError> {
    match refusal {
        OpRefusal::NumbersSpent { counter } => spent_shown(alloc, *counter),
        OpRefusal::NoTable { name } => format!(in alloc; "NoTable {}", name.as_str()),
        OpRefusal::BadName { name } => format!(in alloc; "BadName {}", name.as_str()),
        OpRefusal::DuplicateRow { id } => format!(in alloc; "DuplicateRow {}", id.as_str()),
        OpRefusal::NoRow { id } => format!(in alloc; "NoRow {}", id.as_str()),
        OpRefusal::TooMany { limit } => format!(in alloc; "TooMany {limit}"),
        OpRefusal::LinkExists { id } => format!(in alloc; "LinkExists {}", id.as_str()),
        OpRefusal::NoLink { id } => format!(in alloc; "NoLink {}", id.as_str()),
        _ => format!(in alloc; "another"),
    }
}

fn entry_by(user: Text, op: Op) -> Entry {
    Entry {
        op,
        moment: Moment(7),
        user,
    }
}

fn entry_of(alloc: Global, text: &str) -> Result<Entry, OpFault> {
    let user = Text::copy_of(alloc, "Ann")?;
    let op = op_of_json(alloc, text.as_bytes())?;
    Ok(entry_by(user, op))
}

// What comes of an operation on a base whose numbers are these.
fn said(alloc: Global, base: &Plain, text: &str) -> Result<String, Fail> {
    match apply_plain(alloc, base, &entry_of(alloc, text)?) {
        Ok(_) => Ok(String::from_str(alloc, "done")?),
        Err(refusal) => Ok(refusal_shown(alloc, &refusal)?),
    }
}

// A word of a line, or the empty one behind its last.
fn word<'a>(line: &'a str, at: usize) -> &'a str {
    line.split(' ').nth(at).unwrap_or("")
}

// The number at a place of a line, or 0 where none stands there.
fn number(line: &str, at: usize) -> u64 {
    word(line, at).parse::<u64>().unwrap_or(0)
}

fn short_number(line: &str, at: usize) -> u32 {
    word(line, at).parse::<u32>().unwrap_or(0)
}

// A base without tables whose version and next row, table, column and link are those of a line.
fn base_of(alloc: Global, line: &str) -> Plain {
    Plain {
        version: number(line, 0),
        next_row: number(line, 1),
        next_table: short_number(line, 2),
        next_column: short_number(line, 3),
        next_link: short_number(line, 4),
        tables: PlainTables::new(alloc),
        pairs: PlainPairs::new(alloc),
    }
}

// The numbers of bases, and what comes of three operations on each: a table of two columns, two rows, and a link column, each
// of which is refused for something else where the numbers suffice.
const NUMBERS: &str = "\
4611686018427387903 4611686018427387902 4294967294 4294967293 4294967294 -> BadName _|NoTable _|NoTable V
4611686018427387904 4611686018427387904 4294967295 4294967295 4294967295 -> NumbersSpent version|NumbersSpent version|NumbersSpent version
0 4611686018427387903 4294967295 4294967294 4294967295 -> NumbersSpent next_table|NumbersSpent next_row|NumbersSpent next_column
0 1 1 4294967294 1 -> NumbersSpent next_column|NoTable _|NumbersSpent next_column
0 1 1 1 4294967295 -> BadName _|NoTable _|NumbersSpent next_link
18446744073709551615 18446744073709551615 1 4294967295 1 -> NumbersSpent version|NumbersSpent version|NumbersSpent version
";

const SPENDING: &str =
    r#"{"op":"insert_table","table":"_","columns":[{"name":"_","type":"text"},{"name":"_","type":"text"}]}
{"op":"append_rows","table":"_","rows":[{"_id":"."},{}]}
{"op":"insert_column","table":"U","column":{"name":"L","type":"link","other":"V","other_name":"R"}}"#;

#[test]
fn numbers_of_a_base_are_spent_in_their_order(rt: HostRuntime) -> Result<(), Fail> {
    let alloc = rt.alloc();
    for line in NUMBERS.lines() {
        let (numbers, wanted) = line.split_once(" -> ").unwrap_or((line, ""));
        let base = base_of(alloc, numbers);
        for (text, refusal) in SPENDING.lines().zip(wanted.split('|')) {
            let found = said(alloc, &base, text)?;
            assert_eq!(rt; found.as_str(), refusal, "{text} at {numbers}");
        }
    }
    Ok(())
}

// T with the rows r1 and x.
const BEGINNING: &str =
    r#"{"op":"insert_table","table":"T","columns":[{"name":"Name","type":"text"}]}
{"op":"append_rows","table":"T","rows":[{"Name":"A"},{"_id":"x"}]}"#;

fn entries_of(alloc: Global, lines: &str) -> Result<Entries, OpFault> {
    let mut entries = Entries::new(alloc);
    for line in lines.lines() {
        entries.push(entry_of(alloc, line)?)?;
    }
    Ok(entries)
}

// Entries that append to T, one row for each letter, which is its id.
fn appends(alloc: Global, letters: &str) -> Result<Entries, Fail> {
    let mut entries = Entries::new(alloc);
    for letter in letters.chars() {
        let before = r#"{"op":"append_rows","table":"T","rows":[{"_id":""#;
        entries.push(entry_of(
            alloc,
            format!(in alloc; "{before}{letter}\"}}]}}")?.as_str(),
        )?)?;
    }
    Ok(entries)
}

// A base as its version, its next row, and the rows of T, each with its number and when it was made.
fn base_shown(alloc: Global, base: &Plain) -> Result<String, AllocError> {
    let mut all = format!(in alloc; "{} {}", base.version, base.next_row)?;
    if let Some(plain) = plain_named(base.tables.as_slice(), "T") {
        for row in plain.rows.get().as_slice() {
            let row = row.get();
            let id = row.id.0.as_str();
            all.push_str(format!(in alloc; " {id}:{}:{}", row.number, row.made.0)?.as_str())?;
        }
    }
    Ok(all)
}

// What comes of entries: the base after them, or the place of the first that is refused, with its refusal.
fn run_said(alloc: Global, base: &Plain, entries: &Entries) -> Result<String, AllocError> {
    match run_plain(alloc, base, entries) {
        Ok(new) => base_shown(alloc, &new),
        Err((at, refusal)) => {
            let said = refusal_shown(alloc, &refusal)?;
            format!(in alloc; "{at} {}", said.as_str())
        }
    }
}

// The ids of rows that are appended, and what comes of it.
const RUNS: &str = " -> 2 3 r1:1:7 x:2:7
ab -> 4 5 r1:1:7 x:2:7 a:3:7 b:4:7
x -> 0 DuplicateRow x
abxa -> 2 DuplicateRow x
ab.a -> 2 BadName .
";

#[test]
fn a_run_ends_at_the_first_entry_that_is_refused(rt: HostRuntime) -> Result<(), Fail> {
    let alloc = rt.alloc();
    let Ok(base) = run_plain(alloc, &Plain::new(alloc), &entries_of(alloc, BEGINNING)?) else {
        return Err(Fail::from("an entry is refused"));
    };
    for line in RUNS.lines() {
        let (letters, wanted) = line.split_once(" -> ").unwrap_or((line, ""));
        let found = run_said(alloc, &base, &appends(alloc, letters)?)?;
        assert_eq!(rt; found.as_str(), wanted, "{line}");
    }
    Ok(())
}

// Rows of which each id is one, or none is, and of which each two are linked, or no two are.
#[derive(Drop)]
struct Everything {
    rows: bool,
    links: bool,
    pairs: u32,
    version: u64,
}

impl RowsSeen for Everything {
    ghost has_id = { λ seen _ _. seen.rows };

    ghost are_linked = { λ seen _ _ _. seen.links };

    ghost pair_count = { λ seen. seen.pairs };

    ghost numbers = { λ seen. record { version = seen.version; row = 1; table = 3; column = 5; link = 2 } };

    fn has(&self, _table: TableNo, _id: &RowId) -> bool {
        self.rows
    }

    fn linked(&self, _link: u32, _a: &RowId, _b: &RowId) -> bool {
        self.links
    }

    fn pairs(&self) -> u32 {
        self.pairs
    }

    fn counters(&self) -> Counters {
        Counters {
            version: self.version,
            row: 1,
            table: 3,
            column: 5,
            link: 2,
        }
    }
}

fn text_column(alloc: Global, name: Text) -> NewColumn {
    NewColumn {
        name,
        kind: ColKind::Text,
        unit: Text::from(String::new(alloc)),
        options: Texts::new(alloc),
        other: None,
    }
}

fn link_column(alloc: Global, name: Text, end: NewEnd) -> NewColumn {
    NewColumn {
        name,
        kind: ColKind::Link,
        unit: Text::from(String::new(alloc)),
        options: Texts::new(alloc),
        other: Some(end),
    }
}

// The column R of U, where a link column ends.
fn end_in_u(alloc: Global) -> Result<NewEnd, AllocError> {
    let table = Text::copy_of(alloc, "U")?;
    let name = Text::copy_of(alloc, "R")?;
    Ok(NewEnd { table, name })
}

// T and U with a text column N each, and the link column L of T to U.
fn two_tables(rt: &impl Abort, alloc: Global) -> Result<Schema, Fail> {
    let mut schema = Schema::new(alloc);
    for table in ["T", "U"] {
        assert!(rt; schema.next_table() < 100 && schema.next_column() < 100);
        let column = text_column(alloc, Text::copy_of(alloc, "N")?);
        schema.add_table(table, &[column])?;
    }
    let end = end_in_u(alloc)?;
    let column = link_column(alloc, Text::copy_of(alloc, "L")?, end);
    assert!(rt; schema.next_column() < 100 && schema.next_link() < 100);
    schema.add_column("T", &column)?;
    Ok(schema)
}

// What the rows are: whether each id is one, whether each two are linked, how many pairs there are, and the version. Behind a
// bar an operation, and behind an arrow its refusal.
const CHECKS: &str = r#"no no 0 0|{"op":"append_rows","table":"T","rows":[{"_id":"a"}]} -> passes
yes no 0 0|{"op":"append_rows","table":"T","rows":[{"_id":"a"}]} -> DuplicateRow a
yes no 0 0|{"op":"append_rows","table":"V","rows":[{"_id":"a"}]} -> NoTable V
yes no 0 0|{"op":"delete_rows","table":"T","ids":["a"]} -> passes
no no 0 0|{"op":"delete_rows","table":"T","ids":["a"]} -> NoRow a
yes no 199999 0|{"op":"add_link","table":"T","column":"L","row":"a","others":["b"]} -> passes
yes no 200000 0|{"op":"add_link","table":"T","column":"L","row":"a","others":["b"]} -> TooMany 200000
yes yes 0 0|{"op":"add_link","table":"T","column":"L","row":"a","others":["b"]} -> LinkExists b
yes yes 200000 0|{"op":"remove_link","table":"U","column":"R","row":"b","others":["a"]} -> passes
yes no 0 0|{"op":"remove_link","table":"U","column":"R","row":"b","others":["a"]} -> NoLink a
no no 0 4611686018427387904|{"op":"delete_rows","table":"T","ids":["a"]} -> NumbersSpent version
"#;

#[test]
fn a_check_looks_at_the_rows_beside_a_schema(rt: HostRuntime) -> Result<(), Fail> {
    let alloc = rt.alloc();
    let schema = two_tables(&rt, alloc)?;
    for line in CHECKS.lines() {
        let (seen, rest) = line.split_once('|').unwrap_or((line, ""));
        let (text, wanted) = rest.split_once(" -> ").unwrap_or((rest, ""));
        let rows = Everything {
            rows: word(seen, 0) == "yes",
            links: word(seen, 1) == "yes",
            pairs: short_number(seen, 2),
            version: number(seen, 3),
        };
        let found = match check(alloc, &op_of_json(alloc, text.as_bytes())?, &schema, &rows) {
            Ok(()) => String::from_str(alloc, "passes")?,
            Err(refusal) => refusal_shown(alloc, &refusal)?,
        };
        assert_eq!(rt; found.as_str(), wanted, "{line}");
    }
    Ok(())
}

const TABLE: &str = r#"{"columns":[{"name":"N","type":"text"}],"op":"insert_table","table":"T"}"#;

// How many bytes a byte row of fewer than 2^32 has.
fn length_of(row: &[u8]) -> u32 {
    u32::try_from(row.len()).unwrap_or(0)
}

// A byte row of fewer than 2^32 bytes: how many it has, in four bytes, and its own.
fn put(out: &mut Bytes, row: &[u8]) -> Result<(), AllocError> {
    let length = length_of(row);
    out.append(&length.to_be_bytes())?;
    out.append(row)
}

// The record of an insert_table under the number 1, of so many minutes from the first moment and by a user: the number, the
// kind 1, the minutes, the user and the text.
fn record_of(alloc: Global, minutes: u64, user: &str) -> Result<Bytes, AllocError> {
    let mut out = Bytes::new(alloc);
    out.append(&1u64.to_be_bytes())?;
    out.append(&[1])?;
    out.append(&minutes.to_be_bytes())?;
    put(&mut out, user.as_bytes())?;
    put(&mut out, TABLE.as_bytes())?;
    Ok(out)
}

// The number, the moment and the user of a record.
fn record_shown(alloc: Global, record: &[u8]) -> Result<String, AllocError> {
    match entry_of_record(alloc, record)? {
        Some((lsn, entry)) => format!(in alloc; "{lsn} {} {}", entry.moment.0, entry.user.as_str()),
        None => format!(in alloc; "none"),
    }
}

// The minutes from the first moment to a record's, and its user, and what is read.
const RECORDS: &str = "1035593280 play -> 1 0 play
0 play -> 1 -1035593280 play
5258964959 Zoé -> 1 4223371679 Zoé
5258964960 play -> none
0  -> 1 -1035593280 ";

#[test]
fn a_record_is_read_whole_and_with_its_user(rt: HostRuntime) -> Result<(), Fail> {
    let alloc = rt.alloc();
    for line in RECORDS.lines() {
        let (fields, wanted) = line.split_once(" -> ").unwrap_or((line, ""));
        let (minutes, user) = fields.split_once(' ').unwrap_or((fields, ""));
        let minutes = minutes.parse::<u64>().ok().ok_or("no number")?;
        let record = record_of(alloc, minutes, user)?;
        let found = record_shown(alloc, record.as_slice())?;
        assert_eq!(rt; found.as_str(), wanted, "{line}");
    }
    let mut record = record_of(alloc, 1_035_593_280, "play")?;
    record.append(&[0])?;
    let bytes = record.as_slice();
    assert_eq!(rt; bytes.len(), 102);
    for length in 0..=bytes.len() {
        let entry = entry_of_record(alloc, &bytes[..length])?;
        assert_eq!(rt; entry.is_some(), length == 101, "{length} bytes");
    }
    Ok(())
}
