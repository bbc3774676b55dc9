// The plain base of a script that the cases play: what `run_plain` makes of all of its entries at once, and behind each
// operation the counters, keys and moments, most of which no reply shows. The core applies each entry by the same
// `apply_plain`, so no other body stands beside it here; what is wanted was worked out from docs/operations.md.
use sea_cell::{Moment, Text, cell_in, json_of_cell};
use sea_operation::{Entries, Entry, OpRefusal, Plain, PlainTable, plain_named};
use sea_ops::{OpFault, op_of_json};
use sea_plain::{apply_plain, run_plain};
use serde_json::Value;
use std::alloc::{AllocError, Global};
use std::process::Abort;
use std::test::Fail;

// The operations that are accepted in the case of each operation on tables, columns and rows.
const OPERATIONS: &str =
    r#"{"op":"insert_table","table":"T","columns":[{"name":"Name","type":"text"},{"name":"Amount","type":"number","unit":"EUR"},{"name":"Day","type":"date"}]}
{"op":"insert_column","table":"T","column":{"name":"Tags","type":"multiple-select","options":["red","blue","red"]}}
{"op":"insert_column","table":"T","column":{"name":"State","type":"single-select"}}
{"op":"add_options","table":"T","column":"State","options":["open","closed","open"]}
{"op":"insert_column","table":"T","column":{"name":"Changed","type":"mtime"}}
{"op":"insert_table","table":"U","columns":[{"name":"Name","type":"single-select","options":["x"]}]}
{"op":"append_rows","table":"T","rows":[{"_id":"a","Name":"A","Amount":1000000000000,"Day":"2024-02-29 00:00","Tags":["red"]},{"_id":"b","Tags":["red","blue","red"],"State":"open"},{}]}
{"op":"append_rows","table":"U","rows":[{"Name":"x","_id":"a"},{"_id":"d"}]}
{"op":"modify_rows","table":"T","rows":[{"_id":"r3","Name":"C","Tags":["blue"]},{"_id":"a","Amount":null,"State":"closed"}]}
{"op":"delete_column","table":"T","column":"Tags"}
{"op":"insert_column","table":"T","column":{"name":"Tags","type":"text"}}
{"op":"rename_column","table":"T","column":"Day","to":"Date"}
{"op":"delete_rows","table":"T","ids":["b"]}
{"op":"append_rows","table":"T","rows":[{"_id":"b"},{}]}
{"op":"delete_table","table":"U"}
{"op":"rename_table","table":"T","to":"U"}
"#;

// The table that is left there.
const LEFT: &str =
    r#"{"columns":["Name","Amount","Date","State","Changed","Tags"],"rows":[["A",null,"2024-02-29","closed","1970-01-01",null],["C",null,null,null,"1970-01-01",null],[null,null,null,null,"1970-01-01",null],[null,null,null,null,"1970-01-01",null]]}"#;

fn entry_of(alloc: Global, text: &str, moment: i64) -> Result<Entry, OpFault> {
    Ok(Entry {
        op: op_of_json(alloc, text.as_bytes())?,
        moment: Moment(moment),
        user: Text::copy_of(alloc, "play")?,
    })
}

// The entries of the operations.
fn accepted(alloc: Global) -> Result<Entries, Fail> {
    let mut entries = Entries::new(alloc);
    for op in OPERATIONS.lines() {
        entries.push(entry_of(alloc, op, 0)?)?;
    }
    Ok(entries)
}

// A table as a select of all of it shows it.
fn shown(alloc: Global, plain: &PlainTable) -> Result<String, AllocError> {
    let mut columns = Vec::new(alloc);
    for column in plain.table.get().columns.as_slice() {
        columns.push(Value::String(String::from_str(alloc, column.name.as_str())?))?;
    }
    let mut rows = Vec::new(alloc);
    for row in plain.rows.get().as_slice() {
        let mut cells = Vec::new(alloc);
        for column in plain.table.get().columns.as_slice() {
            let cell = cell_in(alloc, row.get(), column)?;
            cells.push(json_of_cell(alloc, &cell)?)?;
        }
        rows.push(Value::Array(cells))?;
    }
    let columns = Value::Array(columns).to_string(alloc)?;
    let rows = Value::Array(rows).to_string(alloc)?;
    let (columns, rows) = (columns.as_str(), rows.as_str());
    format!(in alloc; r#"{{"columns":{columns},"rows":{rows}}}"#)
}

#[test]
fn the_plain_base_of_its_entries_has_the_same_tables(rt: HostRuntime) -> Result<(), Fail> {
    let alloc = rt.alloc();
    let entries = accepted(alloc)?;
    let Ok(base) = run_plain(alloc, &Plain::new(alloc), &entries) else {
        return Err(Fail::from("an entry is refused"));
    };
    assert_eq!(rt; (base.version, base.tables.len()), (16, 1));
    assert_eq!(rt;
        (base.next_row, base.next_table, base.next_column),
        (8, 3, 9)
    );
    let Some(plain) = plain_named(base.tables.as_slice(), "U") else {
        return Err(Fail::from("no table"));
    };
    let left = shown(alloc, plain)?;
    assert_eq!(rt; left.as_str(), LEFT);
    Ok(())
}

// Operations on links behind those, of which the last takes both sides of a link column away.
const LINKS: &str = r#"{"op":"insert_table","table":"V","columns":[{"name":"Name","type":"text"}]}
{"op":"insert_column","table":"U","column":{"name":"L","type":"link","other":"V","other_name":"R"}}
{"op":"append_rows","table":"V","rows":[{"_id":"v"}]}
{"op":"add_link","table":"U","column":"L","row":"a","others":["v"]}
{"op":"delete_column","table":"V","column":"R"}"#;

// The base after each of them all: its version; its next row, table, column and link; and its tables, each with its number,
// name and columns with their keys, and the id of each row with its number and the moments when it was made and last
// changed. The moment of an operation is the version after it.
const BEHIND: &str = "\
1 | 1 2 4 1 | 1 T: Name=1 Amount=2 Day=3
2 | 1 2 5 1 | 1 T: Name=1 Amount=2 Day=3 Tags=4
3 | 1 2 6 1 | 1 T: Name=1 Amount=2 Day=3 Tags=4 State=5
4 | 1 2 6 1 | 1 T: Name=1 Amount=2 Day=3 Tags=4 State=5
5 | 1 2 7 1 | 1 T: Name=1 Amount=2 Day=3 Tags=4 State=5 Changed=6
6 | 1 3 8 1 | 1 T: Name=1 Amount=2 Day=3 Tags=4 State=5 Changed=6 2 U: Name=7
7 | 4 3 8 1 | 1 T: Name=1 Amount=2 Day=3 Tags=4 State=5 Changed=6 <a 1 7-7> <b 2 7-7> <r3 3 7-7> 2 U: Name=7
8 | 6 3 8 1 | 1 T: Name=1 Amount=2 Day=3 Tags=4 State=5 Changed=6 <a 1 7-7> <b 2 7-7> <r3 3 7-7> 2 U: Name=7 <a 4 8-8> <d 5 8-8>
9 | 6 3 8 1 | 1 T: Name=1 Amount=2 Day=3 Tags=4 State=5 Changed=6 <a 1 7-9> <b 2 7-7> <r3 3 7-9> 2 U: Name=7 <a 4 8-8> <d 5 8-8>
10 | 6 3 8 1 | 1 T: Name=1 Amount=2 Day=3 State=5 Changed=6 <a 1 7-9> <b 2 7-7> <r3 3 7-9> 2 U: Name=7 <a 4 8-8> <d 5 8-8>
11 | 6 3 9 1 | 1 T: Name=1 Amount=2 Day=3 State=5 Changed=6 Tags=8 <a 1 7-9> <b 2 7-7> <r3 3 7-9> 2 U: Name=7 <a 4 8-8> <d 5 8-8>
12 | 6 3 9 1 | 1 T: Name=1 Amount=2 Date=3 State=5 Changed=6 Tags=8 <a 1 7-9> <b 2 7-7> <r3 3 7-9> 2 U: Name=7 <a 4 8-8> <d 5 8-8>
13 | 6 3 9 1 | 1 T: Name=1 Amount=2 Date=3 State=5 Changed=6 Tags=8 <a 1 7-9> <r3 3 7-9> 2 U: Name=7 <a 4 8-8> <d 5 8-8>
14 | 8 3 9 1 | 1 T: Name=1 Amount=2 Date=3 State=5 Changed=6 Tags=8 <a 1 7-9> <r3 3 7-9> <b 6 14-14> <r7 7 14-14> 2 U: Name=7 <a 4 8-8> <d 5 8-8>
15 | 8 3 9 1 | 1 T: Name=1 Amount=2 Date=3 State=5 Changed=6 Tags=8 <a 1 7-9> <r3 3 7-9> <b 6 14-14> <r7 7 14-14>
16 | 8 3 9 1 | 1 U: Name=1 Amount=2 Date=3 State=5 Changed=6 Tags=8 <a 1 7-9> <r3 3 7-9> <b 6 14-14> <r7 7 14-14>
17 | 8 4 10 1 | 1 U: Name=1 Amount=2 Date=3 State=5 Changed=6 Tags=8 <a 1 7-9> <r3 3 7-9> <b 6 14-14> <r7 7 14-14> 3 V: Name=9
18 | 8 4 12 2 | 1 U: Name=1 Amount=2 Date=3 State=5 Changed=6 Tags=8 L=10 <a 1 7-9> <r3 3 7-9> <b 6 14-14> <r7 7 14-14> 3 V: Name=9 R=11
19 | 9 4 12 2 | 1 U: Name=1 Amount=2 Date=3 State=5 Changed=6 Tags=8 L=10 <a 1 7-9> <r3 3 7-9> <b 6 14-14> <r7 7 14-14> 3 V: Name=9 R=11 <v 8 19-19>
20 | 9 4 12 2 | 1 U: Name=1 Amount=2 Date=3 State=5 Changed=6 Tags=8 L=10 <a 1 7-9> <r3 3 7-9> <b 6 14-14> <r7 7 14-14> 3 V: Name=9 R=11 <v 8 19-19>
21 | 9 4 12 2 | 1 U: Name=1 Amount=2 Date=3 State=5 Changed=6 Tags=8 <a 1 7-9> <r3 3 7-9> <b 6 14-14> <r7 7 14-14> 3 V: Name=9 <v 8 19-19>";

// A table as there.
fn table_shown(alloc: Global, plain: &PlainTable) -> Result<String, AllocError> {
    let table = plain.table.get();
    let mut all = format!(in alloc; " {} {}:", table.no.0, table.name.as_str())?;
    for column in table.columns.as_slice() {
        let name = column.name.as_str();
        all.push_str(format!(in alloc; " {name}={}", column.key.0)?.as_str())?;
    }
    for row in plain.rows.get().as_slice() {
        let row = row.get();
        let (id, made, changed) = (row.id.0.as_str(), row.made.0, row.changed.0);
        all.push_str(format!(in alloc; " <{id} {} {made}-{changed}>", row.number)?.as_str())?;
    }
    Ok(all)
}

// A base as there.
fn base_shown(alloc: Global, base: &Plain) -> Result<String, AllocError> {
    let mut all = format!(in alloc; "{} | {} {}", base.version, base.next_row, base.next_table)?;
    let more = format!(in alloc; " {} {} |", base.next_column, base.next_link)?;
    all.push_str(more.as_str())?;
    for table in base.tables.as_slice() {
        all.push_str(table_shown(alloc, table)?.as_str())?;
    }
    Ok(all)
}

// The base after an operation that is accepted.
fn next(alloc: Global, base: &Plain, text: &str, moment: i64) -> Result<Plain, Fail> {
    match apply_plain(alloc, base, &entry_of(alloc, text, moment)?) {
        Ok(base) => Ok(base),
        Err(_) => Err(Fail::from("an operation is refused")),
    }
}

#[test]
fn counters_keys_and_moments_behind_each_operation(rt: HostRuntime) -> Result<(), Fail> {
    let alloc = rt.alloc();
    let mut base = Plain::new(alloc);
    let mut moment: i64 = 0;
    let mut behind = BEHIND.lines();
    for op in OPERATIONS.lines().chain(LINKS.lines()) {
        moment = moment.wrapping_add(1);
        base = next(alloc, &base, op, moment)?;
        let found = base_shown(alloc, &base)?;
        assert_eq!(rt; Some(found.as_str()), behind.next(), "{op}");
    }
    assert_eq!(rt; behind.next(), None);
    Ok(())
}

// The text of an operation that makes a table of so many text columns.
fn table_of(alloc: Global, table: &str, count: u32) -> Result<String, AllocError> {
    let mut columns = String::new(alloc);
    for at in 0..count {
        let comma = if at == 0 { "" } else { "," };
        let column = format!(in alloc; r#"{comma}{{"name":"c{at}","type":"text"}}"#)?;
        columns.push_str(column.as_str())?;
    }
    let columns = columns.as_str();
    format!(in alloc; r#"{{"op":"insert_table","table":"{table}","columns":[{columns}]}}"#)
}

// Stops a test where a further table of so many columns isn't refused for this limit.
fn is_too_many(
    rt: &impl Abort,
    alloc: Global,
    base: &Plain,
    count: u32,
    most: u32,
) -> Result<(), Fail> {
    let entry = entry_of(alloc, table_of(alloc, "V", count)?.as_str(), 1)?;
    let limit = match apply_plain(alloc, base, &entry) {
        Err(OpRefusal::TooMany { limit }) => limit,
        _ => 0,
    };
    assert_eq!(rt; limit, most);
    Ok(())
}

#[test]
fn counters_behind_as_many_tables_and_columns_as_may_be(rt: HostRuntime) -> Result<(), Fail> {
    let alloc = rt.alloc();
    let mut base = next(
        alloc,
        &Plain::new(alloc),
        table_of(alloc, "T", 2)?.as_str(),
        1,
    )?;
    for number in 2..64 {
        let name = format!(in alloc; "T{number}")?;
        base = next(alloc, &base, table_of(alloc, name.as_str(), 1)?.as_str(), 1)?;
    }
    is_too_many(&rt, alloc, &base, 201, 200)?;
    base = next(alloc, &base, table_of(alloc, "U", 200)?.as_str(), 1)?;
    is_too_many(&rt, alloc, &base, 201, 64)?;
    assert_eq!(rt; (base.version, base.tables.len()), (64, 64));
    assert_eq!(rt; (base.next_table, base.next_column), (65, 265));
    Ok(())
}
