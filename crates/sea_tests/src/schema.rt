// Schemas, changed one call after another, each at a name.
use sea_cell::{
    ColKey, ColKind, Column, Duplicate, Filter, Filters, LinkEnd, NewColumn, NewColumns, NewEnd,
    Term, Test, Text, Texts, View,
};
use sea_schema::{Schema, Table};
use std::alloc::{AllocError, Global};
use std::process::Abort;
use std::test::Fail;

// The texts between commas.
fn texts_of(alloc: Global, words: &str) -> Result<Texts, AllocError> {
    let mut all = Texts::new(alloc);
    for word in words.split(',') {
        if !word.is_empty() {
            all.push(Text::copy_of(alloc, word)?)?;
        }
    }
    Ok(all)
}

// A single-select column with these options, or a link column to a table, where one is named.
fn new_column(alloc: Global, name: &str, options: &str) -> Result<NewColumn, AllocError> {
    Ok(NewColumn {
        name: Text::copy_of(alloc, name)?,
        kind: ColKind::Select,
        unit: Text::copy_of(alloc, "")?,
        options: texts_of(alloc, options)?,
        other: None,
    })
}

fn new_link(alloc: Global, name: &str, table: &str, other: &str) -> Result<NewColumn, AllocError> {
    let mut column = new_column(alloc, name, "")?;
    column.kind = ColKind::Link;
    column.other = Some(NewEnd {
        table: Text::copy_of(alloc, table)?,
        name: Text::copy_of(alloc, other)?,
    });
    Ok(column)
}

fn new_columns(alloc: Global, names: &str) -> Result<NewColumns, AllocError> {
    let mut all = NewColumns::new(alloc);
    for name in texts_of(alloc, names)?.as_slice() {
        all.push(new_column(alloc, name.as_str(), "")?)?;
    }
    Ok(all)
}

// A view with a filter of each of these keys.
fn new_view(alloc: Global, name: &str, keys: &str) -> Result<View, AllocError> {
    let mut filters = Filters::new(alloc);
    for key in texts_of(alloc, keys)?.as_slice() {
        filters.push(Filter {
            column: ColKey(key.as_str().parse::<u32>().unwrap_or(0)),
            test: Test::IsEmpty,
            term: Term::Nothing,
        })?;
    }
    Ok(View {
        name: Text::copy_of(alloc, name)?,
        all: true,
        filters,
    })
}

// The end of a link as the link, the other table, and a mark if it is the first.
fn end_shown(alloc: Global, other: Option<LinkEnd>) -> Result<String, AllocError> {
    match other {
        Some(end) => {
            let mark = if end.first { "!" } else { "" };
            format!(in alloc; "~{}>{}{mark}", end.link, end.table.0)
        }
        None => Ok(String::new(alloc)),
    }
}

// A column as its name, key, end of a link and options.
fn column_shown(alloc: Global, column: &Column) -> Result<String, AllocError> {
    let mut all = format!(in alloc; " {}={}", column.name.as_str(), column.key.0)?;
    all.push_str(end_shown(alloc, column.other)?.as_str())?;
    for option in column.options.as_slice() {
        all.push_str(format!(in alloc; "/{}", option.as_str())?.as_str())?;
    }
    Ok(all)
}

// A view as its name and the keys that its filters ask for.
fn view_shown(alloc: Global, view: &View) -> Result<String, AllocError> {
    let mut all = format!(in alloc; " <{}", view.name.as_str())?;
    for filter in view.filters.as_slice() {
        all.push_str(format!(in alloc; " {}", filter.column.0)?.as_str())?;
    }
    all.push('>')?;
    Ok(all)
}

// A table as its number, name, columns and views.
fn table_shown(alloc: Global, table: &Table) -> Result<String, AllocError> {
    let mut all = format!(in alloc; " {} {}:", table.no.0, table.name.as_str())?;
    for column in table.columns.as_slice() {
        all.push_str(column_shown(alloc, column)?.as_str())?;
    }
    for view in table.views.as_slice() {
        all.push_str(view_shown(alloc, view)?.as_str())?;
    }
    Ok(all)
}

// A schema as its next table, column and link, and its tables.
fn shown(alloc: Global, schema: &Schema) -> Result<String, AllocError> {
    let (table, column) = (schema.next_table(), schema.next_column());
    let mut all = format!(in alloc; "{table} {column} {} |", schema.next_link())?;
    for table in schema.tables() {
        all.push_str(table_shown(alloc, table.get())?.as_str())?;
    }
    Ok(all)
}

// Adds a table, or a column to one, where numbers are left for it.
fn add(
    rt: &impl Abort,
    alloc: Global,
    schema: &mut Schema,
    words: [&str; 5],
) -> Result<(), AllocError> {
    let [call, table, name, more, last] = words;
    let columns = new_columns(alloc, name)?;
    assert!(rt; schema.next_table() < 100 && schema.next_column() < 100 && columns.len() < 100);
    assert!(rt; schema.next_link() < 100);
    match call {
        "table" => schema.add_table(table, columns.as_slice()),
        "column" => schema.add_column(table, &new_column(alloc, name, more)?),
        _ => schema.add_column(table, &new_link(alloc, name, more, last)?),
    }
}

// Changes a schema by the call of this name. Only those named last want more than the names.
fn change(
    rt: &impl Abort,
    alloc: Global,
    schema: &mut Schema,
    words: [&str; 5],
) -> Result<(), AllocError> {
    let [call, table, name, more, _] = words;
    match call {
        "rename_table" => schema.rename_table(table, name),
        "remove_table" => schema.remove_table(table),
        "rename_column" => schema.rename_column(table, name, more),
        "remove_column" => schema.remove_column(table, name),
        "add_options" => schema.add_options(table, name, &texts_of(alloc, more)?),
        "set_view" => schema.set_view(table, new_view(alloc, name, more)?),
        "remove_view" => schema.remove_view(table, name),
        _ => add(rt, alloc, schema, words),
    }
}

// A word of a line, or the empty one behind its last.
fn word<'a>(line: &'a str, at: usize) -> &'a str {
    line.split(' ').nth(at).unwrap_or("")
}

// Calls on a schema, and the schema after each: its next numbers, and each table with its number, name, columns with their
// keys, ends of links and options, and views with the keys of their filters. `new` begins with none.
const CALLS: &str = "new -> 1 1 1 |
table T Name,Note -> 2 3 1 | 1 T: Name=1 Note=2
table U Name -> 3 4 1 | 1 T: Name=1 Note=2 2 U: Name=3
remove_table U -> 3 4 1 | 1 T: Name=1 Note=2
table U Name -> 4 5 1 | 1 T: Name=1 Note=2 3 U: Name=4
remove_column T Note -> 4 5 1 | 1 T: Name=1 3 U: Name=4
column T Note -> 4 6 1 | 1 T: Name=1 Note=5 3 U: Name=4
rename_table T S -> 4 6 1 | 1 S: Name=1 Note=5 3 U: Name=4
rename_column S Name Title -> 4 6 1 | 1 S: Title=1 Note=5 3 U: Name=4
set_view S All -> 4 6 1 | 1 S: Title=1 Note=5 <All> 3 U: Name=4
set_view S Some 1 -> 4 6 1 | 1 S: Title=1 Note=5 <All> <Some 1> 3 U: Name=4
set_view S All 5,1,5 -> 4 6 1 | 1 S: Title=1 Note=5 <All 5 1 5> <Some 1> 3 U: Name=4
remove_column S Note -> 4 6 1 | 1 S: Title=1 <All 1> <Some 1> 3 U: Name=4
remove_view S All -> 4 6 1 | 1 S: Title=1 <Some 1> 3 U: Name=4
column U State a,b,a -> 4 7 1 | 1 S: Title=1 <Some 1> 3 U: Name=4 State=6/a/b
add_options U State c,b,c -> 4 7 1 | 1 S: Title=1 <Some 1> 3 U: Name=4 State=6/a/b/c
remove_table S -> 4 7 1 | 3 U: Name=4 State=6/a/b/c
rename_table V W -> 4 7 1 | 3 U: Name=4 State=6/a/b/c
new -> 1 1 1 |
table T N -> 2 2 1 | 1 T: N=1
table U N -> 3 3 1 | 1 T: N=1 2 U: N=2
link T Parts U Whole -> 3 5 2 | 1 T: N=1 Parts=3~1>2! 2 U: N=2 Whole=4~1>1
link U Below U Above -> 3 7 3 | 1 T: N=1 Parts=3~1>2! 2 U: N=2 Whole=4~1>1 Below=5~2>2! Above=6~2>2
remove_column T Parts -> 3 7 3 | 1 T: N=1 2 U: N=2 Below=5~2>2! Above=6~2>2
remove_column U Above -> 3 7 3 | 1 T: N=1 2 U: N=2
link T Parts U Whole -> 3 9 4 | 1 T: N=1 Parts=7~3>2! 2 U: N=2 Whole=8~3>1
link U Below U Above -> 3 11 5 | 1 T: N=1 Parts=7~3>2! 2 U: N=2 Whole=8~3>1 Below=9~4>2! Above=10~4>2
remove_column U Below -> 3 11 5 | 1 T: N=1 Parts=7~3>2! 2 U: N=2 Whole=8~3>1
remove_column U Whole -> 3 11 5 | 1 T: N=1 2 U: N=2
link T Parts U Whole -> 3 13 6 | 1 T: N=1 Parts=11~5>2! 2 U: N=2 Whole=12~5>1
link U Below U Above -> 3 15 7 | 1 T: N=1 Parts=11~5>2! 2 U: N=2 Whole=12~5>1 Below=13~6>2! Above=14~6>2
remove_table T -> 3 15 7 | 2 U: N=2 Below=13~6>2! Above=14~6>2
table T N -> 4 16 7 | 2 U: N=2 Below=13~6>2! Above=14~6>2 3 T: N=15
link T Parts U Whole -> 4 18 8 | 2 U: N=2 Below=13~6>2! Above=14~6>2 Whole=17~7>3 3 T: N=15 Parts=16~7>2!
remove_table U -> 4 18 8 | 3 T: N=15
table U -> 5 18 8 | 3 T: N=15 4 U:
link U Of T Has -> 5 20 9 | 3 T: N=15 Has=19~8>4 4 U: Of=18~8>3!
";

// Stops a test where a line's call doesn't make of a schema what stands behind the arrow, or changes a copy of before.
fn makes(rt: &impl Abort, alloc: Global, schema: &mut Schema, line: &str) -> Result<(), Fail> {
    let (call, wanted) = line.split_once(" -> ").unwrap_or((line, ""));
    if call == "new" {
        *schema = Schema::new(alloc);
    }
    let (copy, before) = (schema.duplicate(alloc)?, shown(alloc, schema)?);
    if call != "new" {
        let words = [
            word(call, 0),
            word(call, 1),
            word(call, 2),
            word(call, 3),
            word(call, 4),
        ];
        change(rt, alloc, schema, words)?;
    }
    assert_eq!(rt; shown(alloc, schema)?.as_str(), wanted, "{line}");
    assert_eq!(rt; shown(alloc, &copy)?.as_str(), before.as_str(), "{line}");
    Ok(())
}

#[test]
fn schemas_are_changed_call_by_call(rt: HostRuntime) -> Result<(), Fail> {
    let alloc = rt.alloc();
    let mut schema = Schema::new(alloc);
    for line in CALLS.lines() {
        makes(&rt, alloc, &mut schema, line)?;
    }
    Ok(())
}
