// Which rows a view selects.
use sea_cell::{
    CellValue, Cells, ColKey, ColKind, Column, Columns, Filter, Filters, Moment, Row, RowId, Rows,
    Shared, Term, Test, Text, Texts, View, test_of_word,
};
use sea_filter::selected;
use sqlite_items::Items;
use std::alloc::{AllocError, Global};
use std::test::Fail;

// The columns are keyed by their places here, from 1.
const KINDS: [ColKind; 8] = [
    ColKind::Text,
    ColKind::Number,
    ColKind::Date,
    ColKind::Check,
    ColKind::Select,
    ColKind::Multi,
    ColKind::People,
    ColKind::Made,
];

fn columns_of(alloc: Global) -> Result<Columns, AllocError> {
    let mut columns = Items::new(alloc);
    let mut key = 0;
    for kind in KINDS {
        if key < 8 {
            key += 1;
        }
        columns.push(Column {
            key: ColKey(key),
            name: Text::copy_of(alloc, "C")?,
            kind,
            unit: Text::copy_of(alloc, "")?,
            options: Texts::new(alloc),
            other: None,
        })?;
    }
    Columns::of(alloc, columns)
}

// The texts between commas.
fn texts_of(alloc: Global, text: &str) -> Result<Texts, AllocError> {
    let mut texts = Texts::new(alloc);
    for one in text.split(',') {
        if !one.is_empty() {
            texts.push(Text::copy_of(alloc, one)?)?;
        }
    }
    Ok(texts)
}

// A value of a column's kind. Numbers and moments have one digit, which counts.
fn value_of(alloc: Global, key: u32, text: &str) -> Result<CellValue, AllocError> {
    let digit = match text.as_bytes() {
        [digit] => i64::from(*digit) - 48,
        _ => 0,
    };
    match key {
        1 => Ok(CellValue::Text(Text::copy_of(alloc, text)?)),
        2 => Ok(CellValue::Number(digit)),
        3 | 8 => Ok(CellValue::Moment(Moment(digit))),
        4 => Ok(CellValue::Check(text == "yes")),
        5 => Ok(CellValue::Choice(Text::copy_of(alloc, text)?)),
        6 => Ok(CellValue::Choices(texts_of(alloc, text)?)),
        _ => Ok(CellValue::Names(texts_of(alloc, text)?)),
    }
}

fn term_of(alloc: Global, key: u32, test: Test, text: &str) -> Result<Term, AllocError> {
    match test {
        Test::IsEmpty | Test::IsNotEmpty => Ok(Term::Nothing),
        _ if key == 6 || key == 7 => Ok(Term::Items(texts_of(alloc, text)?)),
        _ => Ok(Term::Cell(value_of(alloc, key, text)?)),
    }
}

// A row with the cells that stand between bars and aren't empty.
fn row_of(alloc: Global, id: &str, cells: &str) -> Result<Row, AllocError> {
    let mut row = Row {
        id: RowId(Text::copy_of(alloc, id)?),
        number: 1,
        made: Moment(7),
        changed: Moment(9),
        cells: Cells::new(alloc),
    };
    let mut key = 0;
    for cell in cells.split('|') {
        if key < 8 {
            key += 1;
        }
        if !cell.is_empty() {
            row.cells.set(ColKey(key), value_of(alloc, key, cell)?)?;
        }
    }
    Ok(row)
}

// Three rows: a full one, an empty one, and another full one.
const ROWS: &str = "a:Anna|3|3|yes|open|red,blue|Ann
e:
b:Bert|5|5|no|closed|blue|Ann,Bob";

fn rows_of(alloc: Global) -> Result<Rows, AllocError> {
    let mut rows = Rows::new(alloc);
    for line in ROWS.lines() {
        let (id, cells) = line.split_once(':').unwrap_or((line, ""));
        rows.push(Shared::new(alloc, row_of(alloc, id, cells)?)?)?;
    }
    Ok(rows)
}

// A word of a line, or the empty one behind its last.
fn word<'a>(line: &'a str, at: usize) -> &'a str {
    line.split(' ').nth(at).unwrap_or("")
}

// The filter of a text: the key of its column, the predicate, and what it compares with.
fn filter_of(alloc: Global, text: &str) -> Result<Filter, Fail> {
    let key = word(text, 0).parse::<u32>().ok().ok_or("no key")?;
    let test = test_of_word(word(text, 1)).ok_or("no predicate")?;
    Ok(Filter {
        column: ColKey(key),
        test,
        term: term_of(alloc, key, test, word(text, 2))?,
    })
}

// The view of a line: a word, and behind it the filters, each behind a bar.
fn view_of(alloc: Global, line: &str) -> Result<View, Fail> {
    let mut filters = Filters::new(alloc);
    for text in line.split('|').skip(1) {
        filters.push(filter_of(alloc, text)?)?;
    }
    Ok(View {
        name: Text::copy_of(alloc, "V")?,
        all: line.starts_with("all"),
        filters,
    })
}

// Views, and the ids of the rows that each selects, one behind another: each test on full and on empty cells, and all filters
// or any of them.
const VIEWS: &str = "all|1 is Anna -> a
all|1 is_not Anna -> eb
all|1 contains nn -> a
all|1 contains Annab -> 
all|1 contains t -> b
all|1 does_not_contain nn -> eb
all|1 is_empty -> e
all|1 is_not_empty -> ab
all|2 is 3 -> a
all|2 is_not 3 -> eb
all|2 less 5 -> a
all|2 less_or_equal 5 -> ab
all|2 greater 3 -> b
all|2 greater_or_equal 3 -> ab
all|3 less 5 -> a
all|3 greater_or_equal 5 -> b
all|4 is yes -> a
all|4 is no -> b
all|5 is open -> a
all|5 contains o -> ab
all|5 is lost -> 
all|6 has_any_of -> 
all|6 has_any_of red,red -> a
all|6 has_any_of green,blue -> ab
all|6 has_all_of -> aeb
all|6 has_all_of blue,red -> a
all|6 has_none_of red -> eb
all|6 is_exactly blue,red,blue -> a
all|6 is_exactly blue -> b
all|6 is_exactly -> e
all|6 is_empty -> e
all|7 has_all_of Bob,Ann -> b
all|8 is 7 -> aeb
all|8 less 7 -> 
all|8 is_empty -> 
all|9 is_empty -> 
all -> aeb
any -> aeb
all|2 is_not_empty -> ab
any|2 is_not_empty -> ab
all|2 is_not_empty|1 does_not_contain nn -> b
any|2 is_not_empty|1 does_not_contain nn -> aeb
any|9 is_empty|1 is Anna -> a";

#[test]
fn views_select_rows(rt: HostRuntime) -> Result<(), Fail> {
    let alloc = rt.alloc();
    let (columns, rows) = (columns_of(alloc)?, rows_of(alloc)?);
    for line in VIEWS.lines() {
        let (view, wanted) = line.split_once(" -> ").unwrap_or((line, ""));
        let ids = selected(alloc, &view_of(alloc, view)?, &columns, &rows)?;
        let mut found = String::new(alloc);
        for id in ids.as_slice() {
            found.push_str(id.0.as_str())?;
        }
        assert_eq!(rt; found.as_str(), wanted, "{line}");
    }
    Ok(())
}
