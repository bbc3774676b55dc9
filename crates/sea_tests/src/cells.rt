// How many bytes rows have, up to the ends of their encoding; copies of rows and views, things by their names, and what a
// filter compares a cell with.
use sea_cell::{
    CellValue, Cells, ColKey, Duplicate, Filter, Filters, Ids, Moment, Row, RowId, Term, Test,
    Text, Texts, View, Views, items_in, kind_of_word, named_in, row_bytes, term_of_word,
    test_of_word, word_of_json,
};
use sea_moment::{FIRST, LAST};
use serde_json::Value;
use sqlite_items::Items;
use std::alloc::{AllocError, Global};
use std::process::Abort;
use std::test::Fail;

// A row with an id of so many bytes, and no cells.
fn row_of(alloc: Global, id: usize) -> Result<Row, AllocError> {
    Ok(Row {
        id: RowId(Text::copy_of(alloc, "r".repeat(alloc, id)?.as_str())?),
        number: 7,
        made: Moment(FIRST),
        changed: Moment(LAST),
        cells: Cells::new(alloc),
    })
}

// A list of so many empty texts.
fn empty_texts(alloc: Global, count: i64) -> Result<Texts, AllocError> {
    let mut texts = Texts::new(alloc);
    for _ in 0..count {
        texts.push(Text::copy_of(alloc, "")?)?;
    }
    Ok(texts)
}

// So many cells of two bytes of text.
fn with_cells(alloc: Global, count: u32) -> Result<Row, AllocError> {
    let mut row = row_of(alloc, 1)?;
    for key in 0..count {
        let text = CellValue::Text(Text::copy_of(alloc, "é")?);
        row.cells.set(ColKey(key), text)?;
    }
    Ok(row)
}

// A row whose id has one byte, with one cell.
fn with_cell(alloc: Global, value: CellValue) -> Result<Row, AllocError> {
    let mut row = row_of(alloc, 1)?;
    row.cells.set(ColKey(3), value)?;
    Ok(row)
}

// The row that a word and a number tell.
fn told(alloc: Global, word: &str, number: i64) -> Result<Row, AllocError> {
    let count = u32::try_from(number).unwrap_or(0);
    match word {
        "id" => row_of(alloc, count as usize),
        "cells" => with_cells(alloc, count),
        "number" => with_cell(alloc, CellValue::Number(number)),
        "moment" => with_cell(alloc, CellValue::Moment(Moment(number))),
        "names" => with_cell(alloc, CellValue::Names(empty_texts(alloc, number)?)),
        "links" => with_cell(alloc, CellValue::Links(Ids::new(alloc))),
        "made" => Ok(Row {
            made: Moment(number),
            ..row_of(alloc, 1)?
        }),
        _ => Ok(Row {
            changed: Moment(number),
            ..row_of(alloc, 1)?
        }),
    }
}

// Rows, each told by a word and a number, and how many bytes it has, or none where it has no encoding. The first and the
// last moment are the minutes -1035593280 and 4223371679.
const ROWS: &str = "id 1 -> 27
id 22 -> 48
id 255 -> 281
id 256 -> none
cells 1 -> 38
cells 255 -> 2832
cells 256 -> none
number 1000000000000 -> 40
number 1000000000001 -> none
number -1000000000000 -> 40
number -1000000000001 -> none
moment -1035593280 -> 40
moment -1035593281 -> none
moment 4223371679 -> 40
moment 4223371680 -> none
names 255 -> 1053
names 256 -> none
links 0 -> none
made 4223371679 -> 27
made -1035593281 -> none
made 4223371680 -> none
changed -1035593280 -> 27
changed -1035593281 -> none
changed 4223371680 -> none";

#[test]
fn rows_have_bytes_up_to_the_ends_of_their_encoding(rt: HostRuntime) -> Result<(), Fail> {
    let alloc = rt.alloc();
    for line in ROWS.lines() {
        let (row, wanted) = line.split_once(" -> ").unwrap_or((line, ""));
        let (word, number) = row.split_once(' ').unwrap_or((row, ""));
        let number = number.parse::<i64>().ok().ok_or("no number")?;
        let bytes = row_bytes(&told(alloc, word, number)?);
        let found = match bytes {
            u64::MAX => String::from_str(alloc, "none")?,
            _ => format!(in alloc; "{bytes}")?,
        };
        assert_eq!(rt; found.as_str(), wanted, "{line}");
    }
    Ok(())
}

// Texts, each with a bar behind it.
fn listed(alloc: Global, texts: &[Text]) -> Result<String, AllocError> {
    let mut all = String::new(alloc);
    for text in texts {
        all.push_str(text.as_str())?;
        all.push('|')?;
    }
    Ok(all)
}

// A value's text; a value of another kind by its kind.
fn text_of(value: &CellValue) -> &str {
    match value {
        CellValue::Text(text) => text.as_str(),
        _ => "another",
    }
}

// A row as its id, number, moments and cells.
fn row_shown(alloc: Global, row: &Row) -> Result<String, AllocError> {
    let (id, number) = (row.id.0.as_str(), row.number);
    let mut all = format!(in alloc; "{id} {number} {}-{}", row.made.0, row.changed.0)?;
    for cell in row.cells.as_slice() {
        all.push_str(format!(in alloc; " {}={}", cell.key.0, text_of(&cell.value))?.as_str())?;
    }
    Ok(all)
}

// What a filter compares with.
fn term_shown(alloc: Global, term: &Term) -> Result<String, AllocError> {
    match term {
        Term::Nothing => format!(in alloc; "nothing"),
        Term::Cell(value) => format!(in alloc; "cell {}", text_of(value)),
        Term::Items(texts) => {
            let all = listed(alloc, texts.as_slice())?;
            format!(in alloc; "items {}", all.as_str())
        }
    }
}

// A view as its name, whether all filters have to be met, and each filter, whose test is to be has_any_of.
fn view_shown(alloc: Global, view: &View) -> Result<String, AllocError> {
    let mut all = format!(in alloc; "{} {}", view.name.as_str(), view.all)?;
    for filter in view.filters.as_slice() {
        let test = match filter.test {
            Test::HasAnyOf => "any of",
            _ => "another",
        };
        let term = term_shown(alloc, &filter.term)?;
        let shown = format!(in alloc; ", {} {test} {}", filter.column.0, term.as_str())?;
        all.push_str(shown.as_str())?;
    }
    Ok(all)
}

// A view, with a filter for each of these terms.
fn view_of(alloc: Global, name: &str, terms: Vec<Term>) -> Result<View, AllocError> {
    let mut filters = Filters::new(alloc);
    for term in terms {
        filters.push(Filter {
            column: ColKey(4),
            test: Test::HasAnyOf,
            term,
        })?;
    }
    Ok(View {
        name: Text::copy_of(alloc, name)?,
        all: true,
        filters,
    })
}

// The texts a and b, the text c, and nothing.
fn three_terms(alloc: Global) -> Result<Vec<Term>, AllocError> {
    let mut texts = Texts::new(alloc);
    texts.push(Text::copy_of(alloc, "a")?)?;
    texts.push(Text::copy_of(alloc, "b")?)?;
    let mut terms = Vec::new(alloc);
    terms.push(Term::Items(texts))?;
    terms.push(Term::Cell(CellValue::Text(Text::copy_of(alloc, "c")?)))?;
    terms.push(Term::Nothing)?;
    Ok(terms)
}

const ROW: &str = "r 7 -1035593280-4223371679 0=é 1=é";

const VIEW: &str = "Open true, 4 any of items a|b|, 4 any of cell c, 4 any of nothing";

#[test]
fn copies_equal_their_source(rt: HostRuntime) -> Result<(), Fail> {
    let alloc = rt.alloc();
    let row = with_cells(alloc, 2)?;
    let copy = row.duplicate(alloc)?;
    assert_eq!(rt; row_shown(alloc, &row)?.as_str(), ROW);
    assert_eq!(rt; row_shown(alloc, &copy)?.as_str(), ROW);
    let view = view_of(alloc, "Open", three_terms(alloc)?)?;
    let copy = view.duplicate(alloc)?;
    assert_eq!(rt; view_shown(alloc, &view)?.as_str(), VIEW);
    assert_eq!(rt; view_shown(alloc, &copy)?.as_str(), VIEW);
    Ok(())
}

// Views of these names. Of the first one alone, all filters have to be met.
fn views_of(alloc: Global, names: &str) -> Result<Views, AllocError> {
    let mut views = Items::new(alloc);
    for name in names.split(' ') {
        let mut view = view_of(alloc, name, Vec::new(alloc))?;
        view.all = views.is_empty();
        views.push(view)?;
    }
    Views::of(alloc, views)
}

// Whether all filters of the view of a name have to be met, where there is one.
fn all_of(views: Option<&Views>, name: &str) -> Option<bool> {
    named_in(views, name).map(|view| view.all)
}

// Stops a test where texts aren't in the order of their bytes.
fn texts_have_an_order(rt: &impl Abort, alloc: Global) -> Result<(), AllocError> {
    let (b, a) = (Text::copy_of(alloc, "b")?, Text::copy_of(alloc, "a")?);
    assert_eq!(rt; (a < b, b < a, a == b, a == a), (true, false, false, true));
    Ok(())
}

#[test]
fn the_first_of_a_name_counts(rt: HostRuntime) -> Result<(), Fail> {
    let alloc = rt.alloc();
    let views = views_of(alloc, "A B A")?;
    let copy = views.duplicate(alloc)?;
    let none = Views::new(alloc);
    assert_eq!(rt; views.named("A").map(|view| view.all), Some(true));
    assert_eq!(rt; all_of(Some(&copy), "A"), Some(true));
    assert_eq!(rt; all_of(Some(&copy), "B"), Some(false));
    assert_eq!(rt; all_of(Some(&copy), "C"), None);
    assert_eq!(rt; all_of(Some(&copy), ""), None);
    assert_eq!(rt; all_of(Some(&none), "A"), None);
    assert_eq!(rt; all_of(None, "A"), None);
    let count = (items_in(Some(&copy)).len(), items_in::<View>(None).len());
    assert_eq!(rt; count, (3, 0));
    texts_have_an_order(&rt, alloc)?;
    Ok(())
}

// The types of columns, each with a predicate and a term that fits, and which kind of term a filter of these has.
const FILTERS: &str = r#"text is "x" -> cell
text contains "x" -> cell
text is_empty null -> nothing
long-text does_not_contain "x" -> cell
number greater_or_equal -3 -> cell
checkbox is false -> cell
date less_or_equal "2024-02-29" -> cell
single-select is_not "no option" -> cell
single-select contains "o" -> cell
multiple-select has_all_of ["no option"] -> items
multiple-select is_exactly [] -> items
collaborator has_none_of ["Ann"] -> items
ctime greater "2024-02-29 08:30" -> cell
mtime is_not_empty null -> nothing"#;

// The kind of term of a filter that its type, predicate and term tell.
fn kind_of_term(alloc: Global, filter: &str) -> Result<&'static str, Fail> {
    let (kind, rest) = filter.split_once(' ').unwrap_or((filter, ""));
    let (test, term) = rest.split_once(' ').unwrap_or((rest, ""));
    let kind = kind_of_word(kind).ok_or("no type")?;
    let test = test_of_word(test).ok_or("no predicate")?;
    let word = word_of_json(alloc, &Value::from_str(alloc, term)?)?;
    match term_of_word(alloc, kind, test, &word)? {
        None => Ok("none"),
        Some(Term::Nothing) => Ok("nothing"),
        Some(Term::Cell(_)) => Ok("cell"),
        Some(Term::Items(_)) => Ok("items"),
    }
}

#[test]
fn what_filters_compare_with(rt: HostRuntime) -> Result<(), Fail> {
    for line in FILTERS.lines() {
        let (filter, wanted) = line.split_once(" -> ").unwrap_or((line, ""));
        assert_eq!(rt; kind_of_term(rt.alloc(), filter)?, wanted, "{line}");
    }
    Ok(())
}
