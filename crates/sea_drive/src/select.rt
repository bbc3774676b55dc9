// The one form of a select that is built, and its answer.
ghost use Rattle.std.specs.Prelude.{◌≡◌, map, take, option_map, IfOk};
ghost use Rattle.std.specs.List.{list_all, list_any};
ghost use Rattle.std.specs.Str.{str_eq_ignore_ascii_case};
ghost use Rattle.sea_cell.specs.Cells.{cell_in as cell_in_row};
ghost use Rattle.sea_moment.specs.Dates.{is_digit as is_digit_of};
ghost use Rattle.sea_drive.specs.Select.{select_of, is_keyword as is_keyword_of, is_word_byte as is_word_byte_of, is_table_word as is_table_word_of, answer_of as answer_for};

use crate::outcome::{Answer, AnswerRow, AnswerRows};
use crate::texts::stripped;
use sea_cell::{Column, Row, Shared, cell_in};
use sea_dump::names_of;
use sea_links::LinkPair;
use sea_operation::PlainTable;
use sea_plain::rows_shown;
use sqlite_items::Items;
use std::alloc::{AllocError, Global};

/// The words that name nothing unless they are quoted.
const KEYWORDS: [&str; 39] = [
    "SELECT", "DISTINCT", "FROM", "WHERE", "GROUP", "BY", "HAVING", "ORDER", "ASC", "DESC",
    "LIMIT", "OFFSET", "AND", "OR", "NOT", "IN", "BETWEEN", "LIKE", "IS", "NULL", "HAS", "ANY",
    "ALL", "NONE", "OF", "EXACTLY", "INSERT", "INTO", "VALUES", "UPDATE", "DELETE", "TRUE",
    "FALSE", "AS", "COUNT", "SUM", "MIN", "MAX", "AVG",
];

/// The table that the text of a select names, or None where the text isn't of the form that is built: `SELECT * FROM`
/// in capitals and with single blanks, then a name of letters, digits and `_` that doesn't begin with a digit and is
/// no keyword.
pub fn table_of_select(text: &str) -> Option<&str>
    ensures { option_map (λ name. name.now) result ≡ select_of text.now }
{
    let Some(name) = stripped(text, "SELECT * FROM ") else {
        return None;
    };
    if is_table_word(name) {
        return Some(name);
    }
    None
}

fn is_table_word(name: &str) -> bool
    ensures { result ≡ is_table_word_of name.now }
{
    let bytes = name.as_bytes();
    !bytes.is_empty() && !is_digit(bytes[0]) && are_word_bytes(bytes) && !is_keyword(name)
}

fn is_digit(byte: u8) -> bool
    ensures { result ≡ is_digit_of byte }
{
    48 <= byte && byte <= 57
}

fn is_word_byte(byte: u8) -> bool
    ensures { result ≡ is_word_byte_of byte }
{
    matches!(byte, b'A'..=b'Z' | b'a'..=b'z' | b'_') || is_digit(byte)
}

fn are_word_bytes(bytes: &[u8]) -> bool
    ensures { result ≡ list_all is_word_byte_of bytes.now }
{
    bytes.iter().all(|byte| is_word_byte(*byte))
}

// A keyword, in capitals or not.
fn is_keyword(word: &str) -> bool
    ensures { result ≡ is_keyword_of word.now }
{
    is_one_of(&KEYWORDS, word)
}

// One of some words, in capitals or not.
fn is_one_of(words: &[&str], word: &str) -> bool
    ensures { result ≡ list_any (λ other. str_eq_ignore_ascii_case other.now word.now) words.now }
{
    words.iter().any(|other| same_word(other, word))
}

fn same_word(one: &str, other: &str) -> bool
    ensures { result ≡ str_eq_ignore_ascii_case one.now other.now }
{
    one.eq_ignore_ascii_case(other)
}

/// The columns' names of a table, and the cells of its first 100 rows. Those of link columns come from the pairs of linked
/// rows.
pub fn answer_of(
    alloc: Global,
    pairs: &[Shared<LinkPair>],
    plain: &PlainTable,
) -> Result<Answer, AllocError>
    ensures { IfOk result (λ answer. answer ≡ answer_for pairs.now plain.now) }
{
    let columns = plain.table.get().columns.as_slice();
    let rows = front_of(plain.rows.get().as_slice(), 100);
    let rows = rows_shown(alloc, pairs, columns, rows)?;
    Ok(Answer {
        columns: names_of(alloc, columns)?,
        rows: cells_of_rows(alloc, columns, rows.as_slice())?,
    })
}

// The first rows, at most so many.
fn front_of(rows: &[Shared<Row>], most: usize) -> &[Shared<Row>]
    ensures { result.now ≡ take most rows.now }
{
    if rows.len() > most {
        return &rows[..most];
    }
    rows
}

fn cells_of_rows(
    alloc: Global,
    columns: &[Column],
    rows: &[Shared<Row>],
) -> Result<AnswerRows, AllocError>
    ensures { IfOk result (λ all. all ≡ map (λ row. map (cell_in_row row) columns.now) rows.now) }
{
    let mut all = Items::new(alloc);
    for row in rows {
        all.push(cells_of_row(alloc, columns, row.get())?)?;
    }
    Ok(all)
}

fn cells_of_row(alloc: Global, columns: &[Column], row: &Row) -> Result<AnswerRow, AllocError>
    ensures { IfOk result (λ cells. cells ≡ map (cell_in_row row.now) columns.now) }
{
    let mut cells = Items::new(alloc);
    for column in columns {
        cells.push(cell_in(alloc, row, column)?)?;
    }
    Ok(cells)
}
