// How many bytes the encoding of a row has.
ghost use Rattle.std.specs.Prelude.{◌≡◌, ◌+◌, ◌*◌, ◌^◌, ◌≤◌, length, if◌then◌else◌, IfSome};
ghost use Rattle.sea_cell.specs.Sizes.{row_bytes_of, row_size, cells_size as cells_size_of, cell_size as cell_size_of, text_size as text_size_of, list_size as list_size_of, texts_size as texts_size_of};

use crate::amounts::is_amount;
use crate::row::{Cell, Row};
use crate::values::CellValue;
use sea_moment::is_moment;
use sea_text::Text;

/// The length of the row's encoding in bytes, or 2^64 - 1 where it has none. docs/formats.md says how a row is
/// encoded. It has no encoding where a moment lies outside the years 1 to 9999, a number's absolute value is above
/// 10^12, the id has more than 255 bytes, there are more than 255 cells or items of a list, a text has 2^32 bytes or
/// more, or a cell holds links.
pub fn row_bytes(row: &Row) -> u64
    ensures { result ≡ row_bytes_of row.now }
{
    encoded_size(row).unwrap_or(u64::MAX)
}

// The length of the row's encoding, where it has one.
fn encoded_size(row: &Row) -> Option<u64>
    ensures { result ≡ row_size row.now }
{
    let id = row.id.0.as_str().len();
    let cells = row.cells.as_slice();
    if !(is_moment(row.made.0) && is_moment(row.changed.0) && id <= 255 && cells.len() <= 255) {
        return None;
    }
    match cells_size(cells) {
        Some(size) => Some(26 + id as u64 + size),
        None => None,
    }
}

// The cells together.
fn cells_size(cells: &[Cell]) -> Option<u64>
    requires { length cells.now ≤ 255 }
    ensures size { result ≡ cells_size_of cells.now }
    ensures bound { IfSome result (λ size. size ≤ 255 * 2 ^ 41) }
{
    let mut total = 0u64;
    for cell in cells {
        match cell_size(&cell.value) {
            Some(size) => total += size,
            None => return None,
        }
    }
    Some(total)
}

// One cell.
fn cell_size(value: &CellValue) -> Option<u64>
    ensures size { result ≡ cell_size_of value.now }
    ensures bound { IfSome result (λ size. size ≤ 2 ^ 41) }
{
    match value {
        CellValue::Text(text) => text_size(9, text.as_str()),
        CellValue::Number(units) => fixed_size(is_amount(i128::from(*units)), 13),
        CellValue::Check(_) => Some(6),
        CellValue::Moment(moment) => fixed_size(is_moment(moment.0), 13),
        CellValue::Choice(option) => text_size(9, option.as_str()),
        CellValue::Choices(options) => list_size(options.as_slice()),
        CellValue::Names(names) => list_size(names.as_slice()),
        CellValue::Links(_) | CellValue::Empty => None,
    }
}

// A value of a size of its own, where it has an encoding.
fn fixed_size(has_encoding: bool, size: u64) -> Option<u64>
    ensures { result ≡ (if has_encoding then Some size else None) }
{
    if has_encoding { Some(size) } else { None }
}

// A text after this many bytes that stand before it.
fn text_size(before: u64, text: &str) -> Option<u64>
    requires { before ≤ 9 }
    ensures size { result ≡ text_size_of before text.now }
    ensures bound { IfSome result (λ size. size ≤ 2 ^ 32 + 8) }
{
    let length = text.len() as u64;
    if length < 1 << 32 {
        Some(before + length)
    } else {
        None
    }
}

// A list of texts.
fn list_size(texts: &[Text]) -> Option<u64>
    ensures size { result ≡ list_size_of texts.now }
    ensures bound { IfSome result (λ size. size ≤ 2 ^ 41) }
{
    if texts.len() > 255 {
        return None;
    }
    match texts_size(texts) {
        Some(size) => Some(6 + size),
        None => None,
    }
}

// The texts of a list.
fn texts_size(texts: &[Text]) -> Option<u64>
    requires { length texts.now ≤ 255 }
    ensures size { result ≡ texts_size_of texts.now }
    ensures bound { IfSome result (λ size. size ≤ 255 * (2 ^ 32 + 8)) }
{
    let mut total = 0u64;
    for text in texts {
        match text_size(4, text.as_str()) {
            Some(size) => total += size,
            None => return None,
        }
    }
    Some(total)
}
