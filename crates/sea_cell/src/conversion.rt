// From what an operation says to a cell, and from a cell to what is shown.
ghost use Rattle.std.specs.Prelude.{◌≡◌, IfOk};
ghost use Rattle.std.specs.List.{list_all};
ghost use Rattle.serde_json.specs.View.{view};
ghost use Rattle.sea_moment.specs.Dates.{moment_of};
ghost use Rattle.sea_text.specs.Distinct.{is_among as is_among_of};
ghost use Rattle.sea_cell.specs.Answers.{Answers};
ghost use Rattle.sea_cell.specs.Conversion.{cell_of, text_of_word, text_cell, number_of_word, number_cell, check_of_word, date_of_word, moment_cell, choice_of_word, choice_cell, choices_of_word, choices_cell, choices_once, names_of_word, names_cell, names_once, is_short as is_short_of, json_of};

use crate::amounts::is_amount;
use crate::arrays::{ids_json, texts_json};
use crate::column::{ColKind, Column};
use crate::keys::Moment;
use crate::values::CellValue;
use crate::words::CellWord;
use sea_moment::{moment_of_text, text_of_moment};
use sea_text::{Text, Texts, is_among, without_repeats};
use serde_json::Value;
use std::alloc::{AllocError, Global};
use thiserror::Error;

/// Why a column takes no cell of what an operation says.
#[derive(Clone, Copy, Debug, PartialEq, Eq, Error)]
pub enum CellFault {
    #[error("out of memory")]
    Memory,
    #[error("the column takes no cells")]
    NotWritable,
    #[error("no text")]
    NotText,
    #[error("no whole number")]
    NotWhole,
    #[error("out of range")]
    OutOfRange,
    #[error("neither true nor false")]
    NotCheck,
    #[error("no date")]
    BadDate,
    #[error("no list of texts")]
    NotList,
    #[error("too long")]
    TooLong,
    #[error("no option of the column")]
    NoOption,
}

impl From<AllocError> for CellFault {
    ghost use Rattle.sea_cell.specs.declared.conversion.CellFault.TheVariants.{Memory};

    ghost from_gives = { λ _ fault. fault ≡ Memory };

    fn from(_error: AllocError) -> CellFault {
        CellFault::Memory
    }
}

/// The cell that a column makes of what an operation says. null makes Empty in every column that takes cells. The
/// refusals are these, tried in this order by the column's type:
///
/// - text and long-text: NotText for what is no text, TooLong above 1,000 or 8,192 bytes. The empty text makes Empty.
/// - number: NotWhole for what is no integer of 64 bits, OutOfRange where its absolute value is above 10^12.
/// - checkbox: NotCheck for what is neither true nor false.
/// - date: NotText for what is no text, BadDate for a text, the empty one too, that is neither a date `YYYY-MM-DD` of
///   the years 0001 to 9999 nor such a date, one space or `T`, and a time `HH:MM` from 00:00 to 23:59.
/// - single-select: NotText, and NoOption for a text that is none of the column's options. The empty text makes Empty.
/// - multiple-select: NotList for what is no list of texts. Repeats count once, at their first place; then TooLong above
///   64 items, and NoOption where one is none of the column's options. The empty list makes Empty.
/// - collaborator: NotList in the same way, then TooLong above 64 items or where one has more than 64 bytes.
/// - link, ctime and mtime: NotWritable, also for null.
///
/// Memory stands in place of any of these answers where no memory is left.
pub fn cell_of_json(alloc: Global, column: &Column, json: &CellWord) -> Result<CellValue, CellFault>
    ensures { Answers CellFault.Memory result (cell_of column.now json.now) }
{
    match column.kind {
        ColKind::Text => text_of(alloc, 1000, json),
        ColKind::LongText => text_of(alloc, 8192, json),
        ColKind::Number => number_of(json),
        ColKind::Check => check_of(json),
        ColKind::Date => date_of(json),
        ColKind::Select => choice_of(alloc, column.options.as_slice(), json),
        ColKind::Multi => choices_of(alloc, column.options.as_slice(), json),
        ColKind::People => names_of(alloc, json),
        ColKind::Link | ColKind::Made | ColKind::Changed => Err(CellFault::NotWritable),
    }
}

// The cell of a column that takes texts of at most `limit` bytes.
pub(crate) fn text_of(alloc: Global, limit: usize, json: &CellWord) -> Result<CellValue, CellFault>
    ensures { Answers CellFault.Memory result (text_of_word limit json.now) }
{
    match json {
        CellWord::Null => Ok(CellValue::Empty),
        CellWord::Text(text) => text_within(alloc, limit, text),
        _ => Err(CellFault::NotText),
    }
}

// The same of a text.
fn text_within(alloc: Global, limit: usize, text: &Text) -> Result<CellValue, CellFault>
    ensures { Answers CellFault.Memory result (text_cell limit text.now) }
{
    let text = text.as_str();
    if text.is_empty() {
        return Ok(CellValue::Empty);
    }
    if text.len() > limit {
        return Err(CellFault::TooLong);
    }
    Ok(CellValue::Text(Text::copy_of(alloc, text)?))
}

// The cell of a number column.
#[tactic(auto, unfolding(crate::specs::Conversion::number_of_word))]
pub(crate) fn number_of(json: &CellWord) -> Result<CellValue, CellFault>
    ensures { result ≡ number_of_word json.now }
{
    match json {
        CellWord::Null => Ok(CellValue::Empty),
        CellWord::Whole(units) => number_within(*units),
        _ => Err(CellFault::NotWhole),
    }
}

// The same of whole units.
fn number_within(units: i128) -> Result<CellValue, CellFault>
    ensures { result ≡ number_cell units }
{
    if !is_amount(units) {
        return Err(CellFault::OutOfRange);
    }
    Ok(CellValue::Number(units as i64))
}

// The cell of a checkbox column.
#[tactic(auto, unfolding(crate::specs::Conversion::check_of_word))]
pub(crate) fn check_of(json: &CellWord) -> Result<CellValue, CellFault>
    ensures { result ≡ check_of_word json.now }
{
    match json {
        CellWord::Null => Ok(CellValue::Empty),
        CellWord::Check(check) => Ok(CellValue::Check(*check)),
        _ => Err(CellFault::NotCheck),
    }
}

// The cell of a date column.
#[tactic(auto, unfolding(crate::specs::Conversion::date_of_word))]
pub(crate) fn date_of(json: &CellWord) -> Result<CellValue, CellFault>
    ensures { result ≡ date_of_word json.now }
{
    match json {
        CellWord::Null => Ok(CellValue::Empty),
        CellWord::Text(text) => date_said(text.as_str()),
        _ => Err(CellFault::NotText),
    }
}

// The same of a text.
fn date_said(text: &str) -> Result<CellValue, CellFault>
    ensures { result ≡ moment_cell (moment_of text.now) }
{
    match moment_of_text(text) {
        Some(minutes) => Ok(CellValue::Moment(Moment(minutes))),
        None => Err(CellFault::BadDate),
    }
}

// The cell of a single-select column.
#[tactic(auto, unfolding(crate::specs::Conversion::choice_of_word))]
fn choice_of(alloc: Global, options: &[Text], json: &CellWord) -> Result<CellValue, CellFault>
    ensures { Answers CellFault.Memory result (choice_of_word options.now json.now) }
{
    match json {
        CellWord::Null => Ok(CellValue::Empty),
        CellWord::Text(text) => choice_among(alloc, options, text.as_str()),
        _ => Err(CellFault::NotText),
    }
}

// The same of a text.
fn choice_among(alloc: Global, options: &[Text], text: &str) -> Result<CellValue, CellFault>
    ensures { Answers CellFault.Memory result (choice_cell options.now text.now) }
{
    if text.is_empty() {
        return Ok(CellValue::Empty);
    }
    if !is_among(options, text) {
        return Err(CellFault::NoOption);
    }
    Ok(CellValue::Choice(Text::copy_of(alloc, text)?))
}

// The cell of a multiple-select column.
#[tactic(auto, unfolding(crate::specs::Conversion::choices_of_word))]
fn choices_of(alloc: Global, options: &[Text], json: &CellWord) -> Result<CellValue, CellFault>
    ensures { Answers CellFault.Memory result (choices_of_word options.now json.now) }
{
    match json {
        CellWord::Null => Ok(CellValue::Empty),
        CellWord::List(texts) => choices_among(alloc, options, texts.as_slice()),
        _ => Err(CellFault::NotList),
    }
}

// The same of texts.
fn choices_among(alloc: Global, options: &[Text], texts: &[Text]) -> Result<CellValue, CellFault>
    ensures { Answers CellFault.Memory result (choices_cell options.now texts.now) }
{
    if texts.is_empty() {
        return Ok(CellValue::Empty);
    }
    kept_choices(options, without_repeats(alloc, texts)?)
}

// The same of texts without repeats.
fn kept_choices(options: &[Text], texts: Texts) -> Result<CellValue, CellFault>
    ensures { result ≡ choices_once options.now texts }
{
    if texts.len() > 64 {
        return Err(CellFault::TooLong);
    }
    if !are_among(options, texts.as_slice()) {
        return Err(CellFault::NoOption);
    }
    Ok(CellValue::Choices(texts))
}

// Whether each of some texts is an option.
fn are_among(options: &[Text], texts: &[Text]) -> bool
    ensures { result ≡ list_all (is_among_of options.now) texts.now }
{
    texts.iter().all(|text| is_among(options, text.as_str()))
}

// The cell of a collaborator column.
#[tactic(auto, unfolding(crate::specs::Conversion::names_of_word))]
fn names_of(alloc: Global, json: &CellWord) -> Result<CellValue, CellFault>
    ensures { Answers CellFault.Memory result (names_of_word json.now) }
{
    match json {
        CellWord::Null => Ok(CellValue::Empty),
        CellWord::List(texts) => names_among(alloc, texts.as_slice()),
        _ => Err(CellFault::NotList),
    }
}

// The same of texts.
fn names_among(alloc: Global, texts: &[Text]) -> Result<CellValue, CellFault>
    ensures { Answers CellFault.Memory result (names_cell texts.now) }
{
    if texts.is_empty() {
        return Ok(CellValue::Empty);
    }
    kept_names(without_repeats(alloc, texts)?)
}

// The same of texts without repeats.
fn kept_names(texts: Texts) -> Result<CellValue, CellFault>
    ensures { result ≡ names_once texts }
{
    if texts.len() > 64 || !are_short(texts.as_slice()) {
        return Err(CellFault::TooLong);
    }
    Ok(CellValue::Names(texts))
}

// Whether each of some texts has at most 64 bytes.
fn are_short(texts: &[Text]) -> bool
    ensures { result ≡ list_all is_short_of texts.now }
{
    texts.iter().all(|text| text.as_str().len() <= 64)
}

/// A cell as JSON: a text and an option as a string, a number as an integer, a checkbox as true or false, a moment as
/// `YYYY-MM-DD`, with a space and `HH:MM` behind it unless it is 00:00, options and names as an array of strings, links
/// as an array of ids, and an empty cell as null. It fails only where no memory is left.
pub fn json_of_cell(alloc: Global, cell: &CellValue) -> Result<Value, AllocError>
    ensures { IfOk result (λ json. view json ≡ json_of cell.now) }
{
    match cell {
        CellValue::Empty => Ok(Value::Null),
        CellValue::Text(text) => Ok(Value::try_from_str(alloc, text.as_str())?),
        CellValue::Number(units) => Ok(Value::from(*units)),
        CellValue::Check(check) => Ok(Value::Bool(*check)),
        CellValue::Moment(moment) => Ok(Value::String(text_of_moment(alloc, moment.0)?)),
        CellValue::Choice(option) => Ok(Value::try_from_str(alloc, option.as_str())?),
        CellValue::Choices(options) => Ok(texts_json(alloc, options.as_slice())?),
        CellValue::Names(names) => Ok(texts_json(alloc, names.as_slice())?),
        CellValue::Links(ids) => Ok(ids_json(alloc, ids.as_slice())?),
    }
}
