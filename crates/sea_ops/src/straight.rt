// Writing rows straight, with no JSON value in between.
ghost use Rattle.std.specs.Prelude.{◌≡◌, ◌++◌, List, ◌∷◌, map, option_map, true, IsTrue, OnOk, IfOk, IfSome};
ghost use Rattle.serde_json.specs.Data.{Members, member, string};
ghost use Rattle.serde_json.specs.Written.{compact_text};
ghost use Rattle.sea_cell.specs.Conversion.{texts_json};
ghost use Rattle.sea_operation.specs.declared.operation.NamedCell.{NamedCell};
ghost use Rattle.sea_ops.specs.Straight.{value_tokens, all_tokens, tokens_of_members, is_before as is_before_of, begin_in_order as begin_in_order_of, are_in_order as are_in_order_of, members_of, members_left, cells_json, head_tokens, tail_tokens, id_tokens};
ghost use Rattle.sea_ops.specs.Texts.{text_of, append_rows_json, modify_rows_json, row_json, change_json, with_id_json, json_of_word, whole_json, odd};

use json::Writer;
use sea_cell::{CellWord, Text};
use sea_fields::Bytes;
use sea_operation::{NamedCell, Op, OpRow, RowChange};
use std::alloc::{AllocError, Global};
use std::cmp::Ordering;

/// The canonical text of an operation that appends or changes rows. None says that it is another one, or that the cells
/// of a row aren't in byte order of their names, as they are in each operation that was read.
pub fn rows_text(alloc: Global, op: &Op) -> Result<Option<Bytes>, AllocError>
    ensures { IfOk result (λ text. IfSome text (λ text. text ≡ text_of op.now)) }
{
    match op {
        Op::AppendRows { table, rows } => append_text(alloc, table.as_str(), rows.as_slice()),
        Op::ModifyRows { table, rows } => modify_text(alloc, table.as_str(), rows.as_slice()),
        _ => Ok(None),
    }
}

fn append_text(alloc: Global, table: &str, rows: &[OpRow]) -> Result<Option<Bytes>, AllocError>
    ensures { IfOk result (λ text. IfSome text (λ text. text ≡ compact_text (append_rows_json table.now rows.now))) }
{
    let mut out = Writer::new(Vec::new(alloc));
    begin(&mut out, "append_rows")?;
    if !put_rows(&mut out, rows)? {
        return Ok(None);
    }
    end(&mut out, table)?;
    Ok(Some(Bytes::from(out.into_inner())))
}

fn modify_text(
    alloc: Global,
    table: &str,
    changes: &[RowChange],
) -> Result<Option<Bytes>, AllocError>
    ensures { IfOk result (λ text. IfSome text (λ text. text ≡ compact_text (modify_rows_json table.now changes.now))) }
{
    let mut out = Writer::new(Vec::new(alloc));
    begin(&mut out, "modify_rows")?;
    if !put_changes(&mut out, changes)? {
        return Ok(None);
    }
    end(&mut out, table)?;
    Ok(Some(Bytes::from(out.into_inner())))
}

// What stands before the rows.
fn begin(out: &mut Writer, word: &str) -> Result<(), AllocError>
    ensures before { out.new.before ≡ out.old.before }
    ensures head { OnOk result (out.new.tokens ≡ out.old.tokens ++ head_tokens word.now) }
{
    out.begin_object()?;
    out.key("op")?;
    out.string(word)?;
    out.key("rows")?;
    out.begin_array()?;
    Ok(())
}

// What stands behind them.
fn end(out: &mut Writer, table: &str) -> Result<(), AllocError>
    ensures before { out.new.before ≡ out.old.before }
    ensures tail { OnOk result (out.new.tokens ≡ out.old.tokens ++ tail_tokens table.now) }
{
    out.key("table")?;
    out.string(table)?;
    out.end_object()?;
    Ok(())
}

// Rows and the closing bracket, unless cells are out of order.
fn put_rows(out: &mut Writer, rows: &[OpRow]) -> Result<bool, AllocError>
    ensures before { out.new.before ≡ out.old.before }
    ensures rows { IfOk result (λ done. IsTrue done → out.new.tokens ≡ out.old.tokens ++ all_tokens (map row_json rows.now)) }
{
    for row in rows {
        if !put_row(out, row)? {
            return Ok(false);
        }
    }
    out.end_array()?;
    Ok(true)
}

// A row, unless its cells are out of order.
fn put_row(out: &mut Writer, row: &OpRow) -> Result<bool, AllocError>
    ensures before { out.new.before ≡ out.old.before }
    ensures row { IfOk result (λ done. IsTrue done → out.new.tokens ≡ out.old.tokens ++ value_tokens (row_json row.now)) }
{
    match &row.id {
        Some(id) => put_with_id(out, row.cells.as_slice(), id),
        None => put_without_id(out, row.cells.as_slice()),
    }
}

// Changes of rows and the closing bracket, unless cells are out of order.
fn put_changes(out: &mut Writer, changes: &[RowChange]) -> Result<bool, AllocError>
    ensures before { out.new.before ≡ out.old.before }
    ensures changes { IfOk result (λ done. IsTrue done → out.new.tokens ≡ out.old.tokens ++ all_tokens (map change_json changes.now)) }
{
    for change in changes {
        if !put_with_id(out, change.cells.as_slice(), &change.id.0)? {
            return Ok(false);
        }
    }
    out.end_array()?;
    Ok(true)
}

// A row of cells and an id, unless the cells are out of order.
#[tactic(auto, using(crate::proofs::InOrder::in_order))]
fn put_with_id(out: &mut Writer, cells: &[NamedCell], id: &Text) -> Result<bool, AllocError>
    ensures before { out.new.before ≡ out.old.before }
    ensures row { IfOk result (λ done. IsTrue done → out.new.tokens ≡ out.old.tokens ++ value_tokens (with_id_json cells.now id.now)) }
{
    if !are_in_order(cells) {
        return Ok(false);
    }
    out.begin_object()?;
    put_cells_with_id(out, cells, id)?;
    Ok(true)
}

// A row of cells, unless they are out of order.
#[tactic(auto, using(crate::proofs::InOrder::in_order))]
fn put_without_id(out: &mut Writer, cells: &[NamedCell]) -> Result<bool, AllocError>
    ensures before { out.new.before ≡ out.old.before }
    ensures row { IfOk result (λ done. IsTrue done → out.new.tokens ≡ out.old.tokens ++ value_tokens (cells_json cells.now)) }
{
    if !are_in_order(cells) {
        return Ok(false);
    }
    out.begin_object()?;
    put_cells(out, cells)?;
    Ok(true)
}

// Each name comes before the next one.
#[tactic(auto, unfolding(crate::specs::Straight::are_in_order))]
fn are_in_order(cells: &[NamedCell]) -> bool
    ensures { result ≡ are_in_order_of cells.now }
{
    for at in 0..cells.len() {
        if !begin_in_order(&cells[at..]) {
            return false;
        }
    }
    true
}

// The first name comes before the second one.
fn begin_in_order(cells: &[NamedCell]) -> bool
    ensures { result ≡ begin_in_order_of cells.now }
{
    match cells {
        [one, other, ..] => is_before(&one.name, &other.name),
        _ => true,
    }
}

// A name that comes before another, by bytes.
fn is_before(one: &Text, other: &Text) -> bool
    ensures { result ≡ is_before_of one.now other.now }
{
    match one.cmp(other) {
        Ordering::Less => true,
        Ordering::Equal => false,
        Ordering::Greater => false,
    }
}

// Cells and the closing bracket.
fn put_cells(out: &mut Writer, cells: &[NamedCell]) -> Result<(), AllocError>
    ensures before { out.new.before ≡ out.old.before }
    ensures cells { OnOk result (out.new.tokens ≡ out.old.tokens ++ tokens_of_members (members_of cells.now)) }
{
    for cell in cells {
        put_cell(out, cell)?;
    }
    out.end_object()?;
    Ok(())
}

// A cell.
fn put_cell(out: &mut Writer, cell: &NamedCell) -> Result<(), AllocError>
    ensures before { out.new.before ≡ out.old.before }
    ensures cell { OnOk result ((rest : Members) → out.new.tokens ++ tokens_of_members rest ≡ out.old.tokens ++ tokens_of_members (member cell.now.name (json_of_word cell.now.word) rest)) }
{
    out.key(cell.name.as_str())?;
    put_word(out, &cell.word)?;
    Ok(())
}

// Cells with an id at its place among them, and the closing bracket.
fn put_cells_with_id(out: &mut Writer, cells: &[NamedCell], id: &Text) -> Result<(), AllocError>
    ensures before { out.new.before ≡ out.old.before }
    ensures cells { OnOk result (out.new.tokens ≡ out.old.tokens ++ tokens_of_members (members_left true id.now cells.now)) }
{
    let mut pending = true;
    for cell in cells {
        pending = put_cell_or_id(out, cell, id, pending)?;
    }
    if pending {
        put_id(out, id)?;
    }
    out.end_object()?;
    Ok(())
}

// The next cell, before which the id is put if its place is there. The answer is whether the id is still to be put.
fn put_cell_or_id(
    out: &mut Writer,
    cell: &NamedCell,
    id: &Text,
    pending: bool,
) -> Result<bool, AllocError>
    ensures before { out.new.before ≡ out.old.before }
    ensures cell { IfOk result (λ left. (rest : List NamedCell) → out.new.tokens ++ tokens_of_members (members_left left id.now rest) ≡ out.old.tokens ++ tokens_of_members (members_left pending id.now (cell.now ∷ rest))) }
{
    if !pending {
        put_cell(out, cell)?;
        return Ok(false);
    }
    match "_id".cmp(cell.name.as_str()) {
        Ordering::Less => {
            put_id(out, id)?;
            put_cell(out, cell)?;
            Ok(false)
        }
        Ordering::Equal => {
            put_id(out, id)?;
            Ok(false)
        }
        Ordering::Greater => {
            put_cell(out, cell)?;
            Ok(true)
        }
    }
}

// The id of a row.
fn put_id(out: &mut Writer, id: &Text) -> Result<(), AllocError>
    ensures before { out.new.before ≡ out.old.before }
    ensures id { OnOk result (out.new.tokens ≡ out.old.tokens ++ id_tokens id.now) }
{
    out.key("_id")?;
    out.string(id.as_str())?;
    Ok(())
}

// The JSON that a cell's word came from, and `{}` for what is Odd.
fn put_word(out: &mut Writer, word: &CellWord) -> Result<(), AllocError>
    ensures before { out.new.before ≡ out.old.before }
    ensures word { OnOk result (out.new.tokens ≡ out.old.tokens ++ value_tokens (json_of_word word.now)) }
{
    match word {
        CellWord::Null => out.null(),
        CellWord::Check(check) => out.boolean(*check),
        CellWord::Whole(whole) => put_whole(out, *whole),
        CellWord::Text(text) => out.string(text.as_str()),
        CellWord::List(texts) => put_texts(out, texts.as_slice()),
        CellWord::Odd => put_odd(out),
    }
}

fn put_whole(out: &mut Writer, whole: i128) -> Result<(), AllocError>
    ensures before { out.new.before ≡ out.old.before }
    ensures whole { OnOk result (out.new.tokens ≡ out.old.tokens ++ value_tokens (whole_json whole)) }
{
    if let Ok(whole) = u64::try_from(whole) {
        return out.u64(whole);
    }
    if let Ok(whole) = i64::try_from(whole) {
        return out.i64(whole);
    }
    put_odd(out)
}

// What stands for all JSON that no column takes.
fn put_odd(out: &mut Writer) -> Result<(), AllocError>
    ensures before { out.new.before ≡ out.old.before }
    ensures odd { OnOk result (out.new.tokens ≡ out.old.tokens ++ value_tokens odd) }
{
    out.begin_object()?;
    out.end_object()?;
    Ok(())
}

// An array of texts.
fn put_texts(out: &mut Writer, texts: &[Text]) -> Result<(), AllocError>
    ensures before { out.new.before ≡ out.old.before }
    ensures texts { OnOk result (out.new.tokens ≡ out.old.tokens ++ value_tokens (texts_json texts.now)) }
{
    out.begin_array()?;
    for text in texts {
        out.string(text.as_str())?;
    }
    out.end_array()?;
    Ok(())
}
