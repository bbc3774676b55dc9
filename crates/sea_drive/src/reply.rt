// The lines that are written for outcomes.
ghost use Rattle.std.specs.Prelude.{◌≡◌, IfOk, Some, None, map};
ghost use Rattle.sea_cell.specs.Conversion.{json_of};
ghost use Rattle.serde_json.specs.View.{view};
ghost use Rattle.sea_drive.specs.Reply.{row_json as row_json_of, rows_json as rows_json_of, outcome_json as outcome_json_of, outcome_line, reply_line};

use crate::feed_text::feed_json;
use crate::outcome::{Answer, AnswerRow, LineOutcome};
use crate::refusal_text::{error_json, fault_json};
use sea_cell::{CellValue, json_of_cell, texts_json};
use sea_ops::operations_have_no_float;
use serde_json::{Value, json};
use std::alloc::{AllocError, Global};

/// The line for want of memory, which takes none.
#[tactic(auto, unfolding(crate::specs::Reply::reply_line))]
pub fn memory_line() -> &'static [u8]
    ensures { result.now ≡ reply_line None }
{
    b"{\"error\":\"Memory\"}\n"
}

/// The line of an outcome with its newline: compact JSON with its members in byte order. It is empty for a line that
/// asks for no reply.
pub fn line_of(alloc: Global, outcome: &LineOutcome) -> Result<Vec<u8>, AllocError>
    ensures { IfOk result (λ line. line.items ≡ reply_line (Some outcome.now)) }
{
    if let LineOutcome::Silent = outcome {
        return Ok(Vec::new(alloc));
    }
    operations_have_no_float();
    let mut line = outcome_json(alloc, outcome)?.to_vec(alloc)?;
    line.push(b'\n')?;
    Ok(line)
}

// The JSON of an outcome.
fn outcome_json(alloc: Global, outcome: &LineOutcome) -> Result<Value, AllocError>
    ensures { IfOk result (λ json. view json ≡ outcome_json_of outcome.now) }
{
    match outcome {
        LineOutcome::Silent => Ok(Value::Null),
        LineOutcome::Version(version) => version_json(alloc, *version),
        LineOutcome::Reopened(version) => reopened_json(alloc, *version),
        LineOutcome::Rows(answer) => answer_json(alloc, answer),
        LineOutcome::Fed(feed) => feed_json(alloc, feed),
        LineOutcome::Refused(fault) => fault_json(alloc, fault),
        LineOutcome::NotABase => error_json(alloc, "NotABase"),
        LineOutcome::BadLine => error_json(alloc, "BadLine"),
        LineOutcome::NotYet => error_json(alloc, "NotYet"),
    }
}

fn version_json(alloc: Global, version: u64) -> Result<Value, AllocError>
    ensures { IfOk result (λ json. view json ≡ outcome_json_of (LineOutcome.Version version)) }
{
    json!(in alloc; {"version": version})
}

fn reopened_json(alloc: Global, version: u64) -> Result<Value, AllocError>
    ensures { IfOk result (λ json. view json ≡ outcome_json_of (LineOutcome.Reopened version)) }
{
    json!(in alloc; {"reopened": version})
}

fn answer_json(alloc: Global, answer: &Answer) -> Result<Value, AllocError>
    ensures { IfOk result (λ json. view json ≡ outcome_json_of (LineOutcome.Rows answer.now)) }
{
    let columns = texts_json(alloc, answer.columns.as_slice())?;
    let rows = rows_json(alloc, answer.rows.as_slice())?;
    json!(in alloc; {"columns": columns, "rows": rows})
}

// An array of rows.
fn rows_json(alloc: Global, rows: &[AnswerRow]) -> Result<Value, AllocError>
    ensures { IfOk result (λ json. view json ≡ rows_json_of rows.now) }
{
    Ok(Value::Array(arrays(alloc, rows)?))
}

fn arrays(alloc: Global, rows: &[AnswerRow]) -> Result<Vec<Value>, AllocError>
    ensures { IfOk result (λ items. map view items.items ≡ map row_json_of rows.now) }
{
    let mut items = Vec::with_capacity(alloc, rows.len())?;
    for row in rows {
        items.push(row_json(alloc, row.as_slice())?)?;
    }
    Ok(items)
}

// An array of the cells of a row.
fn row_json(alloc: Global, cells: &[CellValue]) -> Result<Value, AllocError>
    ensures { IfOk result (λ json. view json ≡ row_json_of cells.now) }
{
    Ok(Value::Array(values(alloc, cells)?))
}

fn values(alloc: Global, cells: &[CellValue]) -> Result<Vec<Value>, AllocError>
    ensures { IfOk result (λ items. map view items.items ≡ map json_of cells.now) }
{
    let mut items = Vec::with_capacity(alloc, cells.len())?;
    for cell in cells {
        items.push(json_of_cell(alloc, cell)?)?;
    }
    Ok(items)
}
