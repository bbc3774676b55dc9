// The JSON of refusals.
ghost use Rattle.std.specs.Prelude.{◌≡◌, IfOk, codes};
ghost use Rattle.serde_json.specs.View.{view};
ghost use Rattle.sea_drive.specs.Refused.{error_json as error_json_of, error_with_text, fault_json as fault_json_of, column_error as column_error_of, counter_word as counter_word_of, fault_word as fault_word_of, refusal_json as refusal_json_of};

use sea_cell::{CellFault, Text};
use sea_core::CoreFault;
use sea_operation::{Counter, OpRefusal};
use serde_json::{Value, json};
use std::alloc::{AllocError, Global};

/// The JSON of what the core answers in place of what was asked for: its name and its number, or the refusal of the
/// operation.
pub fn fault_json(alloc: Global, fault: &CoreFault) -> Result<Value, AllocError>
    ensures { IfOk result (λ json. view json ≡ fault_json_of fault.now) }
{
    match fault {
        CoreFault::Memory => error_json(alloc, "Memory"),
        CoreFault::Op(refusal) => refusal_json(alloc, refusal),
        CoreFault::BaseFailed { count } => failed_json(alloc, *count),
        CoreFault::LogFull { size } => full_json(alloc, *size),
        CoreFault::DiskFault => error_json(alloc, "DiskFault"),
        CoreFault::FeedGone { opening } => gone_json(alloc, *opening),
        CoreFault::FeedAhead { version } => ahead_json(alloc, *version),
    }
}

fn full_json(alloc: Global, size: u64) -> Result<Value, AllocError>
    ensures { IfOk result (λ json. view json ≡ fault_json_of (CoreFault.LogFull size)) }
{
    json!(in alloc; {"error": "LogFull", "size": size})
}

fn gone_json(alloc: Global, opening: u64) -> Result<Value, AllocError>
    ensures { IfOk result (λ json. view json ≡ fault_json_of (CoreFault.FeedGone opening)) }
{
    json!(in alloc; {"error": "FeedGone", "opening": opening})
}

fn ahead_json(alloc: Global, version: u64) -> Result<Value, AllocError>
    ensures { IfOk result (λ json. view json ≡ fault_json_of (CoreFault.FeedAhead version)) }
{
    json!(in alloc; {"error": "FeedAhead", "version": version})
}

fn failed_json(alloc: Global, count: u64) -> Result<Value, AllocError>
    ensures { IfOk result (λ json. view json ≡ fault_json_of (CoreFault.BaseFailed count)) }
{
    json!(in alloc; {"count": count, "error": "BaseFailed"})
}

// The JSON of a refusal of an operation: its name and its fields.
fn refusal_json(alloc: Global, refusal: &OpRefusal) -> Result<Value, AllocError>
    ensures { IfOk result (λ json. view json ≡ refusal_json_of refusal.now) }
{
    match refusal {
        OpRefusal::Memory => error_json(alloc, "Memory"),
        OpRefusal::BadOperation => error_json(alloc, "BadOperation"),
        OpRefusal::NumbersSpent { counter } => spent_json(alloc, *counter),
        OpRefusal::NoTable { name } => name_error(alloc, "NoTable", name),
        OpRefusal::NoColumn { name } => name_error(alloc, "NoColumn", name),
        OpRefusal::NoView { name } => name_error(alloc, "NoView", name),
        OpRefusal::NoRow { id } => id_error(alloc, "NoRow", id),
        OpRefusal::BadName { name } => name_error(alloc, "BadName", name),
        OpRefusal::NameTaken { name } => name_error(alloc, "NameTaken", name),
        OpRefusal::BadFilter { index } => filter_json(alloc, *index),
        OpRefusal::BadCell { column, fault } => cell_json(alloc, column, *fault),
        OpRefusal::DuplicateRow { id } => id_error(alloc, "DuplicateRow", id),
        OpRefusal::TooMany { limit } => many_json(alloc, *limit),
        OpRefusal::RowTooBig { bytes } => big_json(alloc, *bytes),
        OpRefusal::NotLink { column } => column_error(alloc, column, "NotLink"),
        OpRefusal::NotSelect { column } => column_error(alloc, column, "NotSelect"),
        OpRefusal::LinkExists { id } => id_error(alloc, "LinkExists", id),
        OpRefusal::NoLink { id } => id_error(alloc, "NoLink", id),
        OpRefusal::FirstColumn { column } => column_error(alloc, column, "FirstColumn"),
    }
}

/// An object that names an error.
pub fn error_json(alloc: Global, error: &str) -> Result<Value, AllocError>
    ensures { IfOk result (λ json. view json ≡ error_json_of error.now) }
{
    json!(in alloc; {"error": error})
}

// An error with a name.
fn name_error(alloc: Global, error: &str, name: &Text) -> Result<Value, AllocError>
    ensures { IfOk result (λ json. view json ≡ error_with_text error.now (codes "name") name.now) }
{
    let name = name.as_str();
    json!(in alloc; {"error": error, "name": name})
}

// An error with the id of a row.
fn id_error(alloc: Global, error: &str, id: &Text) -> Result<Value, AllocError>
    ensures { IfOk result (λ json. view json ≡ error_with_text error.now (codes "id") id.now) }
{
    let id = id.as_str();
    json!(in alloc; {"error": error, "id": id})
}

// An error with the name of a column.
fn column_error(alloc: Global, column: &Text, error: &str) -> Result<Value, AllocError>
    ensures { IfOk result (λ json. view json ≡ column_error_of column.now error.now) }
{
    let column = column.as_str();
    json!(in alloc; {"column": column, "error": error})
}

fn spent_json(alloc: Global, counter: Counter) -> Result<Value, AllocError>
    ensures { IfOk result (λ json. view json ≡ refusal_json_of (OpRefusal.NumbersSpent counter)) }
{
    let word = counter_word(counter);
    json!(in alloc; {"counter": word, "error": "NumbersSpent"})
}

fn filter_json(alloc: Global, index: u64) -> Result<Value, AllocError>
    ensures { IfOk result (λ json. view json ≡ refusal_json_of (OpRefusal.BadFilter index)) }
{
    json!(in alloc; {"error": "BadFilter", "index": index})
}

fn cell_json(alloc: Global, column: &Text, fault: CellFault) -> Result<Value, AllocError>
    ensures { IfOk result (λ json. view json ≡ refusal_json_of (OpRefusal.BadCell column.now fault)) }
{
    let column = column.as_str();
    let word = fault_word(fault);
    json!(in alloc; {"column": column, "error": "BadCell", "fault": word})
}

fn many_json(alloc: Global, limit: u32) -> Result<Value, AllocError>
    ensures { IfOk result (λ json. view json ≡ refusal_json_of (OpRefusal.TooMany limit)) }
{
    json!(in alloc; {"error": "TooMany", "limit": limit})
}

fn big_json(alloc: Global, bytes: u64) -> Result<Value, AllocError>
    ensures { IfOk result (λ json. view json ≡ refusal_json_of (OpRefusal.RowTooBig bytes)) }
{
    json!(in alloc; {"bytes": bytes, "error": "RowTooBig"})
}

// The word for a number that has a last value.
fn counter_word(counter: Counter) -> &'static str
    ensures { result.now ≡ counter_word_of counter }
{
    match counter {
        Counter::Version => "version",
        Counter::NextRow => "next_row",
        Counter::NextTable => "next_table",
        Counter::NextColumn => "next_column",
        Counter::NextLink => "next_link",
        Counter::Lsn => "lsn",
    }
}

// The word for why a column takes no such cell.
fn fault_word(fault: CellFault) -> &'static str
    ensures { result.now ≡ fault_word_of fault }
{
    match fault {
        CellFault::Memory => "Memory",
        CellFault::NotWritable => "NotWritable",
        CellFault::NotText => "NotText",
        CellFault::NotWhole => "NotWhole",
        CellFault::OutOfRange => "OutOfRange",
        CellFault::NotCheck => "NotCheck",
        CellFault::BadDate => "BadDate",
        CellFault::NotList => "NotList",
        CellFault::TooLong => "TooLong",
        CellFault::NoOption => "NoOption",
    }
}
