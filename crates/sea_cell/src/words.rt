// Cells and terms as an operation has them.
ghost use Rattle.std.specs.Prelude.{◌≡◌, IfOk};
ghost use Rattle.serde_json.specs.View.{view};
ghost use Rattle.sea_cell.specs.Words.{word_of};

use crate::arrays::texts_of;
use sea_text::{Text, Texts};
use serde_json::Value;
use std::alloc::{AllocError, Global};

/// A cell or a filter's term as an operation has it, before its column is known.
#[derive(Drop)]
pub enum CellWord {
    /// `null`.
    Null,
    /// `true` or `false`.
    Check(bool),
    /// An integer of 64 bits, with or without sign.
    Whole(i128),
    /// A string.
    Text(Text),
    /// An array of nothing but strings.
    List(Texts),
    /// Any other JSON.
    Odd,
}

/// What a JSON value is as a cell of an operation.
pub fn word_of_json(alloc: Global, json: &Value) -> Result<CellWord, AllocError>
    ensures { IfOk result (λ word. word ≡ word_of (view json.now)) }
{
    match json {
        Value::Null => Ok(CellWord::Null),
        Value::Bool(check) => Ok(CellWord::Check(*check)),
        Value::Number(number) => match number.as_i128() {
            Some(whole) => Ok(CellWord::Whole(whole)),
            None => Ok(CellWord::Odd),
        },
        Value::String(text) => Ok(CellWord::Text(Text::copy_of(alloc, text.as_str())?)),
        Value::Array(items) => match texts_of(alloc, items)? {
            Some(texts) => Ok(CellWord::List(texts)),
            None => Ok(CellWord::Odd),
        },
        Value::Object(_) => Ok(CellWord::Odd),
    }
}
