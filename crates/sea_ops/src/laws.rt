// What holds of canonical texts.
ghost use Rattle.std.specs.Prelude.{◌≡◌, ℕ, List, Some, false};
ghost use Rattle.serde_json.specs.Written.{has_float};
ghost use Rattle.sea_operation.specs.declared.operation.Op.{Op};
ghost use Rattle.sea_ops.specs.Operations.{op_of};
ghost use Rattle.sea_ops.specs.Texts.{text_of, json_of};

/// The canonical text of an operation that some text is, is that operation too.
pub fn texts_are_forms()
    ensures { (op : Op) (text : List ℕ) → op_of text ≡ Some op → op_of (text_of op) ≡ Some op }
{}

/// The JSON value of an operation has no float, so its text is its canonical text.
pub fn operations_have_no_float()
    ensures { (op : Op) → has_float (json_of op) ≡ false }
{}
