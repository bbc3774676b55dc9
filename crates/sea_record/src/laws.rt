// What holds of records.
ghost use Rattle.std.specs.Prelude.{◌≡◌, ◌≤◌, ◌^◌, ℕ, List, length};
ghost use Rattle.sea_operation.specs.declared.operation.Entry.{Entry};
ghost use Rattle.sea_record.specs.Record.{record_of, IsRecord, IsTooLong};

/// No bytes are the record of two entries, or of one under two numbers.
pub fn records_have_one_entry()
    ensures { (payload : List ℕ) (lsn other_lsn : ℕ) (entry other : Entry) → IsRecord payload lsn entry → IsRecord payload other_lsn other → (lsn ≡ other_lsn) × (entry ≡ other) }
{}

/// The record of an entry with a field that is too long for one would itself be too long.
pub fn long_fields_make_long_records()
    ensures { (lsn : ℕ) (entry : Entry) → IsTooLong entry → 2 ^ 32 ≤ length (record_of lsn entry) }
{}
