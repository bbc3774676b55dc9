// The first refusal of an operation, where the schema and the rows of a base stand apart.
ghost use Rattle.std.specs.Prelude.{◌≡◌, ◌&&◌, ◌||◌, ℕ, List, Bool, OnOk};
ghost use Rattle.std.specs.BTreeSet.{contains_text};
ghost use Rattle.std.specs.Str.{bytes_eq};
ghost use Rattle.sea_cell.specs.declared.keys.TableNo.{TableNo};
ghost use Rattle.sea_operation.specs.declared.base.Plain.{Plain};
ghost use Rattle.sea_operation.specs.declared.seen.Counters.{Counters};
ghost use Rattle.sea_operation.specs.Checks.{Checks};
ghost use Rattle.sea_operation.specs.Refusal.{seen_refusal};
ghost use Rattle.sea_operation.specs.Seen.{seen_of};
ghost use Rattle.sea_ops.specs.Beside.{seen_beside, Shows};

use sea_cell::{RowId, TableNo, insert_text};
use sea_operation::{Counters, Op, OpRefusal, SeenBase};
use sea_refusal::check as check_seen;
use sea_schema::{Schema, Table};
use std::alloc::{AllocError, Global};
use std::collections::BTreeSet;

/// The rows and the link pairs of a base, as far as the refusals of an operation depend on them. No call takes memory.
pub trait RowsSeen {
    /// Which ids the rows of a table have, live or archived.
    ghost has_id: { Self → TableNo → List ℕ → Bool };

    /// Which rows a link joins, by the ids of its first and its other side.
    ghost are_linked: { Self → ℕ → List ℕ → List ℕ → Bool };

    /// How many link pairs there are.
    ghost pair_count: { Self → ℕ };

    /// The numbers of the base.
    ghost numbers: { Self → Counters };

    /// Whether a row of the table of this number has the id, live or archived.
    fn has(&self, table: TableNo, id: &RowId) -> bool
        ensures { result ≡ has_id self.now table id.now.0 };

    /// Whether the link joins the row of the first id, on its first side, with that of the second.
    fn linked(&self, link: u32, a: &RowId, b: &RowId) -> bool
        ensures { result ≡ are_linked self.now link a.now.0 b.now.0 };

    /// How many link pairs there are.
    fn pairs(&self) -> u32
        ensures { result ≡ pair_count self.now };

    /// The numbers of the base.
    fn counters(&self) -> Counters
        ensures { result ≡ numbers self.now };
}

/// Passes where a base of this schema and these rows refuses nothing of an operation, and else fails with the first
/// refusal. Whether a changed row is too big isn't asked. It looks up what the operation names, and walks no rows.
pub fn check<R: RowsSeen>(
    alloc: Global,
    op: &Op,
    schema: &Schema,
    rows: &R,
) -> Result<(), OpRefusal>
    ensures seen { Checks result (seen_refusal (seen_beside schema.now (R.numbers rows.now) (R.has_id rows.now) (R.are_linked rows.now) (R.pair_count rows.now)) op.now) }
    ensures plain { (base : Plain) → Shows schema.now (R.numbers rows.now) (R.has_id rows.now) (R.are_linked rows.now) (R.pair_count rows.now) base → Checks result (seen_refusal (seen_of base) op.now) }
{
    check_beside(alloc, op, schema, rows)
}

fn check_beside<R: RowsSeen>(
    alloc: Global,
    op: &Op,
    schema: &Schema,
    rows: &R,
) -> Result<(), OpRefusal>
    ensures { Checks result (seen_refusal (seen_beside schema.now (R.numbers rows.now) (R.has_id rows.now) (R.are_linked rows.now) (R.pair_count rows.now)) op.now) }
{
    check_seen(alloc, op, &Beside { schema, rows })?;
    Ok(())
}

// A schema and the rows beside it.
#[derive(Drop)]
struct Beside<'a, R> {
    schema: &'a Schema,
    rows: &'a R,
}

impl<R: RowsSeen> SeenBase for Beside<'_, R> {
    ghost seen = { λ it. seen_beside it.schema.now (R.numbers it.rows.now) (R.has_id it.rows.now) (R.are_linked it.rows.now) (R.pair_count it.rows.now) };

    fn counters(&self) -> Counters {
        self.rows.counters()
    }

    fn table_count(&self) -> usize {
        self.schema.tables().len()
    }

    fn table(&self, name: &str) -> Option<&Table> {
        self.schema.table(name)
    }

    fn has(&self, table: TableNo, id: &RowId) -> bool {
        self.rows.has(table, id)
    }

    fn which(
        &self,
        alloc: Global,
        table: TableNo,
        ids: &[RowId],
    ) -> Result<BTreeSet<String>, AllocError> {
        let mut found = BTreeSet::new(alloc);
        for id in ids {
            add_if_there(alloc, &mut found, self.rows, table, id)?;
        }
        Ok(found)
    }

    fn pair_count(&self) -> usize {
        self.rows.pairs() as usize
    }

    fn linked(&self, link: u32, first: &RowId, second: &RowId) -> bool {
        self.rows.linked(link, first, second)
    }
}

// Adds an id, if a row of the table has it.
fn add_if_there<R: RowsSeen>(
    alloc: Global,
    found: &mut BTreeSet<String>,
    rows: &R,
    table: TableNo,
    id: &RowId,
) -> Result<(), AllocError>
    ensures { OnOk result ((other : List ℕ) → contains_text found.new other ≡ (contains_text found.old other || (bytes_eq id.now.0 other && R.has_id rows.now table id.now.0))) }
{
    if rows.has(table, id) {
        insert_text(alloc, found, id.0.as_str())?;
    }
    Ok(())
}
