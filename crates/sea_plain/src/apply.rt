// What an accepted operation makes of a base, and the slow calls that apply entries.
ghost use Rattle.std.specs.Prelude.{◌≡◌, ◌≢◌, ◌≤◌, ◌⊎◌, ◌+◌, ◌^◌, None, Ok, Err, IfOk, MatchResult};
ghost use Rattle.sea_cell.specs.Answers.{Answers};
ghost use Rattle.sea_operation.specs.Apply.{applied as applied_to, apply, after};
ghost use Rattle.sea_operation.specs.Refusal.{new_rows as new_rows_of, numbers_spent, some_moment};
ghost use Rattle.sea_operation.specs.Seen.{seen_of};

use crate::ends::links_gone;
use crate::joined::pairs_after;
use crate::tables::{columns_named, tables_after};
use sea_cell::{Duplicate, Moment, Row};
use sea_operation::{
    Entries, Entry, Op, OpRefusal, Plain, columns_made, links_made, rows_made, stamped_rows,
    tables_made,
};
use sea_refusal::{changes_fit, new_rows};
use std::alloc::{AllocError, Global};

/// The base after an entry, or the first refusal of the entry's operation. The base itself stays as it is.
pub fn apply_plain(alloc: Global, base: &Plain, entry: &Entry) -> Result<Plain, OpRefusal>
    ensures { Answers OpRefusal.Memory result (apply base.now entry.now) }
{
    let rows = new_rows(alloc, &entry.op, base)?;
    changes_fit(alloc, base, entry.moment, &entry.op)?;
    Ok(applied(alloc, base, entry.moment, &entry.op, rows)?)
}

/// The base after all entries, or the first entry that is refused, counted from 0, with its refusal. Where memory ran
/// out, the refusal is Memory, and the number says nothing.
pub fn run_plain(alloc: Global, base: &Plain, entries: &Entries) -> Result<Plain, (u64, OpRefusal)>
    ensures { MatchResult result (λ new. after base.now entries.now ≡ Ok new)
        (λ fault. fault.1 ≢ OpRefusal.Memory → after base.now entries.now ≡ Err fault) }
{
    let mut new = match base.duplicate(alloc) {
        Ok(copy) => copy,
        Err(_) => return Err((0, OpRefusal::Memory)),
    };
    let mut count = 0;
    for entry in entries.as_slice() {
        new = match apply_plain(alloc, &new, entry) {
            Ok(next) => next,
            Err(refusal) => return Err((count, refusal)),
        };
        count += 1;
    }
    Ok(new)
}

// The base after an operation that it accepts, which makes these rows.
#[tactic(auto, using(crate::proofs::Stamps::stamped_are_made))]
fn applied(
    alloc: Global,
    base: &Plain,
    moment: Moment,
    op: &Op,
    rows: Vec<Row>,
) -> Result<Plain, AllocError>
    requires room { numbers_spent (seen_of base.now) op.now ≡ None }
    requires rows { rows.items ≡ new_rows_of (seen_of base.now) some_moment op.now }
    ensures { IfOk result (λ new. new ≡ applied_to base.now moment op.now) }
{
    let new = stamped_rows(alloc, moment, rows)?;
    let links = links_gone(alloc, base.tables.as_slice(), op)?;
    Ok(Plain {
        version: base.version + 1,
        next_row: raised(base.next_row, rows_made(op)),
        next_table: raised_key(base.next_table, tables_made(op) as usize),
        next_column: raised_key(base.next_column, columns_made(op)),
        next_link: raised_key(base.next_link, links_made(op) as usize),
        tables: tables_after(alloc, base, moment, op, &links, &new)?,
        pairs: pairs_after(alloc, columns_named(base, op), &links, op, &base.pairs)?,
    })
}

// A number of rows that has room for more.
fn raised(value: u64, more: u64) -> u64
    requires { (more ≤ 0) ⊎ (value + more ≤ 2 ^ 62) }
    ensures { result ≡ value + more }
{
    value + more
}

// A number of tables or columns that has room for more.
fn raised_key(value: u32, more: usize) -> u32
    requires { (more ≤ 0) ⊎ (value + more ≤ 4294967295) }
    ensures { result ≡ value + more }
{
    value + more as u32
}
