// The lines of a base, given to a sink.
ghost use Rattle.std.specs.Prelude.{◌≡◌, flat_map};
ghost use Rattle.sea_faults.specs.Counts.{IsCaused};
ghost use Rattle.sea_edge.specs.Bytes.{Gives};
ghost use Rattle.sea_dump.specs.Dump.{dump_lines, met_sink_fault, row_line as row_line_of, table_line as table_line_of, table_lines};

use crate::base_lines::{row_line, table_line};
use sea_cell::{Column, Row, Shared};
use sea_edge::Sink;
use sea_operation::Plain;
use sea_plain::{TableRows, tables_of};
use std::alloc::{AllocError, Global};
use thiserror::Error;

/// Why a dump ended before all of its lines were given.
#[derive(Clone, Copy, Debug, PartialEq, Eq, Error)]
pub enum DumpFault {
    /// No memory was left for the next line.
    #[error("out of memory")]
    Memory,
    /// The sink failed.
    #[error("the sink failed")]
    Sink,
}

impl From<AllocError> for DumpFault {
    ghost use Rattle.sea_dump.specs.declared.output.DumpFault.TheVariants.{Memory};

    ghost from_gives = { λ _ fault. fault ≡ Memory };

    fn from(_error: AllocError) -> DumpFault {
        DumpFault::Memory
    }
}

/// Gives the lines of a base to a sink: one of each table, then one of each of its rows. After a fault a front of them was
/// given. Memory says that none was left for the next line, Sink that the sink failed.
pub fn write_base<K: Sink>(alloc: Global, sink: &mut K, base: &Plain) -> Result<(), DumpFault>
    ensures gives { Gives (K.taken sink.old) (K.taken sink.new) result (dump_lines base.now) }
    ensures sink { IsCaused (met_sink_fault result) (K.faults sink.old) (K.faults sink.new) }
{
    let tables = tables_of(alloc, base)?;
    write_tables(alloc, sink, tables.as_slice())
}

fn write_tables<K: Sink>(alloc: Global, sink: &mut K, tables: &[TableRows]) -> Result<(), DumpFault>
    ensures gives { Gives (K.taken sink.old) (K.taken sink.new) result (flat_map table_lines tables.now) }
    ensures sink { IsCaused (met_sink_fault result) (K.faults sink.old) (K.faults sink.new) }
{
    for table in tables {
        write_table(alloc, sink, table)?;
    }
    Ok(())
}

fn write_table<K: Sink>(alloc: Global, sink: &mut K, table: &TableRows) -> Result<(), DumpFault>
    ensures gives { Gives (K.taken sink.old) (K.taken sink.new) result (table_lines table.now) }
    ensures sink { IsCaused (met_sink_fault result) (K.faults sink.old) (K.faults sink.new) }
{
    write_head(alloc, sink, table)?;
    write_rows(alloc, sink, table.columns.as_slice(), table.rows.as_slice())
}

fn write_head<K: Sink>(alloc: Global, sink: &mut K, table: &TableRows) -> Result<(), DumpFault>
    ensures gives { Gives (K.taken sink.old) (K.taken sink.new) result (table_line_of table.now) }
    ensures sink { IsCaused (met_sink_fault result) (K.faults sink.old) (K.faults sink.new) }
{
    let line = table_line(alloc, table)?;
    give(sink, line.as_slice())
}

fn write_rows<K: Sink>(
    alloc: Global,
    sink: &mut K,
    columns: &[Column],
    rows: &[Shared<Row>],
) -> Result<(), DumpFault>
    ensures gives { Gives (K.taken sink.old) (K.taken sink.new) result (flat_map (row_line_of columns.now) rows.now) }
    ensures sink { IsCaused (met_sink_fault result) (K.faults sink.old) (K.faults sink.new) }
{
    for row in rows {
        write_row(alloc, sink, columns, row.get())?;
    }
    Ok(())
}

fn write_row<K: Sink>(
    alloc: Global,
    sink: &mut K,
    columns: &[Column],
    row: &Row,
) -> Result<(), DumpFault>
    ensures gives { Gives (K.taken sink.old) (K.taken sink.new) result (row_line_of columns.now row.now) }
    ensures sink { IsCaused (met_sink_fault result) (K.faults sink.old) (K.faults sink.new) }
{
    let line = row_line(alloc, columns, row)?;
    give(sink, line.as_slice())
}

fn give<K: Sink>(sink: &mut K, line: &[u8]) -> Result<(), DumpFault>
    ensures gives { Gives (K.taken sink.old) (K.taken sink.new) result line.now }
    ensures sink { IsCaused (met_sink_fault result) (K.faults sink.old) (K.faults sink.new) }
{
    match sink.give(line) {
        Ok(()) => Ok(()),
        Err(_) => Err(DumpFault::Sink),
    }
}
