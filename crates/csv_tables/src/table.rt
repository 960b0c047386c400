//! Tables.

ghost use Rattle.std.specs.Prelude.{◌≡◌, ◌<◌, length, IfSome};
ghost use Rattle.csv_tables.specs.Table.{IsTableOf, fault_in, uneven_at};

use crate::records::records_of;
use std::alloc::Global;
use tcl_words::Texts;

/// What is wrong in the text of a table.
#[derive(Clone, Copy, Debug, PartialEq, Eq)]
pub enum TableFault {
    /// There is no record, so there are no names.
    NoNames,
    /// This row, counted from 1, is the first that doesn't have a value per name.
    Uneven(usize),
    /// Memory was refused.
    Memory,
}

/// Returns the index of the first row that doesn't have `count` values.
fn uneven_at(count: usize, rows: &[Texts]) -> Option<usize>
    ensures place { result ≡ uneven_at count rows.now }
    ensures within { IfSome result (λ i. i < length rows.now) }
{
    rows.iter().position(|row| row.len() != count)
}

/// Returns what is wrong in the records of a text, unless they are a table.
fn fault_in(records: &[Texts]) -> Option<TableFault>
    ensures { result ≡ fault_in records.now }
{
    match records.split_first() {
        None => Some(TableFault::NoNames),
        Some((names, rows)) => match uneven_at(names.len(), rows) {
            None => None,
            Some(i) => Some(TableFault::Uneven(i + 1)),
        },
    }
}

/// Reads the table in a text: the names of the columns, and then the rows. Empty lines are no
/// records. A byte order mark (U+FEFF) at the start is no part of the text.
pub fn read_table(alloc: Global, text: &[u8]) -> Result<Vec<Texts>, TableFault>
    ensures { IsTableOf text.now result }
{
    let Ok(records) = records_of(alloc, text) else {
        return Err(TableFault::Memory);
    };
    match fault_in(records.as_slice()) {
        None => Ok(records),
        Some(fault) => Err(fault),
    }
}
