//! The records of a text.

ghost use Rattle.std.specs.Prelude.{◌≡◌, ◌++◌, map, take, length, IfOk, OnOk};
ghost use Rattle.csv.specs.Records.{fields_of};
ghost use Rattle.csv_tables.specs.Table.{AreRecordsOf};

use csv::{ByteRecord, Error, ReaderBuilder};
use std::alloc::{AllocError, Global};
use tcl_words::{Text, Texts};

/// Returns the values of a record.
pub(crate) fn values_of(alloc: Global, row: &ByteRecord) -> Result<Texts, AllocError>
    ensures { IfOk result (λ values. values ≡ fields_of row.now) }
{
    let mut values = Texts::new(alloc);
    for i in 0..row.len() {
        values.push(Text::from_slice(alloc, row.get(i).unwrap_or(b""))?)?;
    }
    Ok(values)
}

/// Returns the records of a text. They may have different lengths.
pub(crate) fn records_of(alloc: Global, text: &[u8]) -> Result<Vec<Texts>, Error>
    ensures { IfOk result (λ records. AreRecordsOf text.now records.items) }
{
    let reader = ReaderBuilder::new()
        .has_headers(false)
        .flexible(true)
        .from_reader(alloc, text);
    let mut records = Vec::new(alloc);
    for row in reader.into_byte_records() {
        let Ok(values) = values_of(alloc, &row?) else {
            return Err(Error::out_of_memory());
        };
        let Ok(()) = records.push(values) else {
            return Err(Error::out_of_memory());
        };
    }
    Ok(records)
}
