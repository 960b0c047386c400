//! Scripts that run once per row of a list.

ghost use Rattle.std.specs.Prelude.{◌≡◌, ◌∷◌, [], ◌<◌, length, map, None, IfErr, IfOk, IfSome};
ghost use Rattle.std.specs.List.{zip};
ghost use Rattle.csv_tables.specs.Table.{AreRecordsOf, fault_in};
ghost use Rattle.command_line.specs.Given.{names_of};
ghost use Rattle.expect_prog.specs.Each.{AreRows, AreRowsGiven, AreRowsIn, ListLine, TableLine, bad_column, name_in, names_given};

use crate::complaint::Complaint;
use crate::files::Sources;
use crate::variables::is_settable;
use csv_tables::{TableFault, read_table};
use session::{Pairs, SOURCE_LIMIT};
use std::alloc::{AllocError, Global};
use tcl_words::{Text, Texts};

/// The most rows of a list: no run has more scripts.
const MOST_ROWS: usize = 64;

/// Returns the variables that a row sets.
fn row_of(alloc: Global, names: &[Text], values: &[Text]) -> Result<Pairs, AllocError>
    ensures { IfOk result (λ row. row ≡ zip names.now values.now) }
{
    let mut row = Pairs::new(alloc);
    for (name, value) in names.iter().zip(values) {
        row.push(name.copied(alloc)?, value.copied(alloc)?)?;
    }
    Ok(row)
}

/// Returns the variables that each row sets.
fn rows_of(alloc: Global, names: &[Text], rows: &[Texts]) -> Result<Vec<Pairs>, AllocError>
    ensures { IfOk result (λ made. made.items ≡ map (zip names.now) rows.now) }
{
    let mut made = Vec::new(alloc);
    for values in rows {
        let Ok(()) = made.push(row_of(alloc, names, values.as_slice())?) else {
            return Err(AllocError);
        };
    }
    Ok(made)
}

/// Returns the index of the first column whose name no variable can have.
fn bad_column(names: &[Text]) -> Option<usize>
    ensures place { result ≡ bad_column names.now }
    ensures within { IfSome result (λ i. i < length names.now) }
{
    names.iter().position(|name| !is_settable(name.as_slice()))
}

/// Returns the rows of the table in the list at a path, or the complaint for what is wrong in it.
fn rows_in<'a>(alloc: Global, path: &'a str, table: &[Texts]) -> Result<Vec<Pairs>, Complaint<'a>>
    ensures rows { IfOk result (λ rows. AreRowsIn table.now rows.items) }
    ensures refused { IfErr result (TableLine path.entry table.now) }
{
    let Some((names, rows)) = table.split_first() else {
        return Err(Complaint::NoRows(path));
    };
    if rows.is_empty() {
        return Err(Complaint::NoRows(path));
    }
    if let Some(i) = bad_column(names.as_slice()) {
        return Err(Complaint::BadColumn {
            path,
            column: i + 1,
        });
    }
    if rows.len() > MOST_ROWS {
        return Err(Complaint::TooManyScripts);
    }
    Ok(rows_of(alloc, names.as_slice(), rows)?)
}

/// Reads the table in the list at a path.
fn table_in<'a>(alloc: Global, path: &'a str, list: &[u8]) -> Result<Vec<Texts>, Complaint<'a>>
    ensures table { IfOk result (λ table. AreRecordsOf list.now table.items × (fault_in table.items ≡ None)) }
    ensures refused { IfErr result (ListLine path.entry list.now) }
{
    if list.len() > SOURCE_LIMIT {
        return Err(Complaint::LongList(path));
    }
    if std::str::from_utf8(list).is_err() {
        return Err(Complaint::NotText(path));
    }
    match read_table(alloc, list) {
        Ok(table) => Ok(table),
        Err(TableFault::NoNames) => Err(Complaint::NoRows(path)),
        Err(TableFault::Uneven(row)) => Err(Complaint::UnevenRow { path, row }),
        Err(TableFault::Memory) => Err(Complaint::Memory),
    }
}

/// Returns the variables that each row of the list at a path sets, or the complaint for what is
/// wrong in the list.
fn listed<'a>(alloc: Global, path: &'a str, list: &[u8]) -> Result<Vec<Pairs>, Complaint<'a>>
    ensures rows { IfOk result (λ rows. AreRows list.now rows.items) }
    ensures refused { IfErr result (ListLine path.entry list.now) }
{
    let table = table_in(alloc, path, list)?;
    rows_in(alloc, path, table.as_slice())
}

/// Returns one row that sets no variables.
fn only_row(alloc: Global) -> Result<Vec<Pairs>, AllocError>
    ensures { IfOk result (λ rows. rows.items ≡ [] ∷ []) }
{
    let mut rows = Vec::new(alloc);
    let Ok(()) = rows.push(Pairs::new(alloc)) else {
        return Err(AllocError);
    };
    Ok(rows)
}

/// Reads the variables that each row of a list sets. Without a list, returns one row that sets none.
pub fn rows_given<'a, S: Sources>(
    from: &S,
    alloc: Global,
    list: Option<&'a str>,
) -> Result<Vec<Pairs>, Complaint<'a>>
    ensures { IfOk result (λ rows. AreRowsGiven S.holds list.entry rows.items) }
{
    match list {
        Some(path) => listed(alloc, path, from.source(alloc, path)?.as_slice()),
        None => Ok(only_row(alloc)?),
    }
}

/// Appends the name that reports give a script of this file.
fn name_of(alloc: Global, row: &[(Text, Text)], file: &str) -> Result<Text, AllocError>
    ensures { IfOk result (λ name. name ≡ name_in row.now file.now) }
{
    let mut name = Text::from_slice(alloc, file.as_bytes())?;
    if let Some(first) = row.first() {
        name.push(b':')?;
        name.extend(first.1.as_slice())?;
    }
    Ok(name)
}

/// Returns the names that reports give the scripts of these files, which run once per row.
pub fn names_given(alloc: Global, rows: &[Pairs], files: &[&str]) -> Result<Texts, AllocError>
    ensures { IfOk result (λ names. names ≡ names_given rows.now (names_of files.now)) }
{
    let mut names = Texts::new(alloc);
    for row in rows {
        for file in files {
            names.push(name_of(alloc, row.as_slice(), file)?)?;
        }
    }
    Ok(names)
}
