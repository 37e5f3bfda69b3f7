//! The rows of a profile as CSV.
ghost use Rattle.std.specs.Prelude.{◌≡◌, ◌<◌, ◌++◌, All, IfOk, OnOk, Some, length, slice_get};
ghost use Rattle.std.specs.List.{flat_map};
ghost use Rattle.k_data.specs.Table as spec;

use crate::records::kind_name;
use k_num::{NoMemory, Seq};
use k_optab::Region;
use k_selfpar::Row;
use k_text::{push, push_named, push_number};
use std::alloc::Global;

/// The region of a number.
fn region_at(regions: &[Region], number: u32) -> &Region
    requires { number < length regions.now }
    ensures { slice_get regions.now number ≡ Some result.now }
{
    &regions[number as usize]
}

/// The fields of a region.
fn push_region(text: &mut Vec<u8>, region: &Region) -> Result<(), NoMemory>
    ensures { OnOk result (text.new.items ≡ text.old.items ++ spec.region_fields region.now) }
{
    push(text, ",")?;
    push(text, kind_name(region.kind))?;
    push(text, ",")?;
    push(text, region.func.as_str())?;
    push_named(text, ",", region.place.line)?;
    push_named(text, ",", region.place.column)
}

/// The numbers of a row.
fn push_numbers(text: &mut Vec<u8>, row: &Row) -> Result<(), NoMemory>
    ensures { OnOk result (text.new.items ≡ text.old.items ++ spec.number_fields row.now) }
{
    push_named(text, ",", row.instances)?;
    push_named(text, ",", row.work)?;
    push_named(text, ",", row.path)?;
    push_named(text, ",", row.sp.num())?;
    push_named(text, ",", row.sp.den())?;
    push(text, "\r\n")
}

/// The line of a row of this region.
fn push_row_of(text: &mut Vec<u8>, row: &Row, region: &Region) -> Result<(), NoMemory>
    ensures { OnOk result (text.new.items ≡ text.old.items ++ spec.row_fields row.now region.now) }
{
    push_number(text, row.region)?;
    push_region(text, region)?;
    push_numbers(text, row)
}

/// The line of a row.
fn push_row(text: &mut Vec<u8>, regions: &[Region], row: &Row) -> Result<(), NoMemory>
    requires { row.now.region < length regions.now }
    ensures { OnOk result (text.new.items ≡ text.old.items ++ spec.row_line regions.now row.now) }
{
    push_row_of(text, row, region_at(regions, row.region))
}

/// The lines of rows.
fn push_rows(text: &mut Vec<u8>, regions: &[Region], rows: &[Row]) -> Result<(), NoMemory>
    requires { All (λ row. row.region < length regions.now) rows.now }
    ensures { OnOk result (text.new.items ≡ text.old.items ++ flat_map (spec.row_line regions.now) rows.now) }
{
    for row in rows {
        push_row(text, regions, row)?;
    }
    Ok(())
}

/// The rows of a profile as CSV: a line of names, and a line for each row.
pub fn rows_csv(alloc: Global, regions: &Seq<Region>, rows: &Seq<Row>) -> Result<Vec<u8>, NoMemory>
    requires { All (λ row. row.region < length regions.now) rows.now }
    ensures { IfOk result (λ text. text.items ≡ spec.rows_csv regions.now rows.now) }
{
    let mut text = Vec::new(alloc);
    push(
        &mut text,
        "region,kind,function,line,column,instances,work,path,sp_num,sp_den\r\n",
    )?;
    push_rows(&mut text, regions.as_slice(), rows.as_slice())?;
    Ok(text)
}
