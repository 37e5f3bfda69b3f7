//! What is written, read with the crates `json` and `csv`.
ghost use Rattle.std.specs.Prelude.{◌≡◌, Bool, IfErr, IfOk, map};
ghost use Rattle.csv.specs.Reading.{AreRecords, default_config, strip_bom};
ghost use Rattle.csv.specs.Records.{fields_of};
ghost use Rattle.csv.specs.declared.parser.State.TheVariants as state;
ghost use Rattle.json.specs.Value.{value_view};
ghost use Rattle.json.specs.declared.error.Error.TheVariants.{OutOfMemory};
ghost use Rattle.k_dict_saved.specs.Profile.{IsSaved};
ghost use Rattle.k_dict_saved.specs.declared.saved.Saved.{Saved};
ghost use Rattle.k_data_profile.specs.Shown.{IsDocument, IsTable};
ghost use Rattle.k_data_laws.specs.Laws.{AreRecordsOf, IsValue};

use csv::{ByteRecord, ReaderBuilder};
use json::{Scratch, Value};
use std::alloc::Global;

/// Reads the document of a saved profile: what is read is the value of the profile, and nothing but memory can be lacking.
pub fn read_document<'a>(
    alloc: Global,
    text: &'a [u8],
    scratch: &'a mut Scratch<Global>,
) -> Result<Value<'a>, json::Error>
    ensures value { IfOk result (λ value. (saved : Saved) (with_dict : Bool) → IsSaved saved → IsDocument saved with_dict text.now → IsValue saved with_dict (value_view value)) }
    ensures memory { (saved : Saved) (with_dict : Bool) → IsSaved saved → IsDocument saved with_dict text.now → IfErr result (λ e. e ≡ OutOfMemory) }
{
    Value::from_slice(alloc, text, scratch)
}

/// Every record of a text of CSV, the first one too.
fn read_records(alloc: Global, text: &[u8]) -> Result<Vec<ByteRecord>, csv::Error>
    ensures { IfOk result (λ table. AreRecords default_config state.StartRecord (strip_bom text.now) (map fields_of table.items)) }
{
    let reader = ReaderBuilder::new()
        .has_headers(false)
        .from_reader(alloc, text);
    let mut table = Vec::new(alloc);
    for row in reader.into_byte_records() {
        if table.push(row?).is_err() {
            return Err(csv::Error::out_of_memory());
        }
    }
    Ok(table)
}

/// Reads the table of a saved profile: what is read are the records of the profile, the names of the fields first.
pub fn read_table(alloc: Global, text: &[u8]) -> Result<Vec<ByteRecord>, csv::Error>
    ensures { IfOk result (λ table. (saved : Saved) → IsSaved saved → IsTable saved text.now → AreRecordsOf saved (map fields_of table.items)) }
{
    read_records(alloc, text)
}
