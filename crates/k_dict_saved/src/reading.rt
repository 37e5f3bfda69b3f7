//! The file of a saved profile, read line by line. A file is refused at its first wrong line.
ghost use Rattle.std.specs.Prelude.{◌≡◌, ◌≤◌, IsTrue, ◌↔◌, IfOk, option_map, codes};
ghost use Rattle.k_dict_entries.specs.Entries.{AreDistinct};
ghost use Rattle.k_dict_saved.specs.Files.{ReadsFile};
ghost use Rattle.k_dict_saved.specs.Formats.{HaveRuns, NoneIsLeft};
ghost use Rattle.k_dict_saved.specs.Lines.{EndsInMain};
ghost use Rattle.k_dict_saved.specs.Reading.{Ends, Finishes, FoundCount, FoundHead, ReadsAll, ReadsLines, seen};
ghost use Rattle.k_dict_saved.specs.Reading as spec;
ghost use Rattle.k_scan.specs.Pieces.{Finds};

mod ending;
mod entry_lines;
mod extents;
mod lines;
mod order;
mod region_lines;
mod stop;

use crate::fault::SavedFault;
use crate::file::File;
use crate::format::{Accepts, Format};
use ending::{are_named, ends_in_main};
pub use ending::{is_main, mark, mark_all};
use entry_lines::entries;
pub use entry_lines::{are_rising, next_entry};
pub use extents::{Extent, Sums, sums_of};
use k_dict_entries::Entry;
use k_num::NoMemory;
use k_optab::Region;
use k_scan::{signed, word};
pub use lines::{named, runs};
use order::are_in_post_order;
pub use region_lines::next_region;
use region_lines::{are_closed, regions};
use std::alloc::Global;
pub use stop::{Halt, Stop};

/// The first line: the format of the file.
#[tactic(auto, unfolding(crate::specs::Reading::first_at))]
fn first_line(accepts: Accepts, text: &[u8]) -> Option<(Format, &[u8])>
    ensures { Finds (λ found. (found.0, found.1.now)) result (spec.first_at accepts text.now) }
{
    if let Some(rest) = word(b"kremlin 1\n", text) {
        return Some((Format::One, rest));
    }
    match accepts {
        Accepts::OneAlone => None,
        Accepts::Both => {
            let rest = word(b"kremlin 2\n", text)?;
            Some((Format::Two, rest))
        }
    }
}

/// The line with a run's end.
#[tactic(auto, unfolding(crate::specs::Reading::exit_at))]
fn exit_line(text: &[u8]) -> Option<(i32, &[u8])>
    ensures { Finds (λ found. (found.0, found.1.now)) result (spec.exit_at text.now) }
{
    let rest = word(b"exit ", text)?;
    let (exit, rest) = signed(rest)?;
    let rest = word(b"\n", rest)?;
    Some((exit, rest))
}

/// The lines between the first and the regions: a run's end, the number of its operations, and that of the regions.
fn head(text: &[u8]) -> Result<(i32, u64, u32, &[u8]), Halt>
    ensures { FoundHead text.now (seen (λ found. (found.0, found.1, found.2, found.3.now)) result) }
{
    let Some((exit, ops_text)) = exit_line(text) else {
        return Err(Halt::Wrong(text.len()));
    };
    let Some((ops, regions_text)) = named(b"ops ", 0, 1_000_000_000, ops_text) else {
        return Err(Halt::Wrong(ops_text.len()));
    };
    let Some((count, rest)) = named(b"regions ", 1, 524_288, regions_text) else {
        return Err(Halt::Wrong(regions_text.len()));
    };
    Ok((exit, ops, count as u32, rest))
}

/// The line with the number of entries, behind these regions.
pub fn count_line<'a>(regions: &[Region], text: &'a [u8]) -> Option<(u32, &'a [u8])>
    ensures { FoundCount regions.now text.now (option_map (λ found. (found.0, found.1.now)) result) }
{
    match named(b"entries ", 1, 1_048_576, text) {
        None => None,
        Some((count, rest)) => {
            if are_closed(regions) {
                Some((count as u32, rest))
            } else {
                None
            }
        }
    }
}

/// Whether the last line of a file stands here, and nothing behind it.
pub fn is_end(text: &[u8]) -> bool
    ensures { IsTrue result ↔ (text.now ≡ codes "end\n") }
{
    match word(b"end\n", text) {
        None => false,
        Some(behind) => behind.is_empty(),
    }
}

/// Whether no entry is left over, and in format 1 none is out of order.
fn is_none_left(alloc: Global, format: Format, entries: &[Entry]) -> Result<bool, NoMemory>
    requires runs { HaveRuns format entries.now }
    requires distinct { AreDistinct entries.now }
    ensures { IfOk result (λ none. IsTrue none ↔ NoneIsLeft format entries.now) }
{
    match format {
        Format::One => Ok(are_in_post_order(entries)),
        Format::Two => are_named(alloc, entries),
    }
}

/// Whether the last of these entries is of main, and no other is left over.
fn are_complete(
    alloc: Global,
    format: Format,
    regions: &[Region],
    entries: &[Entry],
) -> Result<bool, NoMemory>
    requires runs { HaveRuns format entries.now }
    requires distinct { AreDistinct entries.now }
    ensures { IfOk result (λ complete. IsTrue complete ↔ (EndsInMain regions.now entries.now × NoneIsLeft format entries.now)) }
{
    if ends_in_main(regions, entries) {
        is_none_left(alloc, format, entries)
    } else {
        Ok(false)
    }
}

/// Whether the end may stand behind these entries, and nothing behind it.
fn may_end(
    alloc: Global,
    format: Format,
    regions: &[Region],
    entries: &[Entry],
    text: &[u8],
) -> Result<bool, NoMemory>
    requires runs { HaveRuns format entries.now }
    requires distinct { AreDistinct entries.now }
    ensures { IfOk result (λ ends. IsTrue ends ↔ Ends format regions.now entries.now text.now) }
{
    if is_end(text) {
        are_complete(alloc, format, regions, entries)
    } else {
        Ok(false)
    }
}

/// The file of these parts, where its end stands here and may.
fn finish(alloc: Global, file: File, text: &[u8]) -> Result<File, Halt>
    requires { HaveRuns file.format file.entries }
    ensures { Finishes file text.now result }
{
    match may_end(
        alloc,
        file.format,
        file.regions.as_slice(),
        file.entries.entries(),
        text,
    ) {
        Err(NoMemory) => {
            drop(file);
            Err(Halt::Memory)
        }
        Ok(false) => {
            drop(file);
            Err(Halt::Wrong(text.len()))
        }
        Ok(true) => Ok(file),
    }
}

/// The lines behind the first, by the rules of a format.
fn read_lines(alloc: Global, format: Format, text: &[u8]) -> Result<File, Halt>
    ensures { ReadsLines format text.now result }
{
    let (exit, ops, count, region_text) = head(text)?;
    match regions(alloc, count, region_text) {
        Err(halt) => Err(halt),
        Ok((list, count_text)) => match count_line(list.as_slice(), count_text) {
            None => {
                drop(list);
                Err(Halt::Wrong(count_text.len()))
            }
            Some((number, entry_text)) => match entries(
                alloc,
                format,
                list.len() as u32,
                number,
                entry_text,
            ) {
                Err(halt) => {
                    drop(list);
                    Err(halt)
                }
                Ok((table, end)) => finish(
                    alloc,
                    File {
                        format,
                        exit,
                        ops,
                        regions: list,
                        entries: table,
                    },
                    end,
                ),
            },
        },
    }
}

/// A whole file of one of these formats.
fn read_all(alloc: Global, accepts: Accepts, text: &[u8]) -> Result<File, Halt>
    ensures { ReadsAll accepts text.now result }
{
    let Some((format, rest)) = first_line(accepts, text) else {
        return Err(Halt::Wrong(text.len()));
    };
    read_lines(alloc, format, rest)
}

/// The file that the bytes spell, in one of the formats that are read. `NotSaved` has the byte at which the first wrong line
/// starts, by the rules of the file's own format, and 0 for a file of another format.
pub fn read_file(alloc: Global, accepts: Accepts, bytes: &[u8]) -> Result<File, SavedFault>
    ensures { ReadsFile accepts bytes.now result }
{
    match read_all(alloc, accepts, bytes) {
        Ok(file) => Ok(file),
        Err(Halt::Memory) => Err(SavedFault::Memory),
        Err(Halt::Wrong(left)) => Err(SavedFault::NotSaved((bytes.len() - left) as u64)),
    }
}
