//! What is asked of the outside, call by call: each file that the words name once, the source before the table; the input where
//! the program calls `getchar`; out in pieces of at most 65,536 bytes; a save behind all of them; and a line on err in one put.
use super::noted::{Noted, Notes};
use super::{ALL, MANY, RETURN_ZERO, are_x, status_of, words_of};
use k_edge::{Files, MemFiles, MemSink, MemSource, Source};
use k_num::NoMemory;
use std::alloc::Global;
use std::cell::RefCell;
use std::process::Abort;

/// A program that copies its input.
const COPY: &str =
    "#include <stdio.h>\nint main(void){int c; while((c=getchar())!=EOF) putchar(c); return 0;}";

/// A program whose listing has 128 bytes.
const SUM: &str = "int main(void){return 1+2;}";

/// A program that multiplies. Its report has 85 bytes with a table in which that costs 7.
const PRODUCT: &str = "int main(void){return 3*4;}";

/// A program that writes 1,024 lines of 64 bytes, which are 65,536, and then traps.
const ONE_PIECE: &str =
    "int main(void){int i,x; for(i=0;i<1024;i++) puts(\"xxxxxxxxxxxxxxxxxxxxxxxxxxxxxxxxxxxxxxxxxxxxxxxxxxxxxxxxxxxxxxx\"); return x;}";

/// A program that writes a line more, and then traps.
const TWO_PIECES: &str =
    "int main(void){int i,x; for(i=0;i<1025;i++) puts(\"xxxxxxxxxxxxxxxxxxxxxxxxxxxxxxxxxxxxxxxxxxxxxxxxxxxxxxxxxxxxxxx\"); return x;}";

/// A program that writes as much and returns 0. Its report has 206 bytes.
const TWO_PIECES_AND_REPORT: &str =
    "int main(void){int i; for(i=0;i<1025;i++) puts(\"xxxxxxxxxxxxxxxxxxxxxxxxxxxxxxxxxxxxxxxxxxxxxxxxxxxxxxxxxxxxxxx\"); return 0;}";

/// The profile of a run.
const PROFILE: &str = "kremlin 2\nexit 0\nops 1\nregions 1\nfunc main 1:5\nentries 1\n0 0 0\nend\n";

/// The numbers of the calls that fail: of the loads and saves, of the reads, of the puts on out, and of the puts on err.
type Failing = [&'static [u64]; 4];

/// Nothing fails.
const NEVER: Failing = [&[], &[], &[], &[]];

/// The words, parted by blanks, the source in `a.c`, the input, and the calls that fail; the status, what is asked, and how many `x` alone stand on out, if it
/// is looked at.
#[derive(Clone, Copy)]
struct Row {
    words: &'static str,
    source: &'static str,
    input: &'static str,
    failing: Failing,
    status: u8,
    asked: &'static str,
    xs: usize,
}

/// Whether only so many `x` stand there, if these are some.
fn has_only_x(bytes: &[u8], xs: usize) -> bool {
    xs == 0 || bytes.len() == xs && are_x(bytes)
}

/// Whether a row comes over these files and this input, where what is asked of sinks is noted.
fn over_sinks<F: Files, S: Source>(
    alloc: Global,
    words: &[String],
    files: &mut F,
    input: &mut S,
    row: &Row,
    notes: &Notes,
) -> bool {
    let [_, _, puts, tells] = row.failing;
    let Ok(out) = MemSink::new(alloc, puts) else {
        return false;
    };
    let mut out = Noted::new(out, "out", notes);
    let Ok(err) = MemSink::new(alloc, tells) else {
        return false;
    };
    let mut err = Noted::new(err, "err", notes);
    let status = status_of(alloc, words, files, input, &mut out, &mut err, ALL);
    status == row.status && has_only_x(out.inner().bytes(), row.xs)
}

/// The same without an input.
fn over_files<F: Files>(
    alloc: Global,
    words: &[String],
    files: &mut F,
    row: &Row,
    notes: &Notes,
) -> bool {
    let [_, reads, _, _] = row.failing;
    match MemSource::new(alloc, row.input.as_bytes(), reads) {
        Ok(source) => {
            let mut input = Noted::new(source, "input", notes);
            over_sinks(alloc, words, files, &mut input, row, notes)
        }
        Err(_) => false,
    }
}

/// Files with this source in `a.c`, a table in `l.toml` and a profile in `p.txt`, which fail at these calls.
fn files_with(alloc: Global, source: &str, failing: &[u64]) -> Result<MemFiles, NoMemory> {
    let mut files = MemFiles::new(alloc, failing)?;
    files.add("l.toml", b"mul = 7")?;
    files.add("p.txt", PROFILE.as_bytes())?;
    files.add("a.c", source.as_bytes())?;
    Ok(files)
}

/// The same without files.
fn over_words(alloc: Global, words: &[String], row: &Row, notes: &Notes) -> bool {
    let [calls, _, _, _] = row.failing;
    match files_with(alloc, row.source, calls) {
        Ok(files) => {
            let mut files = Noted::new(files, "", notes);
            over_files(alloc, words, &mut files, row, notes)
        }
        Err(_) => false,
    }
}

/// Whether these lines were noted.
fn are_noted(notes: &Notes, wanted: &str) -> bool {
    match notes.try_borrow() {
        Ok(lines) => lines.as_str() == wanted,
        Err(_) => false,
    }
}

/// Whether a row comes.
fn is_row(alloc: Global, row: &Row) -> bool {
    match words_of(alloc, row.words) {
        Ok(words) => {
            let notes = RefCell::new(String::new(alloc));
            over_words(alloc, words.as_slice(), row, &notes) && are_noted(&notes, row.asked)
        }
        Err(_) => false,
    }
}

/// Expects of each row that it comes.
fn expect_asked(rt: &impl Abort, alloc: Global, rows: &[Row]) {
    for (number, row) in rows.iter().enumerate() {
        assert!(rt; is_row(alloc, row), "row {number}");
    }
}

/// A program runs, and nothing fails.
const RUN: Row = Row {
    words: "run a.c",
    source: RETURN_ZERO,
    input: "",
    failing: NEVER,
    status: 0,
    asked: "load a.c\nout 84\n",
    xs: 0,
};

/// Files are asked for once, the source first, and no other than those that are named.
static FILES: [Row; 19] = [
    RUN,
    Row {
        words: "run a.c --latency=l.toml",
        source: PRODUCT,
        asked: "load a.c\nload l.toml\nout 85\n",
        ..RUN
    },
    Row {
        words: "graph a.c",
        source: SUM,
        asked: "load a.c\nout 128\n",
        ..RUN
    },
    Row {
        words: "graph a.c --latency=l.toml",
        source: SUM,
        asked: "load a.c\nload l.toml\nout 128\n",
        ..RUN
    },
    Row {
        words: "carried a.c",
        source: SUM,
        asked: "load a.c\nout 14\n",
        ..RUN
    },
    Row {
        words: "show p.txt",
        source: "",
        asked: "load p.txt\nout 84\n",
        ..RUN
    },
    Row {
        words: "demo 1 1",
        source: "",
        asked: "out 84\n",
        ..RUN
    },
    Row {
        words: "--version",
        source: "",
        asked: "out 14\n",
        ..RUN
    },
    Row {
        words: "",
        source: "",
        status: 4,
        asked: "err 26\n",
        ..RUN
    },
    // One name for source and table: the table is read first, and refused or not.
    Row {
        words: "run a.c --latency=a.c",
        status: 10,
        asked: "load a.c\nerr 40\n",
        ..RUN
    },
    Row {
        words: "run a.c --latency=a.c",
        source: "mul = 7",
        status: 3,
        asked: "load a.c\nerr 39\n",
        ..RUN
    },
    // The table is asked for before the source is read.
    Row {
        words: "run a.c --latency=l.toml",
        source: "",
        status: 3,
        asked: "load a.c\nload l.toml\nerr 39\n",
        ..RUN
    },
    Row {
        words: "run none.c --latency=l.toml",
        source: "",
        status: 5,
        asked: "load none.c\nerr 30\n",
        ..RUN
    },
    Row {
        words: "run a.c --latency=none.toml",
        status: 5,
        asked: "load a.c\nload none.toml\nerr 33\n",
        ..RUN
    },
    Row {
        words: "run a.c --save=p.txt",
        asked: "load a.c\nout 84\nsave p.txt\n",
        ..RUN
    },
    // Nothing more is asked for where what comes is no report.
    Row {
        words: "show a.c",
        status: 11,
        asked: "load a.c\nerr 38\n",
        ..RUN
    },
    Row {
        source: "int main(void){return x;}",
        status: 3,
        asked: "load a.c\nerr 44\n",
        ..RUN
    },
    Row {
        source: "int main(void){return 1/0;}",
        status: 1,
        asked: "load a.c\nerr 35\n",
        ..RUN
    },
    Row {
        words: "run a.c --steps=10",
        source: "int main(void){while(1);return 0;}",
        status: 2,
        asked: "load a.c\nerr 31\n",
        ..RUN
    },
];

/// Where the program calls `getchar`, the input is read behind all files.
static INPUT: [Row; 4] = [
    Row {
        source: COPY,
        asked: "load a.c\nread input\nout 131\n",
        ..RUN
    },
    Row {
        words: "run a.c --latency=l.toml",
        source: COPY,
        asked: "load a.c\nload l.toml\nread input\nout 131\n",
        ..RUN
    },
    // Not for a source that is refused, nor for a table that is.
    Row {
        source: "int main(void){getchar(); return x;}",
        status: 3,
        asked: "load a.c\nerr 44\n",
        ..RUN
    },
    Row {
        words: "run a.c --latency=p.txt",
        source: COPY,
        status: 10,
        asked: "load a.c\nload p.txt\nerr 40\n",
        ..RUN
    },
];

/// Nothing is asked again, nor anything behind what failed but err.
static FAULTS: [Row; 12] = [
    Row {
        words: "run a.c --latency=l.toml",
        failing: [&[0], &[], &[], &[]],
        status: 6,
        asked: "load a.c\nerr 20\n",
        ..RUN
    },
    Row {
        words: "run a.c --latency=l.toml",
        failing: [&[1], &[], &[], &[]],
        status: 6,
        asked: "load a.c\nload l.toml\nerr 20\n",
        ..RUN
    },
    Row {
        source: COPY,
        failing: [&[], &[0], &[], &[]],
        status: 6,
        asked: "load a.c\nread input\nerr 20\n",
        ..RUN
    },
    Row {
        words: "run a.c --save=p.txt",
        failing: [&[], &[], &[0], &[]],
        status: 7,
        asked: "load a.c\nout 84\nerr 21\n",
        ..RUN
    },
    Row {
        words: "run a.c --save=p.txt",
        failing: [&[1], &[], &[], &[]],
        status: 7,
        asked: "load a.c\nout 84\nsave p.txt\nerr 21\n",
        ..RUN
    },
    Row {
        failing: [&[], &[], &[0], &[0]],
        status: 7,
        asked: "load a.c\nout 84\nerr 21\n",
        ..RUN
    },
    Row {
        words: "run none.c",
        source: "",
        failing: [&[], &[], &[], &[0]],
        status: 5,
        asked: "load none.c\nerr 30\n",
        ..RUN
    },
    // A load that fails is told, and not that a file is missing; and a file that is source and table is loaded once.
    Row {
        words: "run none.c",
        failing: [&[0], &[], &[], &[]],
        status: 6,
        asked: "load none.c\nerr 20\n",
        ..RUN
    },
    Row {
        words: "run a.c --latency=none.toml",
        failing: [&[1], &[], &[], &[]],
        status: 6,
        asked: "load a.c\nload none.toml\nerr 20\n",
        ..RUN
    },
    Row {
        words: "run a.c --latency=none.toml",
        failing: [&[0], &[], &[], &[]],
        status: 6,
        asked: "load a.c\nerr 20\n",
        ..RUN
    },
    Row {
        words: "run a.c --latency=a.c",
        failing: [&[0], &[], &[], &[]],
        status: 6,
        asked: "load a.c\nerr 20\n",
        ..RUN
    },
    // The second read would tell that the input has ended.
    Row {
        source: COPY,
        input: "x",
        failing: [&[], &[1], &[], &[]],
        status: 6,
        asked: "load a.c\nread input\nread input\nerr 20\n",
        ..RUN
    },
];

/// Bytes are put in pieces of 65,536, and what is left in one more.
static PIECES: [Row; 5] = [
    Row {
        source: ONE_PIECE,
        status: 1,
        asked: "load a.c\nout 65536\nerr 30\n",
        ..RUN
    },
    Row {
        source: TWO_PIECES,
        status: 1,
        asked: "load a.c\nout 65536\nout 64\nerr 30\n",
        ..RUN
    },
    Row {
        words: "run a.c --save=p.txt",
        source: TWO_PIECES_AND_REPORT,
        asked: "load a.c\nout 65536\nout 270\nsave p.txt\n",
        ..RUN
    },
    Row {
        words: "run a.c --save=p.txt",
        source: TWO_PIECES_AND_REPORT,
        failing: [&[], &[], &[1], &[]],
        status: 7,
        asked: "load a.c\nout 65536\nout 270\nerr 21\n",
        ..RUN
    },
    // What was not put does not stand on out, nor anything behind it.
    Row {
        source: MANY,
        failing: [&[], &[], &[1], &[]],
        status: 7,
        asked: "load a.c\nout 65536\nout 4683\nerr 21\n",
        xs: 65_536,
        ..RUN
    },
];

#[test]
fn calls(rt: HostRuntime) {
    expect_asked(&rt, rt.alloc(), &FILES);
    expect_asked(&rt, rt.alloc(), &INPUT);
    expect_asked(&rt, rt.alloc(), &FAULTS);
}

#[test]
fn pieces(rt: HostRuntime) {
    expect_asked(&rt, rt.alloc(), &PIECES);
}
