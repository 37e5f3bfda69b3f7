//! What comes over an outside that never fails, also where shadows refuse room. An operation with a result writes its time, a write needs room, and room ends
//! with the next entry or exit: so each turn of a loop asks for room anew, and a run that never asks for any comes to its end over these shadows.
use super::{ALL, MANY, Passes, status_of, words_of};
use k_edge::{Files, SureFiles, SureSink, SureSource};
use std::alloc::Global;

/// The words, parted by blanks, and the source in `a.c`; the status, what stands on out behind so many `x`, or any text if these are some, and what on err.
#[derive(Clone, Copy)]
struct Row {
    words: &'static str,
    source: &'static str,
    status: u8,
    xs: usize,
    out: &'static str,
    err: &'static str,
}

/// Whether bytes begin with so many `x`.
fn begins_with_x(bytes: &[u8], count: usize) -> bool {
    bytes.len() >= count && bytes.iter().take(count).all(|byte| *byte == b'x')
}

/// Whether out has what a row says.
fn is_out(bytes: &[u8], row: &Row) -> bool {
    if row.xs == 0 {
        return bytes == row.out.as_bytes();
    }
    begins_with_x(bytes, row.xs)
}

/// Whether a row comes over these files, where input and sinks are there.
fn over_sinks<F: Files>(
    alloc: Global,
    words: &[String],
    files: &mut F,
    input: &mut SureSource,
    row: &Row,
    passes: Passes,
) -> bool {
    let Ok(mut out) = SureSink::new(alloc) else {
        return false;
    };
    let Ok(mut err) = SureSink::new(alloc) else {
        return false;
    };
    let status = status_of(alloc, words, files, input, &mut out, &mut err, passes);
    status == row.status && is_out(out.bytes(), row) && err.bytes() == row.err.as_bytes()
}

/// The same without sinks.
fn over_files<F: Files>(
    alloc: Global,
    words: &[String],
    files: &mut F,
    row: &Row,
    passes: Passes,
) -> bool {
    match SureSource::new(alloc, b"") {
        Ok(source) => {
            let mut input = source;
            over_sinks(alloc, words, files, &mut input, row, passes)
        }
        Err(_) => false,
    }
}

/// The same without files.
fn over_words(alloc: Global, words: &[String], row: &Row, passes: Passes) -> bool {
    let Ok(mut files) = SureFiles::new(alloc) else {
        return false;
    };
    if files.add("a.c", row.source.as_bytes()).is_err() {
        return false;
    }
    over_files(alloc, words, &mut files, row, passes)
}

/// Whether a row comes where so many calls for room pass.
fn is_told(alloc: Global, row: &Row, passes: Passes) -> bool {
    match words_of(alloc, row.words) {
        Ok(words) => over_words(alloc, words.as_slice(), row, passes),
        Err(_) => false,
    }
}

/// Four turns that sum: nine entries and exits between operations that write a register.
const SUM: Row = Row {
    words: "run a.c",
    source: "int main(void){int i,s; s=0; for(i=0;i<4;i++) s+=i; return s;}",
    status: 0,
    xs: 0,
    out: "== kremlin ==\nexit 6\nops 29\nfunc main 1:5 n=1 work=18 path=3 sp=1/1\nloop main 1:30 n=1 work=18 path=3 sp=6/1\nbody main 1:47 n=4 work=4 path=4 sp=1/1\nplan loop main 1:30 at 0/1 doall saves 15\nplan total 15 of 18\n",
    err: "",
};

/// An element that is stored before 63 turns, and one in each of them.
const CHAIN: Row = Row {
    source: "int a[64]; int main(void){int i; a[0]=0; for(i=1;i<64;i++) a[i]=a[i-1]+1; return a[63];}",
    out: "== kremlin ==\nexit 63\nops 638\nfunc main 1:16 n=1 work=765 path=384 sp=129/128\nloop main 1:42 n=1 work=758 path=380 sp=139/76\nbody main 1:60 n=63 work=567 path=504 sp=9/8\nplan total 0 of 765\n",
    ..SUM
};

/// A made program.
const DEMO: Row = Row {
    words: "demo 1 1",
    out: "demo 1 1\nbytes 4\nexit 0\nops 5121\nwork 6774\npath 38\nrows 7\nplan 2 saves 6651 of 6774\n",
    ..SUM
};

/// Where there is room for all.
static ROWS: [Row; 5] = [
    SUM,
    CHAIN,
    DEMO,
    // a long output is put whole
    Row {
        source: MANY,
        xs: 70_000,
        ..SUM
    },
    Row {
        words: "run none.c",
        status: 5,
        out: "",
        err: "kremlin: no such file: none.c\n",
        ..SUM
    },
];

#[test]
fn room_for_all(rt: HostRuntime) {
    for row in &ROWS {
        assert!(rt; is_told(rt.alloc(), row, ALL));
    }
}

/// Whether want of memory is told of a row, where so many calls for room pass.
fn is_short(alloc: Global, row: &Row, passes: Passes) -> bool {
    let wanted = Row {
        status: 8,
        out: "",
        err: "kremlin: no memory\n",
        ..*row
    };
    is_told(alloc, &wanted, passes)
}

#[test]
fn registers_without_room(rt: HostRuntime) {
    let (_, all) = ALL;
    for passes in 0..9 {
        assert!(rt; is_short(rt.alloc(), &SUM, (passes, all)), "{passes}");
    }
    assert!(rt; is_short(rt.alloc(), &DEMO, (0, all)));
}

#[test]
fn elements_without_room(rt: HostRuntime) {
    let (all, _) = ALL;
    for passes in 0..64 {
        assert!(rt; is_short(rt.alloc(), &CHAIN, (all, passes)), "{passes}");
    }
}
