//! The least valid program, and edits of it: each range at its limit and one past it, and functions that are not balanced.

use k_code::{Arg, Chunk, Code, CodeFunc, CodeObject, Do, Home, Instr, Out, valid};
use k_num::{NoMemory, Place, Seq, Text};
use k_optab::{Class, Region, RegionKind};
use std::alloc::Global;
use std::test::Fail;

/// Where all of these programs stand.
const HERE: Place = Place { line: 1, column: 1 };

/// An instruction without lists.
#[derive(Clone, Copy)]
enum Part {
    Return(Arg),
    ReturnNothing,
    FallOff,
    Jump(u32),
    Test(u32, u32),
    /// A test of that class, behind which instruction 1 stands.
    OfClass(Class),
    Move(Arg, u32),
    Save,
    Keep,
    Back,
    Restore,
    Enter(u32),
    Exit,
    Open,
    Close(u32),
    Address(Home),
    Fill(u32),
    Forget(u32),
    Call(u32, Arg),
}

use Part::{
    Address, Back, Call, Close, Enter, Exit, Fill, Forget, Jump, Keep, Move, OfClass, Open,
    Restore, Return, ReturnNothing, Save, Test,
};

/// A program of one function and one object, with so many regions.
#[derive(Clone, Copy)]
struct Row {
    func: CodeFunc,
    latency: u64,
    main: u32,
    regions: u32,
    parts: &'static [Part],
    valid: bool,
}

/// A function of size 1.
const FUNC: CodeFunc = CodeFunc {
    entry: 0,
    params: 0,
    registers: 2,
    size: 1,
    region: 0,
};

/// Returns 0.
const DONE: Part = Return(Arg::Number(0));

/// A program that is valid.
const VALID: Row = Row {
    func: FUNC,
    latency: 0,
    main: 0,
    regions: 1,
    parts: &[DONE],
    valid: true,
};

/// A program that isn't.
const WRONG: Row = Row {
    valid: false,
    ..VALID
};

/// Programs of one function.
static ROWS: [Row; 61] = [
    VALID,
    // registers
    Row {
        parts: &[Return(Arg::Reg(1, false))],
        ..VALID
    },
    Row {
        parts: &[Return(Arg::Reg(2, false))],
        ..WRONG
    },
    Row {
        parts: &[Move(Arg::Number(1), 1), DONE],
        ..VALID
    },
    Row {
        parts: &[Move(Arg::Number(1), 2), DONE],
        ..WRONG
    },
    Row {
        parts: &[Forget(1), DONE],
        ..VALID
    },
    Row {
        parts: &[Forget(2), DONE],
        ..WRONG
    },
    Row {
        parts: &[Call(0, Arg::Reg(1, true)), DONE],
        ..VALID
    },
    Row {
        parts: &[Call(0, Arg::Reg(2, true)), DONE],
        ..WRONG
    },
    Row {
        func: CodeFunc {
            registers: 3,
            ..FUNC
        },
        ..WRONG
    },
    Row {
        func: CodeFunc { params: 2, ..FUNC },
        ..VALID
    },
    Row {
        func: CodeFunc { params: 3, ..FUNC },
        ..WRONG
    },
    // sizes
    Row {
        func: CodeFunc {
            size: 0,
            registers: 0,
            ..FUNC
        },
        ..WRONG
    },
    Row {
        func: CodeFunc {
            size: 1_048_576,
            registers: 2_097_152,
            ..FUNC
        },
        ..VALID
    },
    Row {
        func: CodeFunc {
            size: 1_048_576,
            registers: 2_097_153,
            ..FUNC
        },
        ..WRONG
    },
    Row {
        func: CodeFunc {
            size: 1_048_577,
            ..FUNC
        },
        ..WRONG
    },
    // functions, regions and objects
    Row { main: 1, ..WRONG },
    Row {
        func: CodeFunc { entry: 1, ..FUNC },
        ..WRONG
    },
    Row {
        func: CodeFunc { region: 1, ..FUNC },
        ..WRONG
    },
    Row {
        regions: 0,
        ..WRONG
    },
    Row {
        parts: &[Call(1, Arg::Number(0)), DONE],
        ..WRONG
    },
    Row {
        parts: &[Enter(0), DONE],
        ..VALID
    },
    Row {
        parts: &[Enter(1), DONE],
        ..WRONG
    },
    Row {
        parts: &[Address(Home::File(0)), DONE],
        ..VALID
    },
    Row {
        parts: &[Address(Home::File(1)), DONE],
        ..WRONG
    },
    Row {
        parts: &[Open, Address(Home::Local(0)), Fill(0), DONE],
        ..VALID
    },
    Row {
        parts: &[Open, Address(Home::Local(1)), DONE],
        ..WRONG
    },
    Row {
        parts: &[Open, Fill(1), DONE],
        ..WRONG
    },
    // latencies
    Row {
        latency: 10_000,
        ..VALID
    },
    Row {
        latency: 10_001,
        ..WRONG
    },
    // jumps
    Row {
        parts: &[Jump(0), DONE],
        ..WRONG
    },
    Row {
        parts: &[Jump(1), DONE],
        ..VALID
    },
    Row {
        parts: &[Jump(2), DONE],
        ..WRONG
    },
    Row {
        parts: &[Test(0, 1), DONE],
        ..VALID
    },
    Row {
        parts: &[Test(1, 0)],
        ..WRONG
    },
    Row {
        parts: &[Test(0, 2), DONE],
        ..WRONG
    },
    Row {
        parts: &[Test(0, 0)],
        ..VALID
    },
    // classes of tests
    Row {
        parts: &[OfClass(Class::Test), DONE],
        ..VALID
    },
    Row {
        parts: &[OfClass(Class::Select), DONE],
        ..VALID
    },
    Row {
        parts: &[OfClass(Class::Move), DONE],
        ..WRONG
    },
    Row {
        parts: &[DONE, Jump(0)],
        ..WRONG
    },
    Row {
        parts: &[Save],
        ..WRONG
    },
    Row {
        parts: &[Part::FallOff],
        ..VALID
    },
    Row {
        parts: &[ReturnNothing],
        ..VALID
    },
    // balance
    Row {
        parts: &[Back, DONE],
        ..WRONG
    },
    Row {
        parts: &[Keep, DONE],
        ..WRONG
    },
    Row {
        parts: &[Restore, DONE],
        ..WRONG
    },
    Row {
        parts: &[Exit, DONE],
        ..WRONG
    },
    Row {
        parts: &[Close(1), DONE],
        ..WRONG
    },
    Row {
        parts: &[Save, Restore, Back, DONE],
        ..VALID
    },
    Row {
        parts: &[Save, Keep, Back, DONE],
        ..WRONG
    },
    Row {
        parts: &[Save, Back, Back, DONE],
        ..WRONG
    },
    Row {
        parts: &[Open, Open, Close(2), DONE],
        ..VALID
    },
    Row {
        parts: &[Open, Close(2), DONE],
        ..WRONG
    },
    Row {
        parts: &[Enter(0), Exit, DONE],
        ..VALID
    },
    Row {
        parts: &[Test(1, 2), Save, DONE],
        ..WRONG
    },
    Row {
        parts: &[Test(1, 3), Save, Jump(4), Save, Back, DONE],
        ..VALID
    },
    Row {
        parts: &[Test(1, 2), Jump(3), Save, DONE],
        ..WRONG
    },
    Row {
        parts: &[Save, Test(0, 2), DONE],
        ..WRONG
    },
    // behind a return stands what stood before it
    Row {
        parts: &[Save, DONE, Back, DONE],
        ..VALID
    },
    Row {
        parts: &[DONE, Back, DONE],
        ..WRONG
    },
];

/// A test of the number 1, of this class.
fn choice(then: u32, other: u32, class: Class) -> Do {
    Do::Test {
        a: Arg::Number(1),
        then,
        other,
        to: None,
        class,
    }
}

fn act(alloc: Global, part: Part) -> Result<Do, NoMemory> {
    Ok(match part {
        Part::Return(a) => Do::Return { value: Some(a) },
        Part::ReturnNothing => Do::Return { value: None },
        Part::FallOff => Do::FallOff,
        Part::Jump(to) => Do::Jump { to },
        Part::Test(then, other) => choice(then, other, Class::Test),
        Part::OfClass(class) => choice(1, 1, class),
        Part::Move(a, to) => Do::Move { a, to },
        Part::Save => Do::Save,
        Part::Keep => Do::Keep,
        Part::Back => Do::Back,
        Part::Restore => Do::Restore,
        Part::Enter(region) => Do::Enter { region },
        Part::Exit => Do::Exit,
        Part::Open => Do::ObjectOpen { elements: 1 },
        Part::Close(count) => Do::ObjectsClose { count },
        Part::Address(home) => Do::Address {
            home,
            offset: 0,
            to: 0,
        },
        Part::Fill(local) => Do::Fill {
            local,
            values: Seq::new(alloc),
        },
        Part::Forget(register) => Do::Forget { register },
        Part::Call(func, a) => Do::Call {
            func,
            args: Seq::copy_of(alloc, &[a])?,
            to: None,
        },
    })
}

/// The instructions of a program.
fn instrs(alloc: Global, row: &Row) -> Result<Seq<Instr>, NoMemory> {
    let mut instrs = Seq::new(alloc);
    for part in row.parts {
        instrs.push(Instr {
            place: HERE,
            latency: row.latency,
            act: act(alloc, *part)?,
        })?;
    }
    Ok(instrs)
}

/// So many regions.
fn regions(alloc: Global, count: u32) -> Result<Seq<Region>, NoMemory> {
    let mut regions = Seq::new(alloc);
    for region in 0..count {
        regions.push(Region {
            kind: RegionKind::Func,
            func: Text::copy_of(alloc, "main")?,
            place: HERE,
        })?;
    }
    Ok(regions)
}

/// One object.
fn objects(alloc: Global) -> Result<Seq<CodeObject>, NoMemory> {
    let mut objects = Seq::new(alloc);
    objects.push(CodeObject::Plain {
        elements: 1,
        first: Seq::new(alloc),
        place: HERE,
    })?;
    Ok(objects)
}

/// Whether a program with these instructions and functions is valid.
fn judged(
    alloc: Global,
    row: &Row,
    funcs: Seq<CodeFunc>,
    instrs: Seq<Instr>,
) -> Result<bool, NoMemory> {
    let code = Code {
        funcs,
        instrs,
        regions: regions(alloc, row.regions)?,
        objects: objects(alloc)?,
        main: row.main,
    };
    valid(alloc, &code)
}

/// The number of the first row whose program is judged otherwise.
fn first_wrong(alloc: Global) -> Result<Option<usize>, NoMemory> {
    for (number, row) in ROWS.iter().enumerate() {
        let funcs = Seq::copy_of(alloc, &[row.func])?;
        let instrs = instrs(alloc, row)?;
        if judged(alloc, row, funcs, instrs)? != row.valid {
            return Ok(Some(number));
        }
    }
    Ok(None)
}

#[test]
fn programs_of_one_function(rt: HostRuntime) -> Result<(), Fail> {
    assert_eq!(rt; first_wrong(rt.alloc())?, None);
    Ok(())
}

/// Functions over the instructions of a program, with whether it is valid.
static FUNCS: [(&[CodeFunc], bool); 6] = [
    // a function ends where the next begins, in whatever order they stand
    (&[CodeFunc { entry: 2, ..FUNC }, FUNC], true),
    // the first would go on into the second
    (&[FUNC, CodeFunc { entry: 1, ..FUNC }], false),
    // two functions with one entry, the second with too few registers
    (
        &[
            FUNC,
            CodeFunc {
                registers: 1,
                ..FUNC
            },
        ],
        true,
    ),
    (
        &[
            FUNC,
            CodeFunc {
                registers: 0,
                ..FUNC
            },
        ],
        false,
    ),
    // the second function alone isn't there
    (&[FUNC, CodeFunc { entry: 4, ..FUNC }], false),
    // what stands before all entries belongs to none
    (&[CodeFunc { entry: 3, ..FUNC }], true),
];

#[test]
fn programs_of_functions(rt: HostRuntime) -> Result<(), Fail> {
    let row = Row {
        parts: &[Move(Arg::Number(1), 0), DONE, Jump(3), DONE],
        ..VALID
    };
    for case in &FUNCS {
        let (funcs, valid) = *case;
        let funcs = Seq::copy_of(rt.alloc(), funcs)?;
        let answer = judged(rt.alloc(), &row, funcs, instrs(rt.alloc(), &row)?)?;
        assert_eq!(rt; answer, valid);
    }
    Ok(())
}

/// An output, and a return behind it.
fn with_output(alloc: Global, what: Out) -> Result<Seq<Instr>, NoMemory> {
    let mut instrs = Seq::new(alloc);
    instrs.push(Instr {
        place: HERE,
        latency: 1,
        act: Do::Output {
            what,
            args: Seq::new(alloc),
            to: 0,
        },
    })?;
    instrs.push(Instr {
        place: HERE,
        latency: 1,
        act: act(alloc, DONE)?,
    })?;
    Ok(instrs)
}

/// So many bytes.
fn bytes(alloc: Global, count: usize) -> Result<Seq<u8>, NoMemory> {
    let mut bytes = Vec::new(alloc);
    bytes.resize(count, b'x')?;
    Ok(Seq::from_vec(bytes))
}

/// A format of two parts with so many bytes together.
fn format(alloc: Global, count: usize) -> Result<Out, NoMemory> {
    let mut chunks = Seq::new(alloc);
    chunks.push(Chunk::Bytes(bytes(alloc, 1)?))?;
    chunks.push(Chunk::Bytes(bytes(alloc, count)?))?;
    Ok(Out::Format(chunks))
}

#[test]
fn outputs(rt: HostRuntime) -> Result<(), Fail> {
    for more in 0..2 {
        let line = Out::Line(bytes(rt.alloc(), 4_194_304 + more)?);
        let funcs = Seq::copy_of(rt.alloc(), &[FUNC])?;
        let answer = judged(rt.alloc(), &VALID, funcs, with_output(rt.alloc(), line)?)?;
        assert_eq!(rt; answer, more == 0);
        let funcs = Seq::copy_of(rt.alloc(), &[FUNC])?;
        let whole = format(rt.alloc(), 4_194_303 + more)?;
        let answer = judged(rt.alloc(), &VALID, funcs, with_output(rt.alloc(), whole)?)?;
        assert_eq!(rt; answer, more == 0);
    }
    Ok(())
}

/// So many instructions that make no operation, and a return.
fn long(alloc: Global, count: usize) -> Result<Seq<Instr>, NoMemory> {
    let mut instrs = Seq::new(alloc);
    for k in 1..count {
        instrs.push(Instr {
            place: HERE,
            latency: 0,
            act: Do::Forget { register: 0 },
        })?;
    }
    instrs.push(Instr {
        place: HERE,
        latency: 0,
        act: act(alloc, DONE)?,
    })?;
    Ok(instrs)
}

#[test]
fn lengths(rt: HostRuntime) -> Result<(), Fail> {
    for more in 0..2 {
        let funcs = Seq::copy_of(rt.alloc(), &[FUNC])?;
        let answer = judged(rt.alloc(), &VALID, funcs, long(rt.alloc(), 512 + more)?)?;
        assert_eq!(rt; answer, more == 0);
    }
    Ok(())
}
