//! The text of a program that is made from a number.
ghost use Rattle.std.specs.Prelude.{◌≡◌, ◌≤◌, ◌++◌, IfOk, OnOk, decimal};
ghost use Rattle.k_gen.specs.Text.{back, front, head, line_of, program, tail};

use crate::draw::{drawn, next, seed};
use itoa::Buffer;
use k_num::NoMemory;
use std::alloc::Global;

/// The C program of so many loops that is made from a number. Each loop takes two draws: the first says what it does, and
/// the second a number in it.
pub fn generate(alloc: Global, number: u64, loops: u32) -> Result<Vec<u8>, NoMemory>
    requires some { 1 ≤ loops }
    requires few { loops ≤ 2000 }
    ensures { IfOk result (λ text. text.items ≡ program number loops) }
{
    let mut text = Vec::from_slice(alloc, head().as_bytes())?;
    let mut state = seed(number);
    for k in 0..loops {
        let first = next(state);
        state = next(first);
        push_loop(&mut text, drawn(first) % 3, 1 + drawn(state) % 9)?;
    }
    text.extend_from_slice(tail().as_bytes())?;
    Ok(text)
}

/// Adds the line of a loop.
fn push_loop(text: &mut Vec<u8>, form: u64, number: u64) -> Result<(), NoMemory>
    ensures { OnOk result (text.new.items ≡ text.old.items ++ line_of form number) }
{
    let mut buffer = Buffer::new();
    text.extend_from_slice(front(form).as_bytes())?;
    text.extend_from_slice(buffer.format(number).as_bytes())?;
    text.extend_from_slice(back(form).as_bytes())?;
    Ok(())
}

/// The lines before the loops.
#[tactic(auto, unfolding(crate::specs::Text::head))]
fn head() -> &'static str
    ensures { result.now ≡ head }
{
    "#include <stdio.h>\nint a[64];\nint main(void)\n{\nint i,j,s=0;\nfor(i=0;i<64;i++) a[i]=i%10;\n"
}

/// The lines behind the loops.
#[tactic(auto, unfolding(crate::specs::Text::tail))]
fn tail() -> &'static str
    ensures { result.now ≡ tail }
{
    "printf(\"%d\\n\",s);\nreturn 0;\n}\n"
}

/// What stands before the number of a loop.
#[tactic(auto, unfolding(crate::specs::Text::front))]
fn front(form: u64) -> &'static str
    ensures { result.now ≡ front form }
{
    match form {
        0 => "for(i=0;i<64;i++) a[i]=(a[i]*",
        1 => "for(i=1;i<64;i++) a[i]=(a[i-1]+a[i]+",
        _ => "for(j=0;j<8;j++) for(i=0;i<64;i++) s+=a[i]&",
    }
}

/// What stands behind it.
#[tactic(auto, unfolding(crate::specs::Text::back))]
fn back(form: u64) -> &'static str
    ensures { result.now ≡ back form }
{
    match form {
        0 => "+i)%1000;\n",
        1 => ")%1000;\n",
        _ => ";\n",
    }
}
