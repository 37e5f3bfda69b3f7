//! The lines of events.
ghost use Rattle.std.specs.Prelude.{◌≡◌, ◌+◌, ◌<◌, ◌^◌, ◌++◌, OnOk};
ghost use Rattle.std.specs.List.{flat_map};
ghost use Rattle.k_report.specs.Graph.{event_line, event_lines, made_with, op_line, source_text, sources_text};

use k_num::{NoMemory, Place};
use k_optab::{Class, Event, Src, name as class_name};
use k_text::{push, push_line, push_named, push_place};

/// A source behind a space.
fn push_source(text: &mut Vec<u8>, src: Src) -> Result<(), NoMemory>
    ensures { OnOk result (text.new.items ≡ text.old.items ++ source_text src) }
{
    push_named(text, " ", src.number)?;
    push(text, if src.broken { "!" } else { "" })
}

/// Sources, each behind a space.
fn push_some_sources(text: &mut Vec<u8>, sources: &[Src]) -> Result<(), NoMemory>
    ensures { OnOk result (text.new.items ≡ text.old.items ++ flat_map source_text sources.now) }
{
    for src in sources {
        push_source(text, *src)?;
    }
    Ok(())
}

/// The sources of an operation.
fn push_sources(text: &mut Vec<u8>, sources: &[Src]) -> Result<(), NoMemory>
    ensures { OnOk result (text.new.items ≡ text.old.items ++ sources_text sources.now) }
{
    match sources {
        [] => push(text, " -"),
        _ => push_some_sources(text, sources),
    }
}

/// The line of an operation.
fn push_op(
    text: &mut Vec<u8>,
    number: u64,
    class: Class,
    latency: u64,
    sources: &[Src],
    place: Place,
) -> Result<(), NoMemory>
    ensures { OnOk result (text.new.items ≡ text.old.items ++ op_line number class latency sources.now place) }
{
    push_named(text, "op ", number)?;
    push(text, " ")?;
    push(text, class_name(class))?;
    push_named(text, " ", latency)?;
    push(text, " ")?;
    push_place(text, place)?;
    push(text, " from")?;
    push_sources(text, sources)?;
    push(text, "\n")
}

/// The line of an event before which `made` operations were made.
fn push_event(text: &mut Vec<u8>, made: u64, event: &Event) -> Result<(), NoMemory>
    ensures { OnOk result (text.new.items ≡ text.old.items ++ event_line made event.now) }
{
    match event {
        Event::Op {
            class,
            latency,
            sources,
            place,
        } => push_op(text, made, *class, *latency, sources.as_slice(), *place),
        Event::Enter(region) => push_line(text, "enter ", *region),
        Event::Exit => push(text, "exit\n"),
    }
}

/// How many operations are made once an event has happened.
fn made_with(made: u64, event: &Event) -> u64
    requires { made + 1 < 2 ^ 64 }
    ensures { result ≡ made_with made event.now }
{
    match event {
        Event::Op { .. } => made + 1,
        Event::Enter(_) => made,
        Event::Exit => made,
    }
}

/// The lines of the events of a run.
pub(crate) fn push_events(text: &mut Vec<u8>, events: &[Event]) -> Result<(), NoMemory>
    ensures { OnOk result (text.new.items ≡ text.old.items ++ event_lines 0 events.now) }
{
    let mut made = 0;
    for event in events {
        push_event(text, made, event)?;
        made = made_with(made, event);
    }
    Ok(())
}
