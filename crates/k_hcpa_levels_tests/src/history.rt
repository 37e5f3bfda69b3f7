//! What the events of a run say of its open instances, found anew from the definition: the work of one is the sum of its latencies, its path the weight of
//! the heaviest path in its graph, and the time of a register or an element the weight of the heaviest path in it that ends at what gave its value.
use crate::watched::Puts;
use k_hcpa::Machine;
use k_optab::{Class, Event, Src};
use k_shadow::Shadow;
use std::alloc::Global;

/// An open instance: its first operation, its work and its path so far, and of each of its operations the weight of the heaviest path in it that ends there.
#[derive(Drop)]
struct OpenInstance {
    first: u64,
    work: u64,
    path: u64,
    ends: Vec<u64>,
}

impl OpenInstance {
    /// The weight of the heaviest path that ends at the operation of this number: 0 where that lies before the instance.
    fn end_of(&self, number: u64) -> u64 {
        if number < self.first {
            return 0;
        }
        match self.ends.as_slice().get((number - self.first) as usize) {
            Some(end) => *end,
            None => 0,
        }
    }

    /// The weight of the heaviest path that ends at a source: 0 where there is no edge from it.
    fn end_at(&self, source: &Src) -> u64 {
        if source.broken {
            0
        } else {
            self.end_of(source.number)
        }
    }

    /// The weight of the heaviest path that ends at one of these sources.
    fn latest(&self, sources: &[Src]) -> u64 {
        let mut latest = 0u64;
        for source in sources {
            latest = latest.max(self.end_at(source));
        }
        latest
    }

    /// An operation with these sources is made in it. Nothing where a number would be too large, or memory is wanting.
    fn operate(&mut self, latency: u64, sources: &[Src]) -> Option<()> {
        let end = self.latest(sources).checked_add(latency)?;
        self.work = self.work.checked_add(latency)?;
        self.path = self.path.max(end);
        self.ends.push(end).ok()
    }
}

/// Whether each operation of a class gives a register or an element its value.
fn gives_always(class: Class) -> bool {
    matches!(
        class,
        Class::Conv | Class::Simple | Class::Mul | Class::Div | Class::Load | Class::Store
    )
}

/// Whether all these times are 0, as those of what no operation gave.
fn are_none(times: &[u64]) -> bool {
    times.iter().all(|time| *time == 0)
}

/// The open instances of depth below `depth`, outermost first; how many more are open; and how many operations were made.
#[derive(Drop)]
pub struct History {
    depth: usize,
    open: Vec<OpenInstance>,
    deeper: u64,
    made: u64,
}

impl History {
    /// No event has come.
    pub fn new(alloc: Global, depth: u32) -> History {
        History {
            depth: depth as usize,
            open: Vec::new(alloc),
            deeper: 0,
            made: 0,
        }
    }

    fn operate(&mut self, latency: u64, sources: &[Src]) -> Option<()> {
        for instance in self.open.iter_mut() {
            instance.operate(latency, sources)?;
        }
        self.made = self.made.checked_add(1)?;
        Some(())
    }

    fn enter(&mut self, alloc: Global) -> Option<()> {
        if self.open.len() < self.depth {
            let instance = OpenInstance {
                first: self.made,
                work: 0,
                path: 0,
                ends: Vec::new(alloc),
            };
            return self.open.push(instance).ok();
        }
        self.deeper = self.deeper.checked_add(1)?;
        Some(())
    }

    fn exit(&mut self) -> Option<()> {
        if self.deeper > 0 {
            self.deeper -= 1;
            return Some(());
        }
        let last = self.open.pop()?;
        drop(last);
        Some(())
    }

    /// Whether these are the times, at each open level, of a location whose value the operation of this number gave. At a level that opens behind it, it is 0.
    fn are_times_of(&self, times: &[u64], number: u64) -> bool {
        for (level, time) in times.iter().enumerate() {
            let wanted = match self.open.as_slice().get(level) {
                Some(instance) => instance.end_of(number),
                None => 0,
            };
            if *time != wanted {
                return false;
            }
        }
        times.len() >= self.open.len()
    }

    /// Whether these are the times of a parameter, whose value is of one of these sources or of none.
    fn are_times_passed(&self, times: &[u64], sources: &[Src]) -> bool {
        are_none(times)
            || sources
                .iter()
                .any(|source| self.are_times_of(times, source.number))
    }

    /// Whether what was put, if it is noted, are the times of what the newest operation gives, or, where that is a call, of its parameters. Forgets them.
    fn gives_puts(&self, puts: Option<&Puts>, class: Class, sources: &[Src]) -> bool {
        let Some(puts) = puts else {
            return true;
        };
        let Some(newest) = self.made.checked_sub(1) else {
            return false;
        };
        let Ok(mut list) = puts.try_borrow_mut() else {
            return false;
        };
        if list.is_empty() && gives_always(class) {
            return false;
        }
        for times in list.as_slice() {
            let right = if class == Class::Call {
                self.are_times_passed(times.as_slice(), sources)
            } else {
                self.are_times_of(times.as_slice(), newest)
            };
            if !right {
                return false;
            }
        }
        list.clear();
        true
    }

    /// This event comes, and with an operation these times were put.
    fn follow(&mut self, alloc: Global, puts: Option<&Puts>, event: &Event) -> Option<()> {
        match event {
            Event::Op {
                class,
                latency,
                sources,
                ..
            } => {
                self.operate(*latency, sources.as_slice())?;
                if self.gives_puts(puts, *class, sources.as_slice()) {
                    Some(())
                } else {
                    None
                }
            }
            Event::Enter(_) => self.enter(alloc),
            Event::Exit => self.exit(),
        }
    }

    /// Whether a machine tells the same work and the same path at each live level.
    pub fn is_told<'a, R: Shadow, P: Shadow>(&self, machine: &Machine<'a, R, P>) -> bool {
        let levels = machine.levels();
        if levels as usize != self.open.len() || machine.made() != self.made {
            return false;
        }
        for level in 0..levels {
            let Some(instance) = self.open.as_slice().get(level as usize) else {
                return false;
            };
            if machine.work_now(level) != instance.work
                || machine.path_now(level) != instance.path
            {
                return false;
            }
        }
        true
    }

    /// Follows these events as far as a machine has come: to its last operation, and from there on to where it tells what they say. The events behind that,
    /// or nothing where no such place comes before the next operation.
    pub fn reach<'a, 'e, R: Shadow, P: Shadow>(
        &mut self,
        alloc: Global,
        machine: &Machine<'a, R, P>,
        puts: Option<&Puts>,
        events: &'e [Event],
    ) -> Option<&'e [Event]> {
        let mut rest = events;
        while let Some((event, later)) = rest.split_first() {
            if self.is_told(machine) {
                return Some(rest);
            }
            if self.made == machine.made() && matches!(event, Event::Op { .. }) {
                return None;
            }
            self.follow(alloc, puts, event)?;
            rest = later;
        }
        if self.is_told(machine) {
            Some(rest)
        } else {
            None
        }
    }
}
