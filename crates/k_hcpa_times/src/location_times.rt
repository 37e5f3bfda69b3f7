//! The times of all locations over two shadows.
ghost use Rattle.std.specs.Prelude.{◌≡◌, ◌^◌, ◌<◌, ◌≤◌, length};
ghost use Rattle.k_shadow.specs.Content.{empty};
ghost use Rattle.k_hcpa_meaning.specs.Timings.{HasLevels, innermost_gone, no_levels};
ghost use Rattle.k_hcpa_times.specs.Seen.{level_entered, made, seen_of, AreWithin};

mod in_lanes;

use crate::at_once::{write_none, write_one, write_two};
use crate::each::{
    enter_times, leave_times, paths_behind, raise_by, raise_times, raise_unless, read_by,
    settle_times,
};
use crate::timed::Timed;
use k_num::NoMemory;
use k_shadow::{Cell, Control, Shadow, Steps, Times};
use std::alloc::Global;
use std::sync::ledger::Ledger;

/// The times of all locations: a shadow of registers and one of elements, the control sources, the cells of input and output, and a list of times for the
/// operation that is being made, and one for the paths.
#[derive(Drop)]
pub struct LocationTimes<R: Shadow, P: Shadow> {
    registers: R,
    elements: P,
    control: Control,
    in_cell: Cell,
    out_cell: Cell,
    row: Times,
    paths: Times,
    /// What a register holds while it is handed on.
    handed: Times,
    /// No time so far is above it.
    reach: u64,
    /// Up to which times the shadows are asked for room.
    admitted: u64,
    ghost levels: { HasLevels (length paths) (seen_of (R.content registers) (P.content elements) control in_cell out_cell row paths).timing },
    ghost within: { AreWithin reach (seen_of (R.content registers) (P.content elements) control in_cell out_cell row paths).timing },
    ghost admits: { reach ≤ admitted },
    ghost handed_levels: { length handed ≡ length paths },
    ghost element_entries: { (P.content elements).entries ≡ (R.content registers).entries },
    ghost control_entries: { control.entries ≡ (R.content registers).entries },
}

impl<R: Shadow, P: Shadow> LocationTimes<R, P> {
    /// No level is live. It takes no memory.
    pub fn new(alloc: Global, registers: R, elements: P) -> LocationTimes<R, P>
        requires registers { R.content registers ≡ empty (R.content registers).limit }
        requires elements { P.content elements ≡ empty (P.content elements).limit }
        ensures { ⟦<LocationTimes<R, P> as Timed>⟧.seen result ≡ record { timing = no_levels; entries = 0; registers = (R.content registers).limit; elements = (P.content elements).limit } }
    {
        LocationTimes {
            registers,
            elements,
            control: Control::new(alloc),
            in_cell: Cell::new(),
            out_cell: Cell::new(),
            row: Times::new(alloc),
            paths: Times::new(alloc),
            handed: Times::new(alloc),
            reach: 0,
            admitted: 0,
        }
    }

    /// Enters a level in all that is kept.
    fn enter_everywhere(&mut self)
        requires shallow { length self.old.paths < 32 }
        requires few { (R.content self.old.registers).entries < 2 ^ 62 }
        ensures entered { ⟦<LocationTimes<R, P> as Timed>⟧.seen self.new ≡ level_entered (⟦<LocationTimes<R, P> as Timed>⟧.seen self.old) }
        ensures reach { self.new.reach ≡ self.old.reach }
        ensures admitted { self.new.admitted ≡ self.old.admitted }
    {
        self.registers.enter();
        self.elements.enter();
        self.control.enter();
        self.in_cell.enter();
        self.out_cell.enter();
        enter_times(&mut self.row);
        enter_times(&mut self.paths);
        enter_times(&mut self.handed);
    }

    /// Leaves the innermost level in all that is kept.
    fn leave_everywhere(&mut self)
        requires { 0 < length self.old.paths }
        ensures left { ⟦<LocationTimes<R, P> as Timed>⟧.seen self.new ≡ made innermost_gone (⟦<LocationTimes<R, P> as Timed>⟧.seen self.old) }
        ensures reach { self.new.reach ≡ self.old.reach }
        ensures admitted { self.new.admitted ≡ self.old.admitted }
    {
        self.registers.leave();
        self.elements.leave();
        self.control.leave();
        self.in_cell.leave();
        self.out_cell.leave();
        leave_times(&mut self.row);
        leave_times(&mut self.paths);
        leave_times(&mut self.handed);
    }
}

impl<R: Shadow, P: Shadow> Timed for LocationTimes<R, P> {
    ghost use Rattle.k_hcpa_times.specs.Seen.{room_of};

    ghost seen = { λ t. seen_of (R.content t.registers) (P.content t.elements) t.control t.in_cell t.out_cell t.row t.paths };

    ghost room = { λ t. room_of (R.room t.registers) (P.room t.elements) t.control.room t.reach t.admitted };

    #[inline]
    fn levels(&self) -> usize {
        self.paths.len()
    }

    #[inline]
    fn paths(&self) -> &[u64] {
        self.paths.as_slice()
    }

    fn enter(&mut self) {
        self.enter_everywhere();
    }

    fn leave(&mut self) {
        self.leave_everywhere();
    }

    #[inline]
    fn admit(&mut self, latency: u64) {
        self.admitted = self.admitted.max(self.reach.saturating_add(latency));
    }

    fn reserve_registers(&mut self, first: u32, count: u32) -> Result<(), NoMemory> {
        self.registers.admit(first, count, self.admitted)
    }

    fn reserve_element(&mut self, element: u32) -> Result<(), NoMemory> {
        self.elements.admit(element, 1, self.admitted)
    }

    fn reserve_saved(&mut self) -> Result<(), NoMemory> {
        self.control.reserve()
    }

    #[inline]
    fn begin<L: Ledger>(&mut self, steps: &mut Steps<L>) {
        self.control.fill(self.row.as_mut_slice(), steps);
    }

    #[tactic(auto, using(crate::proofs::Lists::later_length), unfolding(k_hcpa_meaning::specs::Timings::times_at))]
    #[inline]
    fn raise_register<L: Ledger>(&mut self, register: u32, steps: &mut Steps<L>) {
        raise_by(&self.registers, register, &mut self.row, steps);
    }

    #[tactic(auto, using(crate::proofs::Lists::later_length), unfolding(k_hcpa_meaning::specs::Timings::times_at))]
    #[inline]
    fn raise_element<L: Ledger>(&mut self, element: u32, steps: &mut Steps<L>) {
        raise_by(&self.elements, element, &mut self.row, steps);
    }

    #[tactic(auto, using(crate::proofs::Lists::later_length), unfolding(k_hcpa_meaning::specs::Timings::times_at))]
    #[inline]
    fn raise_input<L: Ledger>(&mut self, steps: &mut Steps<L>) {
        raise_times(&mut self.row, self.in_cell.times(steps));
    }

    #[tactic(auto, using(crate::proofs::Lists::later_length), unfolding(k_hcpa_meaning::specs::Timings::times_at))]
    #[inline]
    fn raise_output<L: Ledger>(&mut self, steps: &mut Steps<L>) {
        raise_times(&mut self.row, self.out_cell.times(steps));
    }

    #[tactic(auto, using(crate::proofs::Lists::later_length))]
    #[inline]
    fn settle(&mut self, latency: u64) {
        settle_times(&mut self.row, latency, &mut self.paths);
        self.reach = self.reach.saturating_add(latency);
    }

    #[tactic(auto, using(crate::proofs::Lists::later_length))]
    fn paths_behind(&self, latency: u64, paths: &mut [u64]) {
        paths_behind(&self.paths, &self.row, latency, paths);
    }

    #[tactic(auto, using(k_shadow::proofs::Laws::depth_written), unfolding(k_hcpa_meaning::specs::Timings::given_to))]
    #[inline]
    fn give_register(&mut self, register: u32) {
        self.registers.put(register, self.row.as_slice());
    }

    #[tactic(auto, using(k_shadow::proofs::Laws::depth_written), unfolding(k_hcpa_meaning::specs::Timings::given_to))]
    #[inline]
    fn give_after_none<L: Ledger>(&mut self, latency: u64, to: u32, steps: &mut Steps<L>) {
        write_none(
            &mut self.registers,
            &self.control,
            latency,
            to,
            &mut self.paths,
            steps,
        );
        self.reach = self.reach.saturating_add(latency);
    }

    #[tactic(auto, using(k_shadow::proofs::Laws::depth_written), unfolding(k_hcpa_meaning::specs::Timings::given_to, k_hcpa_meaning::specs::Timings::times_at))]
    #[inline]
    fn give_after_one<L: Ledger>(
        &mut self,
        from: u32,
        latency: u64,
        to: u32,
        steps: &mut Steps<L>,
    ) {
        write_one(
            &mut self.registers,
            &self.control,
            from,
            latency,
            to,
            &mut self.paths,
            steps,
        );
        self.reach = self.reach.saturating_add(latency);
    }

    #[tactic(auto, using(k_shadow::proofs::Laws::depth_written), unfolding(k_hcpa_meaning::specs::Timings::given_to, k_hcpa_meaning::specs::Timings::times_at))]
    #[inline]
    fn give_after_two<L: Ledger>(
        &mut self,
        left: u32,
        right: u32,
        latency: u64,
        to: u32,
        steps: &mut Steps<L>,
    ) {
        write_two(
            &mut self.registers,
            &self.control,
            left,
            right,
            latency,
            to,
            &mut self.paths,
            steps,
        );
        self.reach = self.reach.saturating_add(latency);
    }

    #[tactic(auto, using(k_shadow::proofs::Laws::depth_written), unfolding(k_hcpa_meaning::specs::Timings::given_to))]
    #[inline]
    fn give_element(&mut self, element: u32) {
        self.elements.put(element, self.row.as_slice());
    }

    #[tactic(auto, unfolding(k_hcpa_meaning::specs::Timings::given_to))]
    #[inline]
    fn give_input(&mut self) {
        self.in_cell.put(self.row.as_slice());
    }

    #[tactic(auto, unfolding(k_hcpa_meaning::specs::Timings::given_to))]
    #[inline]
    fn give_output(&mut self) {
        self.out_cell.put(self.row.as_slice());
    }

    #[tactic(auto, unfolding(k_hcpa_meaning::specs::Timings::given_to))]
    #[inline]
    fn give_control(&mut self) {
        self.control.under(&self.row);
    }

    #[tactic(auto, unfolding(k_hcpa_meaning::specs::Timings::times_at))]
    fn hand<L: Ledger>(&mut self, from: u32, broken: bool, to: u32, steps: &mut Steps<L>) {
        read_by(&self.registers, from, &mut self.handed, steps);
        raise_unless(broken, &mut self.row, &self.handed);
        self.registers.put(to, self.handed.as_slice());
    }

    #[inline]
    fn clear_registers(&mut self, first: u32, count: u32) {
        self.registers.clear(first, count);
    }

    #[inline]
    fn clear_elements(&mut self, first: u32, count: u32) {
        self.elements.clear(first, count);
    }

    #[inline]
    fn saved(&self) -> usize {
        self.control.saved()
    }

    #[inline]
    fn save(&mut self) {
        self.control.save();
    }

    #[inline]
    fn keep(&mut self) {
        self.control.keep();
    }

    #[inline]
    fn back(&mut self) {
        self.control.back();
    }

    #[inline]
    fn restore(&mut self) {
        self.control.back();
        self.control.save();
    }
}
