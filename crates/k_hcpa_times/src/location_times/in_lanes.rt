//! The times of all locations over two shadows, while the control source's and the paths stand in lanes.
use crate::each::are_small;
use crate::lane_times::{
    GREATEST, admit_lanes, call_with, enter_lane, lane_count, load_with, may_enter, operate_lanes,
    restore_control, save_control, set_control, set_paths,
};
use crate::laned::{From, Laned, Lanes};
use crate::location_times::LocationTimes;
use k_code::Arg;
use k_num::NoMemory;
use k_shadow::{Shadow, Steps, TimeLanes, narrowed};
use std::sync::ledger::Ledger;

impl<R: Shadow, P: Shadow> Laned for LocationTimes<R, P> {
    ghost use Rattle.std.specs.Prelude.{length};
    ghost use Rattle.k_hcpa_times.specs.Lanes.{AreLanes, MayCall, MayEnter, MayHold};

    ghost laned = { λ t l. AreLanes (length t.paths) (R.content t.registers).entries t.reach t.admitted l };

    ghost calls = { λ t. MayCall (R.room t.registers) t.reach };

    ghost enters = { λ t l. MayEnter (length t.paths) (R.content t.registers).entries l.lanes };

    ghost gets = { λ t. MayHold (R.room t.registers) t.reach };

    fn open<V: TimeLanes>(&mut self) -> Option<Lanes<V>> {
        if self.paths.len() > V::count()
            || self.control.entries() > GREATEST
            || self.reach > GREATEST
        {
            return None;
        }
        if !are_small(self.paths.as_slice()) {
            return None;
        }
        self.admitted = self.admitted.max(GREATEST);
        Some(Lanes {
            control: self.control.lanes(),
            paths: narrowed(self.paths.as_slice()),
        })
    }

    fn close<V: TimeLanes>(&mut self, lanes: &Lanes<V>) {
        set_control(&mut self.control, lanes);
        set_paths(&mut self.paths, lanes);
    }

    #[tactic(auto, using(k_shadow::proofs::Laws::depth_written))]
    #[inline(always)]
    fn give_lanes<V: TimeLanes, L: Ledger>(
        &mut self,
        lanes: &mut Lanes<V>,
        from: From,
        latency: u32,
        to: u32,
        steps: &mut Steps<L>,
    ) -> bool {
        let reach = self.reach + latency as u64;
        if reach > GREATEST || !admit_lanes(&mut self.registers, to) {
            return false;
        }
        steps.tick_each(self.paths.as_slice());
        let times = operate_lanes(&self.registers, lanes, from, latency, steps);
        self.registers.put_lanes(to, times);
        self.reach = reach;
        true
    }

    #[tactic(auto, using(k_shadow::proofs::Laws::depth_written))]
    #[inline(always)]
    fn load_lanes<V: TimeLanes, L: Ledger>(
        &mut self,
        lanes: &mut Lanes<V>,
        from: From,
        element: u32,
        latency: u32,
        to: u32,
        steps: &mut Steps<L>,
    ) -> bool {
        let reach = self.reach + latency as u64;
        if reach > GREATEST || !admit_lanes(&mut self.registers, to) {
            return false;
        }
        steps.tick_each(self.paths.as_slice());
        let registers = &self.registers;
        let elements = &self.elements;
        let times = load_with(registers, elements, lanes, from, element, latency, steps);
        self.registers.put_lanes(to, times);
        self.reach = reach;
        true
    }

    #[tactic(auto, using(k_shadow::proofs::Laws::depth_written))]
    #[inline(always)]
    fn store_lanes<V: TimeLanes, L: Ledger>(
        &mut self,
        lanes: &mut Lanes<V>,
        from: From,
        latency: u32,
        element: u32,
        steps: &mut Steps<L>,
    ) -> bool {
        let reach = self.reach + latency as u64;
        if reach > GREATEST || !admit_lanes(&mut self.elements, element) {
            return false;
        }
        steps.tick_each(self.paths.as_slice());
        let times = operate_lanes(&self.registers, lanes, from, latency, steps);
        self.elements.put_lanes(element, times);
        self.reach = reach;
        true
    }

    #[inline(always)]
    fn test_lanes<V: TimeLanes, L: Ledger>(
        &mut self,
        lanes: &mut Lanes<V>,
        from: From,
        latency: u32,
        steps: &mut Steps<L>,
    ) -> bool {
        let reach = self.reach + latency as u64;
        if reach > GREATEST {
            return false;
        }
        steps.tick_each(self.paths.as_slice());
        let times = operate_lanes(&self.registers, lanes, from, latency, steps);
        lanes.control = times;
        self.reach = reach;
        true
    }

    #[inline(always)]
    fn clear_lanes<V: TimeLanes>(&mut self, _lanes: &Lanes<V>, to: u32) {
        self.registers.clear(to, 1);
    }

    #[inline]
    fn admit_call<V: TimeLanes>(
        &mut self,
        lanes: &Lanes<V>,
        to: u32,
        params: u32,
        latency: u32,
        depth: u32,
        opened: u64,
    ) -> bool {
        if self.reach + latency as u64 > GREATEST {
            return false;
        }
        let levels = self.paths.len();
        let entries = self.control.entries();
        if !may_enter(levels, entries, lane_count(lanes), depth, opened) {
            return false;
        }
        match self.registers.admit(to, params, GREATEST) {
            Ok(()) => true,
            Err(NoMemory) => false,
        }
    }

    #[inline]
    fn call_lanes<V: TimeLanes, L: Ledger>(
        &mut self,
        lanes: &mut Lanes<V>,
        first: u32,
        to: u32,
        params: u32,
        args: &[Arg],
        latency: u32,
        steps: &mut Steps<L>,
    ) {
        steps.tick_each(self.paths.as_slice());
        let registers = &mut self.registers;
        let _times = call_with(registers, lanes, first, to, params, args, latency, steps);
        self.reach += latency as u64;
    }

    #[inline]
    fn enter_lanes<V: TimeLanes>(&mut self, lanes: &mut Lanes<V>, depth: u32, opened: u64) -> bool {
        if opened >= depth as u64 {
            return true;
        }
        let level = self.paths.len();
        if self.control.entries() >= GREATEST || !enter_lane(lanes, level) {
            return false;
        }
        self.enter_everywhere();
        true
    }

    #[inline]
    fn move_lanes<V: TimeLanes, L: Ledger>(
        &mut self,
        lanes: &mut Lanes<V>,
        from: From,
        latency: u32,
        to: u32,
        steps: &mut Steps<L>,
    ) -> Option<V> {
        let reach = self.reach + latency as u64;
        if reach > GREATEST || !admit_lanes(&mut self.registers, to) {
            return None;
        }
        steps.tick_each(self.paths.as_slice());
        let times = operate_lanes(&self.registers, lanes, from, latency, steps);
        self.reach = reach;
        Some(times)
    }

    #[tactic(auto, using(k_shadow::proofs::Laws::depth_written))]
    #[inline]
    fn hold_lanes<V: TimeLanes>(&mut self, lanes: &Lanes<V>, to: u32, times: V) {
        let _control = lanes.control;
        self.registers.put_lanes(to, times);
    }

    #[inline]
    fn leave_lanes<V: TimeLanes>(&mut self, _lanes: &Lanes<V>, depth: u32, opened: u64) {
        if opened <= depth as u64 {
            self.leave_everywhere();
        }
    }

    #[inline]
    fn save_lanes<V: TimeLanes>(&mut self, lanes: &Lanes<V>) -> bool {
        if let Err(NoMemory) = self.control.reserve() {
            return false;
        }
        save_control(&mut self.control, lanes);
        true
    }

    #[inline]
    fn keep_lanes<V: TimeLanes>(&mut self, _lanes: &Lanes<V>) {
        self.control.keep();
    }

    #[inline]
    fn back_lanes<V: TimeLanes>(&mut self, lanes: &mut Lanes<V>) {
        restore_control(&self.control, lanes);
        self.control.keep();
    }

    #[inline]
    fn restore_lanes<V: TimeLanes>(&mut self, lanes: &mut Lanes<V>) -> bool {
        restore_control(&self.control, lanes);
        true
    }
}
