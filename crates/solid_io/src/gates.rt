ghost use Rattle.std.specs.Prelude.{◌≡◌};

use crate::traits::{Gate, Spot};
use std::marker::Model;
use std::sync::atomic::{AtomicBool, AtomicU64, Ordering};
use std::thread;

/// A gate that does nothing.
#[derive(Clone, Copy, Debug)]
pub struct OpenGate;

impl Gate for OpenGate {
    fn reach(&self, _session: u32, _spot: Spot) {}
}

/// A gate with two waits, for tests that show that two sessions run side by side.
///
/// The first work of session `held` waits until session `until` has answered as often as the
/// answer count says. The first answer of session `until` waits until session `held` has come to a
/// work. Each wait also ends after `turns` looks at what the other session has reached, and
/// `gave_up` is true from then on. So where both sessions came to a gate that hasn't given up,
/// neither of them ended before the other one started.
///
/// Contracts see the two sessions and the two numbers. No contract says how long a session is
/// held, nor what `gave_up` answers: tests show both.
#[derive(Drop)]
pub struct HoldGate {
    held: u32,
    until: u32,
    answer_count: u32,
    turns: u64,
    works: AtomicU64,
    answers: AtomicU64,
    late: AtomicBool,
}

impl Model for HoldGate {
    ghost use Rattle.solid_io.specs.Gates.{Waits};

    ghost Value = { Waits };

    ghost view = { λ g. record {
      held = g.held;
      until = g.until;
      answer_count = g.answer_count;
      turns = g.turns;
    } };
}

impl HoldGate {
    /// A gate for these two sessions, with the answer count 1. It hasn't given up.
    pub fn new(held: u32, until: u32, turns: u64) -> HoldGate
        ensures { result ≡ record {
          held = held;
          until = until;
          answer_count = 1;
          turns = turns;
        } }
    {
        HoldGate {
            held,
            until,
            answer_count: 1,
            turns,
            works: AtomicU64::new(0),
            answers: AtomicU64::new(0),
            late: AtomicBool::new(false),
        }
    }

    /// The same gate with the answer count `n`.
    pub fn until_count(mut self, n: u32) -> HoldGate
        ensures { result ≡ record self { answer_count = n } }
    {
        self.answer_count = n;
        self
    }

    /// Whether a wait has ended by its turns.
    pub fn gave_up(&self) -> bool {
        self.late.load(Ordering::SeqCst)
    }

    /// Looks at a count, at most as often as there are turns, until it has come to `least`.
    fn wait_for(&self, count: &AtomicU64, least: u32) {
        for _ in 0..self.turns {
            if count.load(Ordering::SeqCst) >= u64::from(least) {
                return;
            }
            thread::yield_now();
        }
        self.late.store(true, Ordering::SeqCst);
    }
}

impl Gate for HoldGate {
    fn reach(&self, session: u32, spot: Spot) {
        match spot {
            Spot::Work if session == self.held => {
                if self.works.fetch_add(1, Ordering::SeqCst) == 0 {
                    self.wait_for(&self.answers, self.answer_count);
                }
            }
            Spot::Answered if session == self.until => {
                if self.answers.fetch_add(1, Ordering::SeqCst) == 0 {
                    self.wait_for(&self.works, 1);
                }
            }
            _ => {}
        }
    }
}

#[cfg(test)]
mod tests {
    use super::*;

    /// Session 1 comes to a work.
    fn work(gate: &HoldGate) {
        gate.reach(1, Spot::Work);
    }

    /// Session 2 answers this many times.
    fn answer(gate: &HoldGate, times: u32) {
        for _ in 0..times {
            gate.reach(2, Spot::Answered);
        }
    }

    #[test]
    fn a_gate_that_neither_session_reaches_has_not_given_up(rt: HostRuntime) {
        let gate = HoldGate::new(1, 2, 0);
        assert!(rt; !gate.gave_up());
        gate.reach(1, Spot::Answered);
        gate.reach(2, Spot::Work);
        gate.reach(3, Spot::Work);
        gate.reach(3, Spot::Answered);
        assert!(rt; !gate.gave_up());
    }

    #[test]
    fn sessions_one_after_another_make_it_give_up(rt: HostRuntime) {
        let gate = HoldGate::new(1, 2, 10).until_count(2);
        work(&gate);
        assert!(rt; gate.gave_up());
        let gate = HoldGate::new(1, 2, 10).until_count(2);
        answer(&gate, 1);
        assert!(rt; gate.gave_up());
    }

    #[test]
    fn only_the_first_work_and_the_first_answer_wait(rt: HostRuntime) {
        let gate = HoldGate::new(1, 2, 1).until_count(0);
        work(&gate);
        answer(&gate, 1);
        assert!(rt; !gate.gave_up());
        let gate = gate.until_count(9);
        work(&gate);
        answer(&gate, 3);
        assert!(rt; !gate.gave_up());
    }

    #[test]
    fn sessions_side_by_side_pass_both_waits(rt: HostRuntime) {
        let gate = HoldGate::new(1, 2, 100_000_000).until_count(2);
        thread::join(&rt, || work(&gate), || answer(&gate, 2));
        assert!(rt; !gate.gave_up());
    }

    #[test]
    fn two_threads_give_up_after_too_few_answers(rt: HostRuntime) {
        let gate = HoldGate::new(1, 2, 10_000).until_count(3);
        thread::join(&rt, || work(&gate), || answer(&gate, 2));
        assert!(rt; gate.gave_up());
    }
}
