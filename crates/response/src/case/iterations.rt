ghost use Rattle.std.specs.Prelude.{◌≡◌, ◌+◌, ◌*◌, ◌<◌, ◌≤◌};
ghost use Rattle.theory.specs.Arrivals.{before};
ghost use Rattle.theory.specs.Equations.{Period, Start, Finish};
ghost use Rattle.theory.specs.Regular.{Climbs};
ghost use Rattle.response.specs.Ticks.{ticks_of};
ghost use Rattle.response.specs.Cases.{own_timing, equations_of, PeriodFound, JobsJudged};
ghost use Rattle.response.specs.Verdicts.{verdict_of};

use super::super::outcome::Outcome;
use super::super::solve::least_solution;
use super::super::ticks::{releases_before, ticks};
use super::Case;

const PERIOD_TOP: u32 = 100_000_000;

impl Case<'_> {
    fn run_time(&self) -> u64
        ensures value { result ≡ (own_timing self.now).c }
        ensures bound { result ≤ 16777215 }
    {
        u64::from(self.own.timing.run_time)
    }

    // What all rows above take for the jobs that they release before x.
    fn interference(&self, x: u32) -> u64
        ensures value { result ≡ ticks_of self.now.preempting.now x + ticks_of self.now.others.now x }
        ensures bound { result ≤ 4899915843682435200 }
    {
        ticks(self.preempting, x) + ticks(self.others, x)
    }

    fn period_demand(&self, x: u32) -> u64
        ensures { result ≡ (equations_of self.now).period x }
    {
        let own = u64::from(releases_before(&self.own, x)) * self.run_time();
        u64::from(self.blocking) + own + self.interference(x)
    }

    fn start_demand(&self, k: u32, s: u32) -> u64
        requires { s < 100000000 }
        ensures { result ≡ (equations_of self.now).start k s }
    {
        u64::from(self.blocking) + u64::from(k) * self.run_time() + self.interference(s + 1)
    }

    // The part of a finish that its iteration does not change.
    fn fixed_demand(&self, k: u32, s: u32) -> u64
        requires { s < 100000000 }
        ensures value { result ≡ self.now.blocking + (k + 1) * (own_timing self.now).c + ticks_of self.now.others.now (s + 1) }
        ensures bound { result ≤ 5000000000000000000 }
    {
        u64::from(self.blocking) + (u64::from(k) + 1) * self.run_time() + ticks(self.others, s + 1)
    }

    fn finish_demand(&self, fixed: u64, x: u32) -> u64
        requires { fixed ≤ 5000000000000000000 }
        ensures { result ≡ fixed + ticks_of self.now.preempting.now x }
    {
        fixed + ticks(self.preempting, x)
    }

    // The active period, if one of 100000000 ticks or less ends.
    fn active_period(&self) -> Option<u32>
        ensures { PeriodFound (equations_of self.now) result }
    {
        least_solution(|x| self.period_demand(x), 1, PERIOD_TOP)
    }

    // The start of job k, looked for from a number that is not above it.
    fn start(&self, k: u32, from: u32, period: u32) -> u32
        requires active { Period (equations_of self.now) period }
        requires short { period ≤ 100000000 }
        requires among { k < before (own_timing self.now) period }
        requires below { Climbs 0 ((equations_of self.now).start k) from }
        ensures is { Start (equations_of self.now) k result }
        ensures within { result < period }
    {
        least_solution(|s| self.start_demand(k, s), from, period - 1).unwrap()
    }

    // The finish of job k, which starts at s, looked for from the first time that it could be.
    fn finish(&self, k: u32, s: u32, period: u32) -> u32
        requires active { Period (equations_of self.now) period }
        requires short { period ≤ 100000000 }
        requires among { k < before (own_timing self.now) period }
        requires starts { Start (equations_of self.now) k s }
        requires within { s < period }
        ensures is { Finish (equations_of self.now) k s result }
        ensures within { result ≤ period }
    {
        let fixed = self.fixed_demand(k, s);
        let first = s + self.own.timing.run_time;
        least_solution(|x| self.finish_demand(fixed, x), first, period).unwrap()
    }

    /// Judges each job of the active period, up to the first that is late.
    pub fn outcome(&self) -> Outcome
        ensures { JobsJudged (equations_of self.now) (own_timing self.now) (verdict_of result) }
    {
        let Some(period) = self.active_period() else {
            return Outcome::NoPeriod;
        };
        let timing = self.own.timing;
        let jobs = releases_before(&self.own, period);
        let mut worst: u32 = 0;
        let mut from: u32 = 0;
        for k in 0..jobs {
            let start = self.start(k, from, period);
            let finish = self.finish(k, start, period);
            let response = finish - k * timing.separation;
            if response > timing.deadline {
                return Outcome::Late { job: k, response };
            }
            worst = worst.max(response);
            from = start + timing.run_time;
        }
        Outcome::Passes { response: worst }
    }
}
