// The plans whose numbers are in their ranges, and how many reports they have.
#![tactic(auto)]

ghost use Rattle.std.specs.Prelude.{◌≡◌, ◌≤◌, true};
ghost use Rattle.model.specs.Plan.{lengths_in_range, report_count};
ghost use Rattle.refusals.specs.Refusals.{told};
ghost use Rattle.plan_formulas.specs.Formula.{interim_count};

use codes::contains;
use division::divide;
use model::{Codes, Plan};
use refusals::Refusal;

// A plan whose segment size, length and period are in their ranges.
#[derive(Clone, Copy)]
pub struct InRange {
    pub plan: Plan,
    pub ghost lengths: { lengths_in_range plan ≡ true },
}

// Whether the segment size, the length and the period are in their ranges. The size is tested first, so that 16 sizes fit.
fn lengths_in_range(p: Plan) -> bool
    ensures { result ≡ lengths_in_range p }
{
    (1..=65535).contains(&p.segment_size)
        && (1..=16 * p.segment_size).contains(&p.length)
        && (1..=65535).contains(&p.period)
}

// The reports of a segment before its end: one at each multiple of the period below its length. Mostly they are few, and half the
// steps find them. Each call has a fixed number of steps, which the compiler lays out one after another.
pub fn interim_count(units: u32, period: u32) -> u32
    requires le_units { 1 ≤ units }
    requires units_bound { units ≤ 65535 }
    requires le_period { 1 ≤ period }
    requires period_bound { period ≤ 65535 }
    ensures { result ≡ interim_count period units }
{
    if units <= period * 256 {
        divide(units - 1, period, 8).quotient
    } else {
        divide(units - 1, period, 16).quotient
    }
}

impl InRange {
    ghost use Rattle.std.specs.Prelude.{false, length, MatchResult};
    ghost use Rattle.model.specs.Plan.{plan_in_range, reports};
    ghost use Rattle.refusals.specs.declared.Refusal.TheVariants.{OutOfRange};

    // The plan, if each of its numbers is in its range, and its code in the set: else refusal 12.
    pub fn of(codes: Codes, plan: Plan) -> Result<Self, Refusal>
        ensures { MatchResult result
            (λ p. (plan_in_range codes plan ≡ true) × (p.plan ≡ plan))
            (λ refusal. (plan_in_range codes plan ≡ false) × (refusal ≡ OutOfRange)) }
    {
        let in_range = plan.payload_type <= 127
            && contains(codes, plan.code)
            && plan.volume <= 63
            && lengths_in_range(plan);
        if !in_range {
            return Err(Refusal::OutOfRange);
        }
        Ok(InRange { plan })
    }

    // The reports before the end of a segment of so many units.
    pub fn interim_count(self, units: u32) -> u32
        requires le_units { 1 ≤ units }
        requires units_bound { units ≤ 65535 }
        ensures { result ≡ interim_count self.plan.period units }
    {
        interim_count(units, self.plan.period)
    }

    // The plan's reports: those of each full segment, and of the last, which holds at least one unit. Each has three at its end.
    #[tactic(auto, using(crate::proofs::Counts::one_segment, crate::proofs::Counts::all_counted))]
    fn total(self) -> u32
        ensures { result ≡ length (reports self.plan) }
    {
        let p = self.plan;
        if p.length <= p.segment_size {
            return self.interim_count(p.length) + 3;
        }
        let segments = divide(p.length - 1, p.segment_size, 4);
        let in_full = self.interim_count(p.segment_size) + 3;
        let in_last = self.interim_count(segments.remainder + 1) + 3;
        segments.quotient * in_full + in_last
    }
}

// How many reports the plan has, or 12, also for a code outside the set.
pub fn report_count(codes: Codes, p: Plan) -> Result<u32, Refusal>
    ensures { told 0 result ≡ report_count codes p }
{
    Ok(InRange::of(codes, p)?.total())
}
