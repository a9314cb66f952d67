// The report at a number of a plan.
#![tactic(auto)]

ghost use Rattle.std.specs.Prelude.{◌+◌, ◌≤◌, ◌<◌, ◌≡◌, length, min, SomeIff, MatchOption};
ghost use Rattle.model.specs.Plan.{reports, report_at, write_report};
ghost use Rattle.refusals.specs.Refusals.{told};
ghost use Rattle.plan_formulas.specs.Formula.{report_total, place_of, Stands, units_left, has_report, duration_at, ended_at};

use division::divide;
use model::{Codes, Plan, Report};
use plan::InRange;
use plan_formulas::Place;
use refusals::Refusal;

// Whether a segment has a report at this place: three stand at its end, after those at the multiples of the period below it.
#[tactic(auto, using(crate::proofs::Reports::planning))]
fn has_report(p: InRange, units: u32, index: u32) -> bool
    requires { units ≤ 65535 }
    ensures { result ≡ has_report p.plan.period units index }
{
    units != 0 && (index < 3 || (index <= 65536 && (index - 2) * p.plan.period < units))
}

// Where report i stands, from 0, if there is such a place. No segment has more reports than a full one, so a division by their
// number tells, up to sixteen segments; in an event of one segment there is nothing to divide.
#[tactic(auto, using(plan_formulas::proofs::Places::placing))]
fn place_of(p: InRange, i: u32) -> Option<Place>
    ensures { MatchOption result (report_total p.plan ≤ i) (λ at. Stands p.plan i at) }
{
    if p.plan.length <= p.plan.segment_size {
        return Some(Place {
            segment: 0,
            index: i,
        });
    }
    let in_full = p.interim_count(p.plan.segment_size) + 3;
    if in_full * 16 <= i {
        return None;
    }
    let at = divide(i, in_full, 4);
    Some(Place {
        segment: at.quotient,
        index: at.remainder,
    })
}

// The units from a segment's start to the event's end: 0 past it.
fn units_left(p: InRange, segment: u32) -> u32
    requires { segment ≤ 15 }
    ensures { result ≡ units_left p.plan segment }
{
    p.plan.length.saturating_sub(segment * p.plan.segment_size)
}

// The duration a report says: the next multiple of the period, or at the end the segment's length.
#[tactic(auto, using(crate::proofs::Reports::planning))]
fn duration_at(p: InRange, units: u32, index: u32) -> u32
    requires le_units { 1 ≤ units }
    requires index_bound { index ≤ 65536 }
    ensures { result ≡ duration_at p.plan.period units index }
{
    ((index + 1) * p.plan.period).min(units)
}

// E: on the last two reports of the last segment, which is the one that nothing is left after.
#[tactic(auto, using(crate::proofs::Reports::planning))]
fn ended_at(p: InRange, left: u32, index: u32) -> bool
    requires le_left { 1 ≤ left }
    requires index_bound { index ≤ 65536 }
    ensures { result ≡ ended_at p.plan.segment_size p.plan.period left index }
{
    left <= p.plan.segment_size && left <= index * p.plan.period
}

// Report i of the plan, from 0: all of it follows from where the report stands.
#[tactic(auto, using(crate::proofs::Reports::planning))]
fn planned(p: InRange, i: u32, at: Place, left: u32) -> Report
    requires i_bound { i < report_total p.plan }
    requires at_value { at ≡ place_of p.plan i }
    requires left_value { left ≡ units_left p.plan at.segment }
    ensures { result ≡ report_at p.plan (i + 1) }
{
    let plan = p.plan;
    Report {
        marker: i == 0,
        payload_type: plan.payload_type,
        sequence: plan.sequence.wrapping_add((i & 0xffff) as u16),
        timestamp: plan.start.wrapping_add(at.segment * plan.segment_size),
        ssrc: plan.ssrc,
        code: plan.code,
        ended: ended_at(p, left, at.index),
        volume: plan.volume,
        duration: duration_at(p, left.min(plan.segment_size), at.index),
    }
}

// Report k of the plan, from 1, if it has so many.
fn report_at(p: InRange, k: u32) -> Option<Report>
    ensures { SomeIff result ((1 ≤ k) × (k ≤ length (reports p.plan))) (report_at p.plan k) }
{
    let i = k.checked_sub(1)?;
    let at = place_of(p, i)?;
    let left = units_left(p, at.segment);
    if !has_report(p, left.min(p.plan.segment_size), at.index) {
        return None;
    }
    Some(planned(p, i, at, left))
}

// Writes report k of the plan, counted from 1, at the start of the output, or refuses with 12, 13 or 14.
pub fn write_report(codes: Codes, p: Plan, k: u32, out: &mut [u8]) -> Result<(), Refusal>
    ensures result_value { told tt result ≡ (write_report codes p k out.old).answer }
    ensures out_after { out.new ≡ (write_report codes p k out.old).output }
{
    let p = InRange::of(codes, p)?;
    let r = report_at(p, k).ok_or(Refusal::NoSuchNumber)?;
    writer::write(codes, r, out)
}
