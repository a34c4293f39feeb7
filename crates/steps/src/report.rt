// The report.
ghost use Rattle.std.specs.Prelude.{◌≤◌, ◌≡◌, false, cond, ◌∷◌, []};
ghost use Rattle.rules.specs.declared.State.{State};
ghost use Rattle.rules.specs.Numbers.{is_state};
ghost use Rattle.track.specs.Among.{chosen_among};
ghost use Rattle.rules.specs.Places.{all_curves};
ghost use Rattle.rules.specs.Speeds.{judged_now, vmax_of};
ghost use Rattle.rules.specs.Odometer.{seen_in};
ghost use Rattle.rules.specs.Commands.{remembered};
ghost use Rattle.rules.specs.Reports.{causes_number, messages_of, offered_of, is_over, shown_fields, report_with, test_order, report_outside, report_of};

use brake_test::{has_failed, has_passed, is_running, is_test_braking};
use brakes::causes::{order_of, would_drop};
use brakes::seeing::{is_insufficient, seen_with};
use colours::{row_of, showing_number};
use curve::Judged;
use places::CURVES;
use pressure::Measured;
use refusals::padded;
use rules::{
    BrakeTest, Brakes, Candidate, Causes, Kept, Last, Order, Seen, Stage, State, Stm, Train,
};
use track::shows::{change_of, chosen, showing_of};
use track::whole::{all_curves, braking_of, judge_now, permitted_speed, vmax_of};
use wire::{REPORT_LENGTH, high, high_pair, low, low_pair};

// What a report in DA looks at beside the unit: what all that may be curves say, VMAX and what is seen.
#[derive(Clone, Copy)]
pub(crate) struct View {
    pub(crate) judged: [Judged; CURVES],
    pub(crate) vmax: u16,
    pub(crate) seen: Seen,
}

// The four bytes of what is shown.
#[derive(Clone, Copy)]
struct Shown {
    id: u8,
    interval: u8,
    bar: u8,
    mode: u8,
}

// The value of a bit where it is set, else 0: at most that value.
fn value(set: bool, bit: u16) -> u16
    ensures { (result ≡ cond set bit 0) × (result ≤ bit) }
{
    u16::from(set) * bit
}

fn causes_number(c: Causes) -> u16
    ensures { result ≡ causes_number c }
{
    value(c.overspeed, 1)
        + value(c.excess, 2)
        + value(c.full, 4)
        + value(c.soft, 8)
        + value(c.emergency, 16)
        + value(c.aimed, 32)
        + value(c.unexpected, 64)
        + value(c.speed, 128)
        + value(c.landslide, 256)
        + value(c.balise, 512)
        + value(c.rolling, 1024)
        + value(c.service, 2048)
}

// `et` is whether an ET record is shown.
fn messages_of(b: Brakes, feedback: Measured, test: BrakeTest, et: bool) -> u8
    ensures { result ≡ messages_of b feedback test et }
{
    (value(b.drift, 1)
        + value(b.failed, 2)
        + value(feedback.fault, 4)
        + value(is_running(test.stage), 8)
        + value(has_passed(test.result), 16)
        + value(has_failed(test.result), 32)
        + value(et, 64)) as u8
}

#[tactic(auto, unfolding(rules::specs::Reports::offered_of))]
fn offered_of(s: Seen, c: Causes) -> u8
    ensures { result ≡ offered_of s c }
{
    (value(would_drop(s, true, false, c), 1) + value(would_drop(s, false, true, c), 2)) as u8
}

// Whether the shown curve's permitted boundary is reached.
#[tactic(auto, unfolding(rules::specs::Reports::is_over))]
fn is_over(train: Train, kept: Kept, shown: Candidate) -> bool
    ensures { result ≡ is_over train kept shown }
{
    let braking = braking_of(train, kept.halka);
    curve::reached(
        shown.curve,
        braking.level,
        kept.speed,
        braking.leads.permitted,
    )
}

// The shown curve's id, or 255.
fn shown_id(shown: Candidate) -> u8
    ensures { result ≡ cond shown.judged.held shown.curve.id 255 }
{
    if shown.judged.held {
        shown.curve.id
    } else {
        255
    }
}

#[tactic(auto, unfolding(rules::specs::Reports::shown_fields))]
fn shown_fields(over: bool, insufficient: bool, shown: Candidate) -> Shown
    ensures { (result.id ∷ result.interval ∷ result.bar ∷ result.mode ∷ []) ≡ shown_fields over insufficient shown }
{
    let showing = showing_of(shown);
    let row = row_of(over, !insufficient, showing);
    Shown {
        id: shown_id(shown),
        interval: showing_number(showing),
        bar: u8::from(row.bar),
        mode: u8::from(row.mode),
    }
}

// The report in DA, from what it looks at.
fn report_in_da(view: &View, stm: &Stm) -> [u8; REPORT_LENGTH]
    ensures { result ≡ report_with view.now.judged view.now.vmax (chosen_among stm.now.track.curves stm.now.track.records view.now.judged) view.now.seen stm.now }
{
    let causes = stm.brakes.causes;
    let candidate = chosen(stm.track.curves, stm.track.records, view.judged);
    let shown = shown_fields(
        is_over(stm.train, stm.kept, candidate),
        is_insufficient(stm.train, stm.feedback),
        candidate,
    );
    let number = causes_number(causes);
    let permitted = permitted_speed(view.vmax, view.judged);
    let change = change_of(stm.train, stm.kept, candidate);
    let first = high_pair(change);
    let last = low_pair(change);
    [
        u8::from(State::DA),
        u8::from(order_of(stm.train.softly, causes)),
        high(number),
        low(number),
        high(permitted),
        low(permitted),
        high(view.vmax),
        low(view.vmax),
        shown.id,
        shown.interval,
        shown.bar,
        shown.mode,
        messages_of(stm.brakes, stm.feedback, stm.test, candidate.et),
        offered_of(view.seen, causes),
        high(first),
        low(first),
        high(last),
        low(last),
        u8::from(stm.track.stay.area),
    ]
}

// The order of a test: full while it brakes.
fn test_order(stage: Stage) -> u8
    ensures { result ≡ test_order stage }
{
    if is_test_braking(stage) {
        u8::from(Order::Full)
    } else {
        u8::from(Order::Nothing)
    }
}

// The order outside DA: emergency in FA, the test's in DE, and none.
fn order_outside(state: State, stage: Stage) -> u8
    ensures { result ≡ cond (is_state State.FA state) 3 (cond (is_state State.DE state) (test_order stage) 0) }
{
    match state {
        State::FA => u8::from(Order::Emergency),
        State::DE => test_order(stage),
        _ => u8::from(Order::Nothing),
    }
}

// Outside DA.
#[tactic(auto, unfolding(rules::specs::Reports::report_outside))]
fn report_outside(stm: &Stm) -> [u8; REPORT_LENGTH]
    ensures { result ≡ report_outside stm.now.control.state (cond (is_state State.FA stm.now.control.state) 3 (cond (is_state State.DE stm.now.control.state) (test_order stm.now.test.stage) 0)) stm.now }
{
    [
        u8::from(stm.control.state),
        order_outside(stm.control.state, stm.test.stage),
        0,
        0,
        0,
        0,
        0,
        0,
        255,
        0,
        0,
        0,
        messages_of(stm.brakes, stm.feedback, stm.test, false),
        0,
        255,
        255,
        255,
        255,
        u8::from(stm.track.stay.area),
    ]
}

// What the report of a state looks at.
fn view_of(stm: &Stm) -> View
    ensures { (result.judged ≡ judged_now stm.now.train stm.now.kept (all_curves stm.now.track)) × (result.vmax ≡ vmax_of stm.now.train stm.now.track) × (result.seen ≡ seen_in stm.now) }
{
    let judged = judge_now(stm.train, stm.kept, all_curves(stm.track));
    let vmax = vmax_of(stm.train, stm.track);
    let seen = seen_with(
        judged,
        vmax,
        stm.train,
        stm.feedback,
        stm.kept,
        stm.brakes.since,
        stm.brakes.roll,
    );
    View { judged, vmax, seen }
}

// The report of a state, given what it looks at.
pub(crate) fn report_with(view: &View, stm: Stm) -> [u8; REPORT_LENGTH]
    requires { (view.now.judged ≡ judged_now stm.train stm.kept (all_curves stm.track)) × (view.now.vmax ≡ vmax_of stm.train stm.track) × (view.now.seen ≡ seen_in stm) }
    ensures { result ≡ report_of stm }
{
    if stm.control.state == State::DA {
        report_in_da(view, &stm)
    } else {
        report_outside(&stm)
    }
}

// The report of a state.
fn report_of(stm: &Stm) -> [u8; REPORT_LENGTH]
    ensures { result ≡ report_of stm.now }
{
    if stm.control.state == State::DA {
        report_with(&view_of(stm), *stm)
    } else {
        report_outside(stm)
    }
}

// The command and its report are kept for a repeat.
#[tactic(auto, unfolding(rules::specs::Commands::remembered))]
pub(crate) fn keep(command: &[u8], stm: &mut Stm)
    ensures { stm.new ≡ remembered command.now stm.old }
{
    stm.last = Last {
        bytes: padded(command),
        report: report_of(stm),
    };
}

// The unit after an accepted command.
pub fn remember(command: &[u8], stm: Stm) -> Stm
    ensures { result ≡ remembered command.now stm }
{
    let mut next = stm;
    keep(command, &mut next);
    next
}
