// An odometer report: in DA it moves, measures, adds causes, then releases; in HS it moves and measures; in CS it
// only measures; in DE it measures, and takes a brake test on.
ghost use Rattle.std.specs.Prelude.{◌≡◌, cond};
ghost use Rattle.pressure.specs.Report.{reported_to};
ghost use Rattle.rules.specs.declared.State.{State};
ghost use Rattle.rules.specs.Releases.{released_brakes};
ghost use Rattle.rules.specs.Odometer.{moves, kept_of, measures, notes, adds, releases, is_fresh, tests, reported_in};
ghost use Rattle.rules.specs.Commands.{remembered};

use crate::report::{View, keep, report_with};
use brake_test::{extra_left, tested_at};
use brakes::check::is_drop;
use brakes::release::{added_brakes, noted_brakes, released_brakes};
use brakes::seeing::{rolled_in, seen_with};
use pressure::Measured;
use refusals::padded;
use rules::{Brakes, Control, Kept, Last, Reading, Seen, State, Stm, Train};
use track::whole::{all_curves, judge_now, moved_track, note_track, vmax_of};

// ---- moves and measures

// In HS and DA a report moves first.
#[tactic(auto, unfolding(rules::specs::Odometer::moves))]
fn moves(r: Reading, stm: &mut Stm)
    ensures { stm.new ≡ moves r stm.old }
{
    stm.track = moved_track(stm.train.length, r.moved, stm.track);
}

fn kept_of(r: Reading) -> Kept
    ensures { result ≡ kept_of r }
{
    Kept {
        speed: r.speed,
        loss: r.loss,
        text: r.text,
        halka: r.halka,
    }
}

// The feedback after a report.
fn feedback_after(train: Train, before: Measured, r: Reading) -> Measured
    ensures { result ≡ reported_to before train.feed train.pressure r.external }
{
    pressure::report(
        before.phase,
        before.pressures,
        train.feed,
        train.pressure,
        r.external,
    )
}

// Measures, and keeps the figures and buttons.
#[tactic(auto, unfolding(rules::specs::Odometer::measures))]
fn measures(r: Reading, stm: &mut Stm)
    ensures { stm.new ≡ measures r stm.old }
{
    stm.feedback = feedback_after(stm.train, stm.feedback, r);
    stm.kept = kept_of(r);
}

// ---- in DE

// In DE, once it has measured: takes a brake test on; once it has passed, the extra goes.
fn tests(r: Reading, stm: &mut Stm)
    ensures { stm.new ≡ tests r stm.old }
{
    let test = tested_at(stm.train, stm.feedback, r, stm.test);
    stm.train.times.extra = extra_left(test.result, stm.train.times.extra);
    stm.test = test;
}

// ---- in DA

fn is_fresh(before: bool, pressed: bool) -> bool
    ensures { result ≡ is_fresh before pressed }
{
    pressed & !before
}

// Releases, unless the check of an emergency order has failed.
fn released(s: Seen, loss: bool, text: bool, b: Brakes) -> Brakes
    ensures { result ≡ cond b.failed b (released_brakes s loss text b) }
{
    if b.failed {
        b
    } else {
        released_brakes(s, loss, text, b)
    }
}

// That failure leads to FA.
fn state_after(failed: bool, state: State) -> State
    ensures { result ≡ cond failed State.FA state }
{
    if failed { State::FA } else { state }
}

// What comes once the train has moved. What the curves and records say is judged once, and serves causes, release and report.
fn supervise(command: &[u8], r: Reading, stm: Stm) -> Stm
    ensures { result ≡ remembered command.now (releases (is_fresh stm.kept.loss r.loss) (is_fresh stm.kept.text r.text) (adds (notes r (measures r stm)))) }
{
    let train = stm.train;
    let feedback = feedback_after(train, stm.feedback, r);
    let kept = kept_of(r);
    let judged = judge_now(train, kept, all_curves(stm.track));
    let vmax = vmax_of(train, stm.track);
    let noted = noted_brakes(train, r, stm.brakes);
    let seen = seen_with(judged, vmax, train, feedback, kept, noted.since, noted.roll);
    let added = added_brakes(train, is_drop(feedback), seen, noted);
    let left = released(
        seen,
        is_fresh(stm.kept.loss, r.loss),
        is_fresh(stm.kept.text, r.text),
        added,
    );
    let mut next = Stm {
        control: Control {
            state: state_after(added.failed, stm.control.state),
            ..stm.control
        },
        track: note_track(stm.track, judged),
        brakes: left,
        feedback,
        kept,
        ..stm
    };
    let view = View {
        judged,
        vmax,
        seen: rolled_in(seen, left.roll),
    };
    next.last = Last {
        bytes: padded(command),
        report: report_with(&view, next),
    };
    next
}

// ---- by the state

// In FA no report is taken (refusal 8): its arm leaves the state as the definition does.
pub fn take_reading(command: &[u8], r: Reading, stm: Stm) -> Stm
    ensures { result ≡ remembered command.now (reported_in stm.control.state r stm) }
{
    let mut next = stm;
    match stm.control.state {
        State::DE => {
            measures(r, &mut next);
            tests(r, &mut next);
        }
        State::CS => measures(r, &mut next),
        State::HS => {
            moves(r, &mut next);
            measures(r, &mut next);
        }
        State::DA => {
            moves(r, &mut next);
            return supervise(command, r, next);
        }
        State::FA => (),
    }
    keep(command, &mut next);
    next
}
