// Brake test A (02, F-3; 000, 5.6.4.5): its start and its end, a report in DE while it runs, and the extra in the
// leads until one has passed. P_INT settles by the feedback's own rule, `pressure::report`.
//
// No public function has a `requires`: each is defined at every value of its parameters.
#![tactic(auto)]

ghost use Rattle.std.specs.Prelude.{◌≡◌};
ghost use Rattle.rules.specs.BrakeTest.{fresh_test, is_running, is_test_braking, has_passed, has_failed, begun_test, ended_test, left_test, is_unfit, phase_on, stage_of, has_dropped, braked_on, gone_on, tested_at, extra_left};

use pressure::{Measured, Phase, Pressures};
use rules::{BrakeTest, Reading, Stage, Train, Verdict};

// None runs, and none has ended.
pub fn fresh_test() -> BrakeTest
    ensures { result ≡ fresh_test }
{
    BrakeTest {
        stage: Stage::Idle,
        result: Verdict::Pending,
    }
}

pub fn is_running(stage: Stage) -> bool
    ensures { result ≡ is_running stage }
{
    !matches!(stage, Stage::Idle)
}

pub fn is_test_braking(stage: Stage) -> bool
    ensures { result ≡ is_test_braking stage }
{
    matches!(stage, Stage::Braking { .. })
}

pub fn has_passed(res: Verdict) -> bool
    ensures { result ≡ has_passed res }
{
    res == Verdict::Passed
}

pub fn has_failed(res: Verdict) -> bool
    ensures { result ≡ has_failed res }
{
    res == Verdict::Failed
}

// ---- its start and its end

// The settling begins afresh; the last result stands.
pub fn begun_test(test: BrakeTest) -> BrakeTest
    ensures { result ≡ begun_test test }
{
    BrakeTest {
        stage: Stage::Settling(Phase::Waiting),
        ..test
    }
}

fn ended_test(verdict: Verdict) -> BrakeTest
    ensures { result ≡ ended_test verdict }
{
    BrakeTest {
        stage: Stage::Idle,
        result: verdict,
    }
}

// The test once DE is left: one that runs has failed.
pub fn left_test(test: BrakeTest) -> BrakeTest
    ensures { result ≡ left_test test }
{
    if is_running(test.stage) {
        ended_test(Verdict::Failed)
    } else {
        test
    }
}

// ---- a report in DE

// Whether a report fails a test at once; `feedback` is what the report leaves.
fn is_unfit(feedback: Measured, r: Reading) -> bool
    ensures { result ≡ is_unfit feedback r }
{
    feedback.fault | (0 < r.speed)
}

// The test's own phase after a report. While it settles there is no reference.
fn phase_on(train: Train, external: i16, phase: Phase) -> Phase
    ensures { result ≡ phase_on train external phase }
{
    let fresh = pressure::fresh();
    pressure::report(phase, fresh.pressures, train.feed, train.pressure, external).phase
}

// The stage with this phase: once P_INT has settled, the test brakes.
fn stage_of(phase: Phase) -> Stage
    ensures { result ≡ stage_of phase }
{
    match phase {
        Phase::Set { reference, .. } => Stage::Braking {
            steady: reference,
            reports: 0,
        },
        Phase::Waiting | Phase::Settling { .. } => Stage::Settling(phase),
    }
}

// A drop of 60 kPa or more from the steady pressure.
fn has_dropped(steady: f32, pressure: f32) -> bool
    ensures { result ≡ has_dropped steady pressure }
{
    let drop = pressure::drop_of(Pressures {
        pressure,
        reference: steady,
    });
    60.0 <= drop
}

// A test that brakes, after one more report: it passes at a drop, and fails at the limit.
fn braked_on(limit: u8, dropped: bool, steady: f32, reports: u8, res: Verdict) -> BrakeTest
    ensures { result ≡ braked_on limit dropped steady reports res }
{
    if dropped {
        return ended_test(Verdict::Passed);
    }
    let next = reports as u16 + 1;
    if limit as u16 <= next {
        return ended_test(Verdict::Failed);
    }
    BrakeTest {
        stage: Stage::Braking {
            steady,
            reports: next as u8,
        },
        result: res,
    }
}

// After a report that does not fail it at once.
fn gone_on(train: Train, feedback: Measured, external: i16, test: BrakeTest) -> BrakeTest
    ensures { result ≡ gone_on train feedback external test.result test.stage }
{
    match test.stage {
        Stage::Idle => test,
        Stage::Settling(phase) => BrakeTest {
            stage: stage_of(phase_on(train, external, phase)),
            ..test
        },
        Stage::Braking { steady, reports } => {
            let dropped = has_dropped(steady, feedback.pressures.pressure);
            braked_on(train.times.brake, dropped, steady, reports, test.result)
        }
    }
}

// The test after a report in DE; `feedback` is what the report leaves.
pub fn tested_at(train: Train, feedback: Measured, r: Reading, test: BrakeTest) -> BrakeTest
    ensures { result ≡ tested_at train feedback r test }
{
    if is_running(test.stage) & is_unfit(feedback, r) {
        return ended_test(Verdict::Failed);
    }
    gone_on(train, feedback, r.external, test)
}

// What is left of the extra in the leads: none once a test has passed.
pub fn extra_left(res: Verdict, extra: u8) -> u8
    ensures { result ≡ extra_left res extra }
{
    if has_passed(res) { 0 } else { extra }
}
