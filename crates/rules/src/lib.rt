// The rules of the unit (01), for the code to be proved against: its types stand here, with 01's numbers
// of their cases, its rules in specs/, and the members' points over them in specs/ too, proved in proofs/.
// Of what stands here only the conversions and the derived comparisons run.
//
// Speeds v are in cm/s, limits in whole km/h, ground in cm, times in tenths of a second,
// decelerations in mm/s², pressures in kPa.
#![tactic(auto)]

ghost use Rattle.std.specs.Prelude.{◌≡◌};
ghost use Rattle.rules.specs.Numbers.{answer_number, code_number, state_number, order_number};
ghost use Rattle.rules.specs.Refusals.{form_answer};

// ---- answers and codes

// The answers (01, "Answers"; 02, F-3, F-6 and F-7): accepted, again, and the refusals 1 to 18 in their order.
// One enum, as 01 has one list of their numbers.
#[derive(Clone, Copy, PartialEq, Eq)]
pub enum Answer {
    Accepted = 0,
    Again = 100,
    WrongArea = 1,
    NoBytes = 2,
    NoCode = 3,
    WrongLength = 4,
    NotStarted = 5,
    ZeroNumber = 6,
    WrongNumber = 7,
    Failed = 8,
    OutOfRange = 9,
    NotAllowed = 10,
    NoReference = 11,
    NotHeld = 12,
    AllHeld = 13,
    OutsideDE = 14,
    TestRunning = 15,
    NotTaken = 16,
    NoRecordPlace = 17,
    NotSuperseded = 18,
}

impl From<Answer> for u8 {
    ghost from_gives = { λ answer number. number ≡ answer_number answer };

    fn from(answer: Answer) -> u8 {
        answer as u8
    }
}

// Refusals 1 to 4.
impl From<wire::FormError> for Answer {
    ghost from_gives = { λ error answer. answer ≡ form_answer error };

    fn from(error: wire::FormError) -> Answer {
        match error {
            wire::FormError::WrongArea => Answer::WrongArea,
            wire::FormError::NoBytes => Answer::NoBytes,
            wire::FormError::NoCode => Answer::NoCode,
            wire::FormError::WrongLength => Answer::WrongLength,
        }
    }
}

// The commands (01, "Commands"; 02, F-3, F-6 and F-7), in the order of their codes.
#[derive(Clone, Copy, PartialEq, Eq)]
pub enum Code {
    Start = 0x01,
    ChangeState = 0x02,
    Odometer = 0x10,
    NewCurve = 0x20,
    EndCurve = 0x21,
    NewSection = 0x22,
    EndSection = 0x23,
    StopPassed = 0x30,
    Proceed = 0x31,
    BaliseError = 0x32,
    TestBrakes = 0x40,
    AreaEvent = 0x50,
    NewRecord = 0x51,
    SignalPassed = 0x52,
    EndRecord = 0x53,
}

impl From<Code> for u8 {
    ghost from_gives = { λ code number. number ≡ code_number code };

    fn from(code: Code) -> u8 {
        code as u8
    }
}

// What a command tells that orders causes: a stop passed, by the three kinds of 30, or the balise error of 32.
#[derive(Clone, Copy, PartialEq, Eq)]
pub enum Incident {
    AimedStop,
    UnexpectedStop,
    Landslide,
    BaliseError,
}

// ---- the state

#[derive(Clone, Copy, PartialEq, Eq)]
pub enum State {
    DE = 0,
    CS = 1,
    HS = 2,
    DA = 3,
    FA = 4,
}

impl From<State> for u8 {
    ghost from_gives = { λ state number. number ≡ state_number state };

    fn from(state: State) -> u8 {
        state as u8
    }
}

// Whether there has been a start, and the state.
#[derive(Clone, Copy)]
pub struct Control {
    pub started: bool,
    pub state: State,
}

// The train data of a start. `softly` is flag bit 0, `feed` flag bit 1, `full` and `soft` the
// decelerations, `margin` the F margin, `emergency` the overspeed emergency margin, `sufficient` the
// sufficient application, `pressure` P_FULL, `check` T_EBCHK.
#[derive(Clone, Copy)]
pub struct Train {
    pub softly: bool,
    pub feed: pressure::Feed,
    pub speed: u16,
    pub length: u16,
    pub full: u16,
    pub soft: u16,
    pub times: curve::Times,
    pub margin: u8,
    pub emergency: u8,
    pub sufficient: u8,
    pub pressure: u16,
    pub check: u8,
}

// A section, or a place that holds none. `covered` is the ground moved since its end was told.
#[derive(Clone, Copy)]
pub struct Section {
    pub held: bool,
    pub id: u8,
    pub speed: u16,
    pub ending: bool,
    pub covered: u32,
}

// What the track has told: curves, sections, the 40 of an unexpected stop, the stay in an area (02, F-6),
// and the ET records (02, F-7).
#[derive(Clone, Copy)]
pub struct Track {
    pub curves: [curve::Curve; places::PLACES],
    pub sections: [Section; places::PLACES],
    pub forty: bool,
    pub stay: areas::Stay,
    pub records: [records::EtRecord; records::RECORDS],
}

// The causes, in the order of their bits 0 to 11.
#[derive(Clone, Copy)]
pub enum Cause {
    Overspeed,
    EmergencyOverspeed,
    CurveFull,
    CurveSoft,
    CurveEmergency,
    AimedStop,
    UnexpectedStop,
    UnexpectedSpeed,
    Landslide,
    BaliseFault,
    Rolling,
    ServiceFault,
}

// Which causes stand.
#[derive(Clone, Copy)]
pub struct Causes {
    pub overspeed: bool,
    pub excess: bool,
    pub full: bool,
    pub soft: bool,
    pub emergency: bool,
    pub aimed: bool,
    pub unexpected: bool,
    pub speed: bool,
    pub landslide: bool,
    pub balise: bool,
    pub rolling: bool,
    pub service: bool,
}

// How bit 9 is held (02, F-2): no balise error has decided it, or the last one did, at a speed above
// 80 km/h, or at or below it; then with the number of further reports in DA, kept up to 20. Three cases, so no Option.
#[derive(Clone, Copy)]
pub enum Hold {
    Undecided,
    High,
    Low(u8),
}

// What has been noted since the command that ordered bits 5, 6, 8 and 9: a halt, a measured
// deceleration, a halt, the hold.
#[derive(Clone, Copy)]
pub struct Since {
    pub aimed: bool,
    pub unexpected: bool,
    pub landslide: bool,
    pub balise: Hold,
}

// A brake check: no order to check, the count since the order began, or satisfied or judged. Three cases, so no Option.
#[derive(Clone, Copy)]
pub enum Check {
    Idle,
    Counting(u8),
    Done,
}

// What brakes. `service` and `emergency` are the checks of bit 11 and of the emergency order, `roll` the
// ground rolled from standstill with neutral throughout, kept up to 501 (None: ended until the next halt),
// `drift` is DRIFTBROMSFEL, `failed` NÖDBROMSFEL.
#[derive(Clone, Copy)]
pub struct Brakes {
    pub causes: Causes,
    pub since: Since,
    pub service: Check,
    pub emergency: Check,
    pub roll: Option<u16>,
    pub drift: bool,
    pub failed: bool,
}

// The stage of brake test A (02, F-3): none runs; P_INT settles, by a phase of the feedback's rule that
// is the test's own; or it brakes, with the steady pressure and the number of reports since it settled. Three cases, so no Option.
#[derive(Clone, Copy)]
pub enum Stage {
    Idle,
    Settling(pressure::Phase),
    Braking { steady: f32, reports: u8 },
}

// How the last test since the start has ended: none has, it passed, it failed. Three cases, so no Option of a Result.
#[derive(Clone, Copy, PartialEq, Eq)]
pub enum Verdict {
    Pending,
    Passed,
    Failed,
}

// Brake test A: its stage, and beside it the result of the last one that has ended.
#[derive(Clone, Copy)]
pub struct BrakeTest {
    pub stage: Stage,
    pub result: Verdict,
}

// What the last odometer report leaves: its speed and buttons.
#[derive(Clone, Copy)]
pub struct Kept {
    pub speed: u16,
    pub loss: bool,
    pub text: bool,
    pub halka: bool,
}

// The last accepted command, with 0 after its end, and the report that it was given.
#[derive(Clone, Copy)]
pub struct Last {
    pub bytes: [u8; wire::LONGEST],
    pub report: [u8; wire::REPORT_LENGTH],
}

// The unit's state.
#[derive(Clone, Copy)]
pub struct Stm {
    pub control: Control,
    pub train: Train,
    pub track: Track,
    pub brakes: Brakes,
    pub feedback: pressure::Measured,
    pub test: BrakeTest,
    pub kept: Kept,
    pub last: Last,
}

// ---- an odometer report

// The operands of an odometer report: `measured` in mm/s², `external` P_EXT in half kPa.
#[derive(Clone, Copy)]
pub struct Reading {
    pub speed: u16,
    pub moved: u16,
    pub measured: i16,
    pub external: i16,
    pub loss: bool,
    pub text: bool,
    pub halka: bool,
    pub neutral: bool,
}

// What the table of causes looks at: the speed, VMAX and the emergency margin; whether a curve brakes
// from D, E or F on; whether the drop is insufficient; HALKA; the notes; over 500 cm rolled.
#[derive(Clone, Copy)]
pub struct Seen {
    pub speed: u16,
    pub vmax: u16,
    pub margin: u8,
    pub d: bool,
    pub e: bool,
    pub f: bool,
    pub insufficient: bool,
    pub halka: bool,
    pub since: Since,
    pub rolled: bool,
}

// ---- what is shown

// The brake orders.
#[derive(Clone, Copy, PartialEq, Eq)]
pub enum Order {
    Nothing = 0,
    Soft = 1,
    Full = 2,
    Emergency = 3,
}

impl From<Order> for u8 {
    ghost from_gives = { λ order number. number ≡ order_number order };

    fn from(order: Order) -> u8 {
        order as u8
    }
}

// A place with its curve and what the curve says: one that may be shown. `et` is whether it is an ET record's.
#[derive(Clone, Copy)]
pub struct Candidate {
    pub et: bool,
    pub curve: curve::Curve,
    pub judged: curve::Judged,
}

// ---- the call

// The outcome of a call: the answer and the next state.
#[derive(Clone, Copy)]
pub struct Outcome {
    pub answer: Answer,
    pub stm: Stm,
}
