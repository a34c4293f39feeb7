// The operands of the commands and their ranges. Each is read at its place after the code and the number.
ghost use Rattle.std.specs.Prelude.{◌≡◌};
ghost use Rattle.rules.specs.Operands.{bit_of, within, feed_of, extra_of, train_of, train_in_range, start_in_range, reading_of, odometer_in_range, kind_of, speed_in_range, gradient_of, curve_from, curve_of, curve_in_range, new_curve_in_range, section_of, section_in_range, event_in, event_speed, event_speed_in_range, event_in_range, record_of, new_record_in_range, signal_in, route_in, signal_in_range, in_range};
ghost use Rattle.records.specs.Numbers.{category_of, signal_of, route_of};

use areas::{Event, event_of};
use curve::{Curve, Gradient, Kind, Times};
use pressure::Feed;
use records::{Category, Condition, EtRecord, Route, Signal};
use rules::{Code, Reading, Section, Train};
use wire::{be16, byte_at};

// Whether bit n of a byte is set.
fn bit_of(n: u8, byte: u8) -> bool
    ensures { result ≡ bit_of n byte }
{
    if n < 8 { (byte >> n) % 2 == 1 } else { false }
}

// Whether x is in a range, both ends included.
fn within(least: u16, most: u16, x: u16) -> bool
    ensures { result ≡ within least most x }
{
    (least..=most).contains(&x)
}

// ---- 01 start

// `From<bool>` would not say which of the two is which.
fn feed_of(cylinder: bool) -> Feed
    ensures { result ≡ feed_of cylinder }
{
    if cylinder { Feed::Cylinder } else { Feed::Pipe }
}

// What the leads add to T_B where no approved ETCS test exists.
fn extra_of(untested: bool) -> u8
    ensures { result ≡ extra_of untested }
{
    if untested { 50 } else { 0 }
}

pub fn train_of(s: &[u8]) -> Train
    ensures { result ≡ train_of s.now }
{
    let flags = byte_at(s, 0);
    let times = Times {
        brake: byte_at(s, 9),
        c: byte_at(s, 10),
        permitted: byte_at(s, 11),
        bf: byte_at(s, 12),
        extra: extra_of(bit_of(2, flags)),
    };
    Train {
        softly: bit_of(0, flags),
        feed: feed_of(bit_of(1, flags)),
        speed: be16(s, 1),
        length: be16(s, 3),
        full: be16(s, 5),
        soft: be16(s, 7),
        times,
        margin: byte_at(s, 13),
        emergency: byte_at(s, 14),
        sufficient: byte_at(s, 15),
        pressure: be16(s, 16),
        check: byte_at(s, 18),
    }
}

fn train_in_range(train: Train) -> bool
    ensures { result ≡ train_in_range train }
{
    within(10, 300, train.speed)
        & within(10, 1000, train.length)
        & within(400, 2000, train.full)
        & within(400, train.full, train.soft)
        & within(1, 100, u16::from(train.times.brake))
        & (train.times.c <= 200)
        & (train.times.permitted <= 200)
        & (train.times.bf <= 200)
        & within(1, 30, u16::from(train.margin))
        & within(11, 30, u16::from(train.emergency))
        & within(30, 150, u16::from(train.sufficient))
        & within(150, 600, train.pressure)
        & within(1, 100, u16::from(train.check))
}

fn start_in_range(s: &[u8]) -> bool
    ensures { result ≡ start_in_range s.now }
{
    (byte_at(s, 0) <= 7) & train_in_range(train_of(s))
}

// ---- 10 odometer

pub fn reading_of(s: &[u8]) -> Reading
    ensures { result ≡ reading_of s.now }
{
    let buttons = byte_at(s, 8);
    Reading {
        speed: be16(s, 0),
        moved: be16(s, 2),
        measured: wire::signed16(be16(s, 4)),
        external: wire::signed16(be16(s, 6)),
        loss: bit_of(0, buttons),
        text: bit_of(1, buttons),
        halka: bit_of(2, buttons),
        neutral: bit_of(3, buttons),
    }
}

fn odometer_in_range(s: &[u8]) -> bool
    ensures { result ≡ odometer_in_range s.now }
{
    (be16(s, 0) <= 10000) & (be16(s, 2) <= 1200) & (byte_at(s, 8) <= 15)
}

// ---- 20 curve

// The kind of a byte 0 or 1: a range below refuses the others.
fn kind_of(byte: u8) -> Kind
    ensures { result ≡ kind_of byte }
{
    if byte == 0 {
        Kind::SpeedTarget
    } else {
        Kind::ExpectStop
    }
}

fn speed_in_range(kind: Kind, speed: u16) -> bool
    ensures { result ≡ speed_in_range kind speed }
{
    match kind {
        Kind::SpeedTarget => within(10, 300, speed),
        Kind::ExpectStop => matches!(speed, 10 | 40),
    }
}

fn gradient_of(byte: u8) -> Gradient
    ensures { result ≡ gradient_of byte }
{
    curve::gradient_from(wire::signed8(byte))
}

// The curve of a kind, its distance in cm.
fn curve_from(kind: Kind, s: &[u8]) -> Curve
    ensures { result ≡ curve_from kind s.now }
{
    Curve {
        held: true,
        id: byte_at(s, 0),
        kind,
        distance: 100 * u32::from(be16(s, 2)),
        speed: be16(s, 4),
        gradient: gradient_of(byte_at(s, 6)),
        past: false,
    }
}

pub fn curve_of(s: &[u8]) -> Curve
    ensures { result ≡ curve_of s.now }
{
    curve_from(kind_of(byte_at(s, 1)), s)
}

fn curve_in_range(curve: Curve) -> bool
    ensures { result ≡ curve_in_range curve }
{
    (curve.id <= 254)
        & (curve.distance <= 1000000)
        & speed_in_range(curve.kind, curve.speed)
        & (curve.gradient.size <= 30)
}

fn new_curve_in_range(s: &[u8]) -> bool
    ensures { result ≡ new_curve_in_range s.now }
{
    (byte_at(s, 1) <= 1) & curve_in_range(curve_of(s))
}

// ---- 22 section

pub fn section_of(s: &[u8]) -> Section
    ensures { result ≡ section_of s.now }
{
    Section {
        held: true,
        id: byte_at(s, 0),
        speed: be16(s, 1),
        ending: false,
        covered: 0,
    }
}

fn section_in_range(section: Section) -> bool
    ensures { result ≡ section_in_range section }
{
    (section.id <= 254) & within(10, 300, section.speed)
}

// ---- 50 area event

pub fn event_in(s: &[u8]) -> Event
    ensures { result ≡ event_in s.now }
{
    event_of(byte_at(s, 0))
}

pub fn event_speed(s: &[u8]) -> u16
    ensures { result ≡ event_speed s.now }
{
    be16(s, 1)
}

// Only a GMD has a speed.
fn event_speed_in_range(event: Event, speed: u16) -> bool
    ensures { result ≡ event_speed_in_range event speed }
{
    if event == Event::GMD {
        within(10, 300, speed)
    } else {
        speed == 0
    }
}

fn event_in_range(s: &[u8]) -> bool
    ensures { result ≡ event_in_range s.now }
{
    (byte_at(s, 0) <= 6) & event_speed_in_range(event_in(s), event_speed(s))
}

// ---- 51 ET record, 52 signal passed

// The category of a byte from 0 to 3: a range below refuses the others.
fn category_of(byte: u8) -> Category
    ensures { result ≡ category_of byte }
{
    match byte {
        0 => Category::RF,
        1 => Category::RH,
        2 => Category::GF,
        _ => Category::GH,
    }
}

// A new record, undecided.
pub fn record_of(s: &[u8]) -> EtRecord
    ensures { result ≡ record_of s.now }
{
    EtRecord {
        curve: curve_from(Kind::SpeedTarget, s),
        category: category_of(byte_at(s, 1)),
        condition: Condition::Undecided(0),
    }
}

fn new_record_in_range(s: &[u8]) -> bool
    ensures { result ≡ new_record_in_range s.now }
{
    (byte_at(s, 1) <= 3) & curve_in_range(record_of(s).curve)
}

// The signal of a byte 0 or 1: a range below refuses the others.
fn signal_of(byte: u8) -> Signal
    ensures { result ≡ signal_of byte }
{
    if byte == 0 {
        Signal::Main
    } else {
        Signal::Distant
    }
}

pub fn signal_in(s: &[u8]) -> Signal
    ensures { result ≡ signal_in s.now }
{
    signal_of(byte_at(s, 0))
}

// The route of a byte 0 or 1: a range below refuses the others.
fn route_of(byte: u8) -> Route
    ensures { result ≡ route_of byte }
{
    if byte == 0 {
        Route::Straight
    } else {
        Route::Diverging
    }
}

pub fn route_in(s: &[u8]) -> Route
    ensures { result ≡ route_in s.now }
{
    route_of(byte_at(s, 1))
}

fn signal_in_range(s: &[u8]) -> bool
    ensures { result ≡ signal_in_range s.now }
{
    (byte_at(s, 0) <= 1) & (byte_at(s, 1) <= 1)
}

// ---- all commands

// Whether every operand is in its range.
pub fn in_range(code: Code, s: &[u8]) -> bool
    ensures { result ≡ in_range code s.now }
{
    match code {
        Code::Start => start_in_range(s),
        Code::ChangeState => byte_at(s, 0) <= 4,
        Code::Odometer => odometer_in_range(s),
        Code::NewCurve => new_curve_in_range(s),
        Code::EndCurve => byte_at(s, 0) <= 254,
        Code::NewSection => section_in_range(section_of(s)),
        Code::EndSection => byte_at(s, 0) <= 254,
        Code::StopPassed => byte_at(s, 0) <= 2,
        Code::Proceed => true,
        Code::BaliseError => true,
        Code::TestBrakes => true,
        Code::AreaEvent => event_in_range(s),
        Code::NewRecord => new_record_in_range(s),
        Code::SignalPassed => signal_in_range(s),
        Code::EndRecord => byte_at(s, 0) <= 254,
    }
}
