// From P_EXT to P_INT.
ghost use Rattle.std.specs.Prelude.{◌≡◌};
ghost use Rattle.pressure.specs.Convert.{halved_of, is_low, sensor_fault, limited_of, counted_of, cylinder_of, pressure_of};

use crate::Feed;

// P_EXT in kPa.
pub fn halved(external: i16) -> f32
    ensures { result ≡ halved_of external }
{
    external as f32 / 2.0
}

// Whether P_EXT is below -50.
fn is_low(external: f32) -> bool
    ensures { result ≡ is_low external }
{
    external < -50.0
}

// TRYCKGIVARFEL.
pub fn sensor_fault(external: f32) -> bool
    ensures { result ≡ sensor_fault external }
{
    is_low(external) | (external > 955.0)
}

// A pressure limited to 0 to 550. A NaN and -0 give 0, which neither `clamp` nor `max` promises.
fn limited(pressure: f32) -> f32
    ensures { result ≡ limited_of pressure }
{
    if pressure > 0.0 {
        if pressure < 550.0 { pressure } else { 550.0 }
    } else {
        0.0
    }
}

// The P_EXT that counts on a cylinder.
fn counted(external: f32) -> f32
    ensures { result ≡ counted_of external }
{
    if external < 0.0 {
        return 0.0;
    }
    if external > 955.0 {
        return 0.0;
    }
    external
}

// P_INT of a cylinder: product, quotient and difference, each rounded once.
fn cylinder(full: u16, external: f32) -> f32
    ensures { result ≡ cylinder_of full external }
{
    let braked = 150.0 * counted(external) / (full as f32);
    limited(500.0 - braked)
}

// P_INT, given the reference (0 while there is none).
pub fn pressure_of(feed: Feed, full: u16, external: f32, reference: f32) -> f32
    ensures { result ≡ pressure_of feed full external reference }
{
    if is_low(external) {
        return reference;
    }
    match feed {
        Feed::Pipe => limited(external),
        Feed::Cylinder => cylinder(full, external),
    }
}
