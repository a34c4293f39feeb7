// The fields of a record. It has 25 bytes, numbers high byte first:
//
//    0  what is done: 0 the record's curve is judged alone, 1 it is put into a place, 2 all places
//       are moved, judged and noted, 3 it is put into a place that then counts as holding none
//    1  the place, below 16
//    2  full and soft deceleration (2 each), HALKA (0 off), T_B, gC, gP, gBf, F margin
//   12  v (2)
//   14  kind (0 speed target, else Expect Stop), distance (4), target or release speed (2),
//       gradient (signed), past in B (0 not)
//   23  the ground moved before the judging (2)
use curve::{Braking, Curve, Kind, Times};

pub fn place_of(r: &[u8]) -> usize {
    wire::byte_at(r, 1) as usize
}

pub fn speed_of(r: &[u8]) -> u16 {
    wire::be16(r, 12)
}

pub fn moved_of(r: &[u8]) -> u16 {
    wire::be16(r, 23)
}

// A record has no extra.
fn times_of(r: &[u8]) -> Times {
    Times {
        brake: wire::byte_at(r, 7),
        c: wire::byte_at(r, 8),
        permitted: wire::byte_at(r, 9),
        bf: wire::byte_at(r, 10),
        extra: 0,
    }
}

pub fn braking_of(r: &[u8]) -> Braking {
    let halka = wire::byte_at(r, 6) != 0;
    let leads = curve::leads_of(times_of(r));
    Braking {
        level: curve::level_of(wire::be16(r, 2), wire::be16(r, 4), halka),
        leads,
        margin: wire::byte_at(r, 11),
    }
}

fn kind_of(byte: u8) -> Kind {
    if byte == 0 {
        Kind::SpeedTarget
    } else {
        Kind::ExpectStop
    }
}

pub fn curve_of(r: &[u8], held: bool) -> Curve {
    let kind = kind_of(wire::byte_at(r, 14));
    let gradient = curve::gradient_from(wire::signed8(wire::byte_at(r, 21)));
    Curve {
        held,
        id: wire::byte_at(r, 1),
        kind,
        distance: wire::be32(r, 15),
        speed: wire::be16(r, 19),
        gradient,
        past: wire::byte_at(r, 22) != 0,
    }
}
