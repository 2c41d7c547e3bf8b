//! Whole numbers (IEEE 1364-2005, clause 4.1.3).

ghost use Rattle.std.specs.Prelude.{◌≡◌, ◌≤◌, ◌-◌, ◌^◌};
ghost use Rattle.vl_base.specs.Value as v;
ghost use Rattle.vl_design.specs.Value.{lowest_bit};
ghost use Rattle.vl_bits.specs.Constants.{whole_of, near};

use vl_base::bits::Bits;
use vl_design::design::LowestBit;

/// A whole number by its size and its sign.
#[derive(Clone, Copy)]
pub struct Whole {
    /// It is below 0, or 0.
    pub negative: bool,
    /// Its size.
    pub size: u128,
}

/// The whole number that a value stands for: in two's complement where it is signed.
#[tactic(auto, using(crate::proofs::Places::halves))]
pub fn whole_number(bits: Bits, signed: bool) -> Whole
    ensures { whole_of result ≡ v.reading signed bits.width bits.value }
{
    let half = 1 << (bits.width - 1);
    if signed && bits.value >= half {
        Whole {
            negative: true,
            size: half - (bits.value - half),
        }
    } else {
        Whole {
            negative: false,
            size: bits.value,
        }
    }
}

/// A place, or the nearest one beside 128 bits.
#[tactic(auto, using(crate::proofs::Places::places))]
fn near(place: i128) -> i64
    ensures { result ≡ near place }
{
    if place < -128 {
        -128
    } else if place > 128 {
        128
    } else {
        place as i64
    }
}

/// The lowest bit that an index with this whole number names, or the nearest place beside 128 bits.
#[tactic(auto, using(crate::proofs::Places::places))]
pub fn lowest_place(from: LowestBit, whole: Whole) -> i64
    ensures { result ≡ near (lowest_bit from (whole_of whole)) }
{
    let size = whole.size.min(36893488147419103232) as i128;
    if whole.negative == from.taken {
        near(i128::from(from.constant) + size)
    } else {
        near(i128::from(from.constant) - size)
    }
}
