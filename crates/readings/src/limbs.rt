//! Natural numbers in limbs of 64 bits, the lowest limb first.
ghost use Rattle.std.specs.Prelude.{◌≡◌, ◌+◌, ◌*◌, ◌/◌, ◌%◌, ◌^◌, ◌<◌, ◌≤◌, length, take, not, ◌==◌, nat_lt, slice_index, MatchOption};
ghost use Rattle.std.specs.Float.Ieee.{size};
ghost use Rattle.std.specs.Int.{from_bool};
ghost use Rattle.std.specs.List.{list_any};
ghost use Rattle.readings.specs.Limbs.{natural, AreLimbs};
ghost use Rattle.readings.specs.declared.limbs.TheConstants.{LIMBS};

/// One more than the largest limb.
const BASE: u128 = 0x1_0000_0000_0000_0000;

/// How many limbs a number has.
const LIMBS: usize = 33;

/// A natural number below 2^2112. It has no `impl Model`, so that what holds it is copied by value; clauses speak of its limbs.
#[derive(Clone, Copy)]
pub(crate) struct Natural {
    limbs: [u64; LIMBS],
    ghost fit: { AreLimbs LIMBS limbs },
}

impl Natural {
    /// The number 0.
    pub(crate) fn zero() -> Natural
        ensures value { natural result.limbs ≡ 0 }
    {
        Natural { limbs: [0; LIMBS] }
    }

    /// Adds significand × 2^shift, which has room.
    pub(crate) fn add_shifted(&mut self, significand: u64, shift: u32)
        requires reach { shift < 64 * LIMBS }
        requires room { natural self.old.limbs + significand * 2 ^ shift < 2 ^ (64 * LIMBS) }
        ensures value { natural self.new.limbs ≡ natural self.old.limbs + significand * 2 ^ shift }
    {
        let at = (shift / 64) as usize;
        let _ = add(&mut self.limbs[at..], (significand as u128) << (shift % 64));
    }

    /// The number less another, or none where the other is larger.
    pub(crate) fn checked_sub(&self, other: &Natural) -> Option<Natural>
        ensures value { MatchOption result (natural self.now.limbs < natural other.now.limbs) (λ rest. natural rest.limbs + natural other.now.limbs ≡ natural self.now.limbs) }
    {
        let mut rest = self.limbs;
        if subtract(&mut rest, &other.limbs) {
            return None;
        }
        Some(Natural { limbs: rest })
    }

    /// How many bits the number has: none for zero.
    pub(crate) fn bit_length(&self) -> u32
        ensures answer { result ≡ size (natural self.now.limbs) }
        ensures limits { result ≤ 64 * LIMBS }
    {
        match self.limbs.iter().rposition(|limb| *limb != 0) {
            Some(top) => 64 * top as u32 + (64 - self.limbs[top].leading_zeros()),
            None => 0,
        }
    }

    /// The 64 bits from the bit `cut` up.
    pub(crate) fn bits_from(&self, cut: u32) -> u64
        ensures answer { result ≡ natural self.now.limbs / 2 ^ cut % 2 ^ 64 }
    {
        let at = (cut / 64) as usize;
        let pair = limb(&self.limbs, at + 1) as u128 * BASE + limb(&self.limbs, at) as u128;
        ((pair >> (cut % 64)) % BASE) as u64
    }

    /// Whether anything but zero lies below the bit `cut`.
    pub(crate) fn any_below(&self, cut: u32) -> bool
        ensures answer { result ≡ nat_lt 0 (natural self.now.limbs % 2 ^ cut) }
    {
        let at = (cut / 64) as usize;
        any_set(&self.limbs, at) || limb(&self.limbs, at) % (1 << (cut % 64)) != 0
    }
}

/// The limb at a place, or 0 past the last one.
fn limb(limbs: &[u64], at: usize) -> u64
    ensures answer { result ≡ slice_index limbs.now at }
{
    limbs.get(at).copied().unwrap_or(0)
}

/// Whether a limb below a place is not zero.
fn any_set(limbs: &[u64], at: usize) -> bool
    ensures answer { result ≡ list_any (λ limb. not (limb == 0)) (take at limbs.now) }
{
    limbs.iter().take(at).any(|limb| *limb != 0)
}

/// Adds a part. The answer is the carry out of the last limb.
fn add(limbs: &mut [u64], part: u128) -> u128
    requires { part < 2 ^ 127 }
    ensures value { natural limbs.new + result * 2 ^ (64 * length limbs.old) ≡ natural limbs.old + part }
    ensures limbs { AreLimbs (length limbs.old) limbs.new }
{
    let mut carry = part;
    for limb in limbs.iter_mut() {
        if carry == 0 {
            return 0;
        }
        let sum = *limb as u128 + carry;
        *limb = (sum % BASE) as u64;
        carry = sum / BASE;
    }
    carry
}

/// Takes `other` away. The answer is whether it borrows from beyond the last limb.
fn subtract(limbs: &mut [u64], other: &[u64]) -> bool
    requires { length limbs.old ≡ length other.now }
    ensures value { natural limbs.new + natural other.now ≡ natural limbs.old + from_bool result * 2 ^ (64 * length limbs.old) }
    ensures limbs { AreLimbs (length limbs.old) limbs.new }
    ensures limits { natural limbs.new < 2 ^ (64 * length limbs.old) }
{
    let mut borrow = false;
    // an index for the limbs that are written: what is written through `iter_mut().zip` is not known to the invariant
    for (i, taken) in other.iter().enumerate() {
        (limbs[i], borrow) = limbs[i].borrowing_sub(*taken, borrow);
    }
    borrow
}
