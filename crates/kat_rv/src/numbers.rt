//! The numbers that the fields of an instruction hold: four kinds of field, by sign, and one type
//! for each width.

ghost use Rattle.std.specs.Prelude.{◌≡◌, ◌+◌, ◌<◌, ◌≤◌};
ghost use Rattle.kat_rv.specs.Numbers.{IsBelow, IsEven, IsSigned, natural_of, signed_of};
ghost use Rattle.kat_rv.specs.Numbers.{unsigned_of};

use std::marker::Model;

/// The number of a register, 0 to 31.
pub type Register = Number<32>;

/// The number of a CSR, 0 to 4,095.
pub type Csr = Number<4096>;

/// An immediate, -2,048 to 2,047.
pub type Immediate = Signed<2048>;

/// The offset of a branch, -4,096 to 4,094 and even.
pub type BranchOffset = Even<4096>;

/// The offset of a jump, -1,048,576 to 1,048,574 and even.
pub type JumpOffset = Even<1_048_576>;

/// The upper 20 bits of a word, 0 to 1,048,575.
pub type Upper = Unsigned<1_048_576>;

/// The amount of a shift, 0 to 31.
pub type Amount = Unsigned<32>;

/// The number of a thing, below the bound.
#[derive(Debug, Drop)]
pub struct Number<const BOUND: u32> {
    number: u32,
}

impl<const BOUND: u32> Model for Number<BOUND> {
    ghost use Rattle.std.specs.Prelude.{ℕ, ◌<◌};

    ghost Value = { ℕ };

    ghost view = { λ f. f.number };

    ghost invariant = { λ f. f.number < BOUND };
}

impl<const BOUND: u32> Number<BOUND> {
    /// The field that holds this number.
    pub fn new(number: u32) -> Number<BOUND>
        requires { number < BOUND }
        ensures { result ≡ number }
    {
        Number { number }
    }

    /// The number.
    pub fn number(&self) -> u32
        ensures number { result ≡ self.now }
        ensures held { result < BOUND }
    {
        self.number
    }
}

/// An immediate without a sign, below the bound.
#[derive(Debug, Drop)]
pub struct Unsigned<const BOUND: u32> {
    number: i32,
}

impl<const BOUND: u32> Model for Unsigned<BOUND> {
    ghost use Rattle.std.specs.Prelude.{ℤ};
    ghost use Rattle.kat_rv.specs.Numbers.{IsBelow};

    ghost Value = { ℤ };

    ghost view = { λ f. f.number };

    ghost invariant = { λ f. IsBelow BOUND f.number };
}

impl<const BOUND: u32> Unsigned<BOUND> {
    /// The field that holds this number.
    pub fn new(number: i32) -> Unsigned<BOUND>
        requires { IsBelow BOUND number }
        ensures { result ≡ number }
    {
        Unsigned { number }
    }

    /// The number.
    pub fn number(&self) -> i32
        ensures number { result ≡ self.now }
        ensures held { IsBelow BOUND result }
    {
        self.number
    }

    /// The number as its field has it.
    pub(crate) fn bits(&self) -> u32
        ensures bits { result ≡ natural_of self.now }
        ensures held { IsBelow BOUND self.now }
    {
        self.number as u32
    }
}

/// An immediate with a sign, from the half below 0 to below the half.
#[derive(Debug, Drop)]
pub struct Signed<const HALF: u32> {
    number: i32,
}

impl<const HALF: u32> Model for Signed<HALF> {
    ghost use Rattle.std.specs.Prelude.{ℤ};
    ghost use Rattle.kat_rv.specs.Numbers.{IsSigned};

    ghost Value = { ℤ };

    ghost view = { λ f. f.number };

    ghost invariant = { λ f. IsSigned HALF f.number };
}

impl<const HALF: u32> Signed<HALF> {
    /// The field that holds this number.
    pub fn new(number: i32) -> Signed<HALF>
        requires { IsSigned HALF number }
        ensures { result ≡ number }
    {
        Signed { number }
    }

    /// The number.
    pub fn number(&self) -> i32
        ensures number { result ≡ self.now }
        ensures held { IsSigned HALF result }
    {
        self.number
    }

    /// The number as its field has it, in two's complement.
    pub(crate) fn bits(&self) -> u32
        requires { HALF ≤ 1048576 }
        ensures bits { result ≡ unsigned_of HALF self.now }
        ensures held { IsSigned HALF self.now }
    {
        field_of(HALF, self.number)
    }
}

/// An even offset with a sign, from the half below 0 to below the half.
#[derive(Debug, Drop)]
pub struct Even<const HALF: u32> {
    number: i32,
}

impl<const HALF: u32> Model for Even<HALF> {
    ghost use Rattle.std.specs.Prelude.{ℤ};
    ghost use Rattle.kat_rv.specs.Numbers.{IsEven};

    ghost Value = { ℤ };

    ghost view = { λ f. f.number };

    ghost invariant = { λ f. IsEven HALF f.number };
}

impl<const HALF: u32> Even<HALF> {
    /// The field that holds this number.
    pub fn new(number: i32) -> Even<HALF>
        requires { IsEven HALF number }
        ensures { result ≡ number }
    {
        Even { number }
    }

    /// The number.
    pub fn number(&self) -> i32
        ensures number { result ≡ self.now }
        ensures held { IsEven HALF result }
    {
        self.number
    }

    /// The number as its field has it, in two's complement.
    pub(crate) fn bits(&self) -> u32
        requires { HALF ≤ 1048576 }
        ensures bits { result ≡ unsigned_of HALF self.now }
        ensures held { IsEven HALF self.now }
    {
        field_of(HALF, self.number)
    }
}

/// The two's complement reading of a number below twice the half.
pub(crate) fn number_of(half: u32, number: u32) -> i32
    requires few { half ≤ 1048576 }
    requires below { number < half + half }
    ensures number { result ≡ signed_of half number }
    ensures held { IsSigned half result }
{
    if number < half {
        number as i32
    } else {
        number as i32 - (half + half) as i32
    }
}

/// The number below twice the half whose reading in two's complement this is.
fn field_of(half: u32, number: i32) -> u32
    requires few { half ≤ 1048576 }
    requires held { IsSigned half number }
    ensures number { result ≡ unsigned_of half number }
{
    if number < 0 {
        (number + (half + half) as i32) as u32
    } else {
        number as u32
    }
}
