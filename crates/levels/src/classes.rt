// The bidi classes of characters, their raw codes and names, and what rule L1 makes of them.
ghost use Rattle.levels.specs.Classes.{code_of, from_code, name_of};
ghost use Rattle.std.specs.Prelude.{◌≡◌, Some, MatchOption, MatchResult, ◌≢◌, codes};
ghost use Rattle.std.specs.Result.{result_ok};

use std::error::Error;
use std::fmt;
use std::str::FromStr;

/// All 23 bidi classes, in the order of their raw codes 0 to 22.
#[derive(Clone, Copy, PartialEq, Eq, Debug)]
pub enum BidiClass {
    L,
    R,
    AL,
    EN,
    ES,
    ET,
    AN,
    CS,
    NSM,
    BN,
    B,
    S,
    WS,
    ON,
    LRE,
    LRO,
    RLE,
    RLO,
    PDF,
    LRI,
    RLI,
    FSI,
    PDI,
}

/// What is no bidi class: a number above 22, or a text that UAX #9 has no class of.
#[derive(Clone, Copy, PartialEq, Eq, Debug)]
pub struct UnknownClass;

impl fmt::Display for UnknownClass {
    ghost output = { λ _. Some (codes "no bidi class") };

    fn fmt<W: fmt::Write>(&self, f: &mut fmt::Formatter<W>) -> fmt::Result {
        f.write_str("no bidi class")
    }
}

impl Error for UnknownClass {}

/// The class with a raw code.
impl TryFrom<u8> for BidiClass {
    type Error = UnknownClass;

    ghost try_from_gives = { λ code r. result_ok r ≡ from_code code };

    fn try_from(code: u8) -> Result<BidiClass, UnknownClass> {
        // A match by hand, as in `from_str` below: no derive reads a variant by its number or its name.
        match code {
            0 => Ok(BidiClass::L),
            1 => Ok(BidiClass::R),
            2 => Ok(BidiClass::AL),
            3 => Ok(BidiClass::EN),
            4 => Ok(BidiClass::ES),
            5 => Ok(BidiClass::ET),
            6 => Ok(BidiClass::AN),
            7 => Ok(BidiClass::CS),
            8 => Ok(BidiClass::NSM),
            9 => Ok(BidiClass::BN),
            10 => Ok(BidiClass::B),
            11 => Ok(BidiClass::S),
            12 => Ok(BidiClass::WS),
            13 => Ok(BidiClass::ON),
            14 => Ok(BidiClass::LRE),
            15 => Ok(BidiClass::LRO),
            16 => Ok(BidiClass::RLE),
            17 => Ok(BidiClass::RLO),
            18 => Ok(BidiClass::PDF),
            19 => Ok(BidiClass::LRI),
            20 => Ok(BidiClass::RLI),
            21 => Ok(BidiClass::FSI),
            22 => Ok(BidiClass::PDI),
            _ => Err(UnknownClass),
        }
    }
}

/// The raw code of a class.
impl From<BidiClass> for u8 {
    ghost from_gives = { λ class code. code ≡ code_of class };

    fn from(class: BidiClass) -> u8 {
        class as u8
    }
}

/// The class with a name in UAX #9.
impl FromStr for BidiClass {
    ghost use Rattle.levels.specs.declared.classes.BidiClass.{BidiClass};

    type Err = UnknownClass;

    ghost from_str_gives = { λ name r. MatchResult r (λ class. name_of class ≡ name) (λ _. (class : BidiClass) → name_of class ≢ name) };

    fn from_str(name: &str) -> Result<BidiClass, UnknownClass> {
        match name {
            "L" => Ok(BidiClass::L),
            "R" => Ok(BidiClass::R),
            "AL" => Ok(BidiClass::AL),
            "EN" => Ok(BidiClass::EN),
            "ES" => Ok(BidiClass::ES),
            "ET" => Ok(BidiClass::ET),
            "AN" => Ok(BidiClass::AN),
            "CS" => Ok(BidiClass::CS),
            "NSM" => Ok(BidiClass::NSM),
            "BN" => Ok(BidiClass::BN),
            "B" => Ok(BidiClass::B),
            "S" => Ok(BidiClass::S),
            "WS" => Ok(BidiClass::WS),
            "ON" => Ok(BidiClass::ON),
            "LRE" => Ok(BidiClass::LRE),
            "LRO" => Ok(BidiClass::LRO),
            "RLE" => Ok(BidiClass::RLE),
            "RLO" => Ok(BidiClass::RLO),
            "PDF" => Ok(BidiClass::PDF),
            "LRI" => Ok(BidiClass::LRI),
            "RLI" => Ok(BidiClass::RLI),
            "FSI" => Ok(BidiClass::FSI),
            "PDI" => Ok(BidiClass::PDI),
            _ => Err(UnknownClass),
        }
    }
}

impl BidiClass {
    /// Its raw code, which `try_from` takes back.
    pub fn code(self) -> u8
        ensures value { result ≡ code_of self }
        ensures back { from_code result ≡ Some self }
    {
        u8::from(self)
    }

    /// The class with this name in UAX #9, as `parse` gives it.
    pub fn from_name(name: &str) -> Option<BidiClass>
        ensures { MatchOption result ((class : BidiClass) → name_of class ≢ name.now) (λ class. name_of class ≡ name.now) }
    {
        name.parse().ok()
    }
}
