// What is told to whoever sets up a measure with a number outside its range.
ghost use Rattle.measure.specs.Settings.{cause_number, setting_name, outside};
ghost use Rattle.std.specs.Prelude.{◌≡◌, Some};

use refusals::{Cause, Fault};
use std::fmt;

/// Why a setting is refused.
#[derive(Clone, Copy, PartialEq, Eq, Debug)]
pub enum SettingCause {
    /// The number lies outside the setting's range.
    OutOfRange = 12,
}

impl Cause for SettingCause {
    const FAULT: &'static str = "SettingFault";

    ghost number_of = { cause_number };

    fn number(self) -> u8 {
        self as u8
    }
}

/// The setting that is refused.
#[derive(Clone, Copy, PartialEq, Eq, Debug)]
pub enum SettingName {
    /// The size of points, 0 to 4,096.
    Size,
    /// The spacing of a tracking, 0 to 1,023.
    Spacing,
}

impl SettingName {
    /// The refusal of this setting outside its range.
    pub fn out_of_range(self) -> SettingFault
        ensures { result ≡ outside self }
    {
        Fault {
            cause: SettingCause::OutOfRange,
            row: 0,
            table: self,
        }
    }
}

impl fmt::Display for SettingName {
    ghost output = { λ s. Some (setting_name s) };

    fn fmt<W: fmt::Write>(&self, f: &mut fmt::Formatter<W>) -> fmt::Result {
        f.write_str(match self {
            SettingName::Size => "size",
            SettingName::Spacing => "spacing",
        })
    }
}

/// A refused setting. A setting has no rows, so the row is always 0.
pub type SettingFault = Fault<SettingCause, SettingName>;
