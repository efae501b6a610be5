// Why a call is refused. Every refusal of the analyzer is one of these, and each has a number.
#![tactic(auto)]

ghost use Rattle.std.specs.Prelude.{◌≡◌};
ghost use Rattle.refusals.specs.Numbers.{number_of};

#[derive(Clone, Copy, PartialEq, Eq, Debug)]
pub enum Refusal {
    // 4,096 accesses stand already.
    BurstFull = 1,
    // The key is not held, and every place is taken.
    NoPlace = 2,
    // No access stands that could be taken back.
    NothingToRetract = 3,
    // The window is longer than the burst.
    WindowTooLong = 4,
    // The position is 0 or past the newest access.
    NoSuchPosition = 5,
    // The entry is past the end of the table.
    NoSuchEntry = 6,
    // Fewer keys than that are held, or the number is 0.
    NoSuchRecentKey = 7,
    // The size is above the number of different keys.
    SizeAboveKeys = 8,
    // The label field is not one digit from 0 to 4.
    NoLabel = 9,
    // The label is 3 or 4, which is no access.
    LabelNoAccess = 10,
    // The line has no address field.
    NoAddress = 11,
    // The address has a byte that is no hexadecimal digit.
    NotHexadecimal = 12,
    // The address has more than 16 digits.
    TooManyDigits = 13,
    // The capture has more than 65,535 bytes.
    CaptureTooLong = 14,
    // The bytes are no whole number of records.
    PartialRecord = 15,
}

impl Refusal {
    // The number by which programs and the host name the refusal. (`as` is the form for an enum's own values.)
    pub fn number(self) -> u32
        ensures { result ≡ number_of self }
    {
        self as u32
    }
}
