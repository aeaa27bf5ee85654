// What stops a record, a list of finishes or a sum of the calendar, under the C header's names.
ghost use Rattle.std.specs.Prelude.{◌≡◌};
ghost use Rattle.base.specs.Refusal.{number_of};

// In checking order (docs/RULES.md, "What stops a record").
#[derive(Clone, Copy, Debug, PartialEq, Eq)]
pub enum Refusal {
    WorkspaceTooShort,
    SchemaNoFrame,
    SchemaUnsound,
    DefaultTooLong,
    RecordNoFrame,
    Unsuited,
    LongOutsideInt,
    ItemOutsideByte,
    NotUtf8,
    SizeDiffers,
    UuidWrong,
    ScaleExceedsPrecision,
    FixedTooSmall,
    BytesTooFew,
    SymbolUnknown,
    NoVariant,
    FieldMissing,
    ResultTooLong,
    // Of lists of finishes (docs/RULES.md, "Corrected finishes").
    TooManyFrames,
    NoFinish,
    // The calendar's (docs/RULES.md, "Dates and instants").
    MillisOnDate,
    OutsideCalendar,
    // In the place of 6, where a Float or a Double would be a NaN (docs/RULES.md, "Casts").
    NotANumber,
}

impl Refusal {
    // The number that the rules and the C header give it.
    pub fn number(self) -> u8
        ensures { result ≡ number_of self }
    {
        match self {
            Refusal::WorkspaceTooShort => 1,
            Refusal::SchemaNoFrame => 2,
            Refusal::SchemaUnsound => 3,
            Refusal::DefaultTooLong => 4,
            Refusal::RecordNoFrame => 5,
            Refusal::Unsuited => 6,
            Refusal::LongOutsideInt => 7,
            Refusal::ItemOutsideByte => 8,
            Refusal::NotUtf8 => 9,
            Refusal::SizeDiffers => 10,
            Refusal::UuidWrong => 11,
            Refusal::ScaleExceedsPrecision => 12,
            Refusal::FixedTooSmall => 13,
            Refusal::BytesTooFew => 14,
            Refusal::SymbolUnknown => 15,
            Refusal::NoVariant => 16,
            Refusal::FieldMissing => 17,
            Refusal::ResultTooLong => 18,
            Refusal::TooManyFrames => 23,
            Refusal::NoFinish => 24,
            Refusal::MillisOnDate => 26,
            Refusal::OutsideCalendar => 27,
            Refusal::NotANumber => 28,
        }
    }
}
