// The endings of a run.
ghost use Rattle.std.specs.Prelude.{◌≡◌};
ghost use Rattle.um_reports.specs.Numbers.{number_of};

/// How a run ended.
#[derive(Clone, Copy, PartialEq, Eq)]
pub enum Status {
    Done,
    /// The words have none of the forms.
    Usage,
    /// The text has more than 1,048,576 bytes.
    TooLong,
    Utf8,
    Lexical,
    Syntax,
    Limit,
    Names,
    Shape,
    Units,
    PowerRange,
    Input,
    Trap,
    BudgetEnd,
    ScaleRange,
    /// A read failed.
    ReadFault,
    /// A write failed: a prefix of the answer was written.
    WriteFault,
    /// Memory was wanting: nothing was written.
    NoMemory,
    /// A function is less general than its unit parameters say.
    NotGeneral,
    /// A function can't be used at a signature.
    NotConform,
    /// A number is too large for a function's certificate.
    CertRange,
    /// The bytes are no image, or one that is refused.
    BadImage,
}

impl Status {
    /// The exit status of the program.
    pub fn number(self) -> u8
        ensures { result ≡ number_of self }
    {
        match self {
            Status::Done => 0,
            Status::Usage => 1,
            Status::TooLong => 2,
            Status::Utf8 => 3,
            Status::Lexical => 4,
            Status::Syntax => 5,
            Status::Limit => 6,
            Status::Names => 7,
            Status::Shape => 8,
            Status::Units => 9,
            Status::PowerRange => 10,
            Status::Input => 11,
            Status::Trap => 12,
            Status::BudgetEnd => 13,
            Status::ScaleRange => 14,
            Status::ReadFault => 15,
            Status::WriteFault => 16,
            Status::NoMemory => 17,
            Status::NotGeneral => 19,
            Status::NotConform => 20,
            Status::CertRange => 21,
            Status::BadImage => 22,
        }
    }
}
