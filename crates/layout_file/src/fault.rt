//! What can be wrong with a layout file, and where.
ghost use Rattle.std.specs.Prelude.{◌≡◌};

/// A table of the file. A port row is a part of its repeater's row.
#[derive(Clone, Copy, Debug)]
pub enum Table {
    File,
    Segment,
    Station,
    Repeater,
    Send,
}

impl Table {
    ghost use Rattle.layout_file.specs.FaultNames.{name_of_table};

    /// The table's name as it is printed: its array's key, or `file`.
    pub fn name(&self) -> &'static str
        ensures { result.now ≡ name_of_table self.now }
    {
        match self {
            Table::File => "file",
            Table::Segment => "segment",
            Table::Station => "station",
            Table::Repeater => "repeater",
            Table::Send => "send",
        }
    }
}

/// A key of a table, or none where a fault is of the whole row.
#[derive(Clone, Copy, Debug)]
pub enum Key {
    None,
    Format,
    Seed,
    UntilBits,
    Segment,
    Station,
    Repeater,
    Send,
    Name,
    At,
    Load,
    LoseBits,
    Delay,
    Port,
    Octets,
}

impl Key {
    ghost use Rattle.layout_file.specs.FaultNames.{name_of_key};

    /// The key as it is written in the file, and `-` for none.
    pub fn name(&self) -> &'static str
        ensures { result.now ≡ name_of_key self.now }
    {
        match self {
            Key::None => "-",
            Key::Format => "format",
            Key::Seed => "seed",
            Key::UntilBits => "until_bits",
            Key::Segment => "segment",
            Key::Station => "station",
            Key::Repeater => "repeater",
            Key::Send => "send",
            Key::Name => "name",
            Key::At => "at",
            Key::Load => "load",
            Key::LoseBits => "lose_bits",
            Key::Delay => "delay",
            Key::Port => "port",
            Key::Octets => "octets",
        }
    }
}

/// What is wrong, in the order in which it is looked for.
#[derive(Clone, Copy, Debug)]
pub enum LayoutCode {
    /// The octets are no TOML document.
    NotToml,
    /// A table has a key that it may not have.
    UnknownKey,
    /// A required key is absent.
    Missing,
    /// A value has another type than its key asks for.
    WrongType,
    /// A name is no name, or a load breaks its rule.
    BadName,
    /// A number is out of its range, or an array has too few rows.
    OutOfRange,
    /// The file has too many octets, an array too many rows, or the run too many device bits.
    TooMany,
    /// A name is that of an earlier segment or device.
    SameName,
    /// A station or a port names no segment.
    NoSuchSegment,
    /// A send names no station.
    NoSuchStation,
    /// A tap stands where an earlier tap of its segment stands.
    TapTaken,
    /// A port joins its repeater to a segment that is joined to it already.
    Loop,
    /// A segment isn't joined to the first one.
    Apart,
    /// A send's octets are no octets, too few or too many.
    BadFrame,
    /// An allocation was refused.
    OutOfMemory,
}

impl LayoutCode {
    ghost use Rattle.layout_file.specs.FaultNames.{number_of_code, name_of_code};

    /// The code's number, from 1.
    pub fn number(&self) -> u32
        ensures { result ≡ number_of_code self.now }
    {
        match self {
            LayoutCode::NotToml => 1,
            LayoutCode::UnknownKey => 2,
            LayoutCode::Missing => 3,
            LayoutCode::WrongType => 4,
            LayoutCode::BadName => 5,
            LayoutCode::OutOfRange => 6,
            LayoutCode::TooMany => 7,
            LayoutCode::SameName => 8,
            LayoutCode::NoSuchSegment => 9,
            LayoutCode::NoSuchStation => 10,
            LayoutCode::TapTaken => 11,
            LayoutCode::Loop => 12,
            LayoutCode::Apart => 13,
            LayoutCode::BadFrame => 14,
            LayoutCode::OutOfMemory => 15,
        }
    }

    /// The code's name as it is printed.
    pub fn name(&self) -> &'static str
        ensures { result.now ≡ name_of_code self.now }
    {
        match self {
            LayoutCode::NotToml => "NotToml",
            LayoutCode::UnknownKey => "UnknownKey",
            LayoutCode::Missing => "Missing",
            LayoutCode::WrongType => "WrongType",
            LayoutCode::BadName => "BadName",
            LayoutCode::OutOfRange => "OutOfRange",
            LayoutCode::TooMany => "TooMany",
            LayoutCode::SameName => "SameName",
            LayoutCode::NoSuchSegment => "NoSuchSegment",
            LayoutCode::NoSuchStation => "NoSuchStation",
            LayoutCode::TapTaken => "TapTaken",
            LayoutCode::Loop => "Loop",
            LayoutCode::Apart => "Apart",
            LayoutCode::BadFrame => "BadFrame",
            LayoutCode::OutOfMemory => "OutOfMemory",
        }
    }
}

/// Where a fault stands.
#[derive(Clone, Copy, Debug)]
pub struct Place {
    pub table: Table,
    /// The row from 1, or 0 for the file's own keys.
    pub row: u32,
    /// The port from 1 in a repeater's row, else 0.
    pub port: u32,
    pub key: Key,
}

/// The first fault of a layout file.
#[derive(Clone, Copy, Debug)]
pub struct LayoutFault {
    pub code: LayoutCode,
    pub place: Place,
}

impl LayoutFault {
    ghost use Rattle.layout_file.specs.JointFaults.{row_fault};

    /// A fault of a row of a table, counted from 1, or 0 for the file's own keys.
    pub fn of_row(code: LayoutCode, table: Table, row: u32, key: Key) -> LayoutFault
        ensures { result ≡ row_fault code table row key }
    {
        LayoutFault {
            code,
            place: Place {
                table,
                row,
                port: 0,
                key,
            },
        }
    }
}
