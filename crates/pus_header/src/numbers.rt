// Numbers that the headers of this program have.

/// The APID of this program: that of its reports and of the requests to it.
pub const APID: u16 = 10;

/// The PUS version number of the headers that are read and written here.
pub const PUS_VERSION: u8 = 2;

/// The octets of a telecommand's two headers.
pub const TC_HEADERS: usize = 11;

/// The octets of a report's two headers.
pub const TM_HEADERS: usize = 19;
