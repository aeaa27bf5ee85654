// The kind bytes of the rules' table, of a value node and of a schema node; specs/Kind.antt names them for the definitions.
// Constants and no enum: a node's kind may be any byte, and the definitions of frames answer for each.
pub const NULL: u8 = 0x00;

pub const BOOLEAN: u8 = 0x01;

pub const INT: u8 = 0x02;

pub const LONG: u8 = 0x03;

pub const FLOAT: u8 = 0x04;

pub const DOUBLE: u8 = 0x05;

pub const BYTES: u8 = 0x06;

pub const STRING: u8 = 0x07;

pub const ARRAY: u8 = 0x08;

pub const MAP: u8 = 0x09;

pub const UNION: u8 = 0x0a;

pub const RECORD: u8 = 0x0b;

pub const ENUM: u8 = 0x0c;

pub const FIXED: u8 = 0x0d;

pub const DECIMAL: u8 = 0x0e;

pub const UUID: u8 = 0x0f;

pub const DATE: u8 = 0x10;

pub const TIME_MILLIS: u8 = 0x11;

pub const TIME_MICROS: u8 = 0x12;

pub const TIMESTAMP_MILLIS: u8 = 0x13;

pub const TIMESTAMP_MICROS: u8 = 0x14;

pub const TIMESTAMP_NANOS: u8 = 0x15;

pub const LOCAL_TIMESTAMP_MILLIS: u8 = 0x16;

pub const LOCAL_TIMESTAMP_MICROS: u8 = 0x17;

pub const LOCAL_TIMESTAMP_NANOS: u8 = 0x18;

pub const DURATION: u8 = 0x19;
