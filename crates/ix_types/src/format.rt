//! The two formats of record files.

/// Which fields a record file has: in format Two each symbol has its code generation name as well.
#[derive(Clone, Copy, Debug, PartialEq, Eq)]
pub enum Format {
    One,
    Two,
}
