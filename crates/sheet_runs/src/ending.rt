/// How a run over a sheet ended.
#[derive(Clone, Copy, Debug, PartialEq, Eq)]
pub enum Ending {
    /// All was read and written.
    Whole,
    /// The input is no sheet: the line and the number of the cause.
    NotSheet(u32, u32),
    /// The source failed.
    ReadFault,
    /// The sink failed.
    WriteFault,
    OutOfMemory,
}
