/// How a run of `sample` ended.
#[derive(Clone, Copy, Debug, PartialEq, Eq)]
pub enum Sampling {
    /// The six lines were written.
    Whole,
    /// The sink failed.
    WriteFault,
    OutOfMemory,
}
