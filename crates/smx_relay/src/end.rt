//! How a run ends.
use smx_script::Reason;
use thiserror::Error;

/// How the run of a script ended.
#[derive(Clone, Copy, Debug, PartialEq, Eq, Error)]
pub enum RunEnd {
    /// Each line was run.
    #[error("each line was run")]
    Clean,
    /// The line with this number, from 1 on, is bad, for this reason. The lines before it were run.
    #[error("line {0}: {1}")]
    BadLine(u64, Reason),
    /// The line with this number was not run, since what the lines before it reserve is more than a run may.
    #[error("line {0} is not run: what stands before it reserves more than 1 GB")]
    TooLarge(u64),
    /// The script has more than 1,048,576 octets.
    #[error("the script has more than 1,048,576 octets")]
    TooLong,
    /// The reader failed.
    #[error("the script could not be read")]
    ReadFault,
    /// The writer failed, or took no octet of some.
    #[error("the output could not be written")]
    WriteFault,
    /// Memory was refused.
    #[error("out of memory")]
    NoMemory,
}
