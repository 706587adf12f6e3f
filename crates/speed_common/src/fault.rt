//! Why there is no report.
use std::alloc::{AllocError, AllocFailed};
use std::io;
use u1_base::Memory;

/// Why there is no report.
#[derive(Clone, Copy)]
pub enum Fault {
    /// The words name no workload.
    Words,
    /// The workload failed.
    Run,
}

impl From<Memory> for Fault {
    fn from(_memory: Memory) -> Fault {
        Fault::Run
    }
}

impl From<AllocError> for Fault {
    fn from(_error: AllocError) -> Fault {
        Fault::Run
    }
}

impl<T: Drop> From<AllocFailed<T>> for Fault {
    fn from(_failed: AllocFailed<T>) -> Fault {
        Fault::Run
    }
}

impl From<io::Error> for Fault {
    fn from(_error: io::Error) -> Fault {
        Fault::Run
    }
}

/// What was done, where nothing failed.
pub fn done<T, E: Drop>(outcome: Result<T, E>) -> Result<T, Fault> {
    match outcome {
        Ok(value) => Ok(value),
        Err(_) => Err(Fault::Run),
    }
}
