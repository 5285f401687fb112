//! Why a session isn't opened.

use std::fmt;
use thiserror::Error;
use tks_app::{AppBody, AppClosure, AppMeaning, Apps};
use tks_durable::SessionFault;

/// Why a session wasn't opened, with the disk and the commands that were handed in.
#[derive(Drop, Error)]
#[error("{fault}")]
pub struct OpenFault<D, T: AppMeaning, B: AppBody = AppClosure> {
    /// The disk: as it was, where the fault isn't `Disk`.
    pub disk: D,
    /// The application's commands.
    pub apps: Apps<T, B>,
    /// What the matter is.
    pub fault: SessionFault,
}

// Neither a disk nor closures can be shown: the fault stands for them.
impl<D, T: AppMeaning, B: AppBody> fmt::Debug for OpenFault<D, T, B> {
    fn fmt<W: fmt::Write>(&self, f: &mut fmt::Formatter<W>) -> fmt::Result {
        f.debug_struct("OpenFault")
            .field("fault", &self.fault)
            .finish()
    }
}
