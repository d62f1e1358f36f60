//! Why a request is not answered.

use crate::serve::Stop;
use address_table_commands::Stop as TableStop;
use anyhow::anyhow;
use std::io::{self, ErrorKind};

/// Why a request is not answered.
#[derive(Drop)]
pub enum Unanswered {
    /// A command stopped.
    Stopped(Stop),
    /// The answer cannot be written, for this reason.
    Unwritten(ErrorKind),
    /// Something else failed, such as that a file cannot be opened.
    Failed(anyhow::Error),
}

impl From<Stop> for Unanswered {
    fn from(stop: Stop) -> Unanswered {
        Unanswered::Stopped(stop)
    }
}

impl From<TableStop> for Unanswered {
    fn from(stop: TableStop) -> Unanswered {
        match stop {
            TableStop::BadTable(name, error) => Unanswered::Failed(anyhow!("{name}: {error}")),
            TableStop::BadList(name, error) => Unanswered::Stopped(Stop::Bad(name, error)),
            TableStop::Memory => Unanswered::Stopped(Stop::Memory),
            TableStop::Unwritable => Unanswered::Stopped(Stop::Unwritable),
        }
    }
}

impl From<anyhow::Error> for Unanswered {
    fn from(error: anyhow::Error) -> Unanswered {
        Unanswered::Failed(error)
    }
}

impl From<io::Error> for Unanswered {
    fn from(error: io::Error) -> Unanswered {
        Unanswered::Failed(anyhow::Error::from(error))
    }
}
