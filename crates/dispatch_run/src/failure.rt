// Why a call did not end well.
ghost use Rattle.std.specs.Prelude.{◌≡◌};
ghost use Rattle.dispatch_run.specs.Ending as ending;

use crate::Status;
use line_service::ServeFault;
use live_header::{Refused, Unread};

/// What one line on the error sink says.
#[derive(Clone, Copy)]
pub enum Failure {
    /// There is no whole header.
    Unread(Unread),
    /// The header opens nothing.
    Header(Refused),
    /// The session broke off.
    Broken(ServeFault),
}

impl Failure {
    ghost use Rattle.std.specs.Prelude.{◌≡◌};
    ghost use Rattle.dispatch_run.specs.Ending.{status_of};

    /// The status of a call that ends so.
    pub fn status(&self) -> Status
        ensures { result ≡ status_of self.now }
    {
        match self {
            Failure::Unread(unread) => status_unread(*unread),
            Failure::Header(refused) => status_refused(refused),
            Failure::Broken(fault) => status_broken(*fault),
        }
    }
}

fn status_unread(unread: Unread) -> Status
    ensures { result ≡ ending.status_unread unread }
{
    match unread {
        Unread::Memory => Status::Memory,
        Unread::ReadFault => Status::ReadFault,
        Unread::TooLong | Unread::NoLive => Status::Refused,
        Unread::NoJournal => Status::BadJournal,
    }
}

fn status_refused(refused: &Refused) -> Status
    ensures { result ≡ ending.status_refused refused.now }
{
    match refused {
        Refused::Memory => Status::Memory,
        Refused::Other | Refused::Document(_) | Refused::Tree { .. } => Status::Refused,
        Refused::Certificate { .. } => Status::BadCertificate,
        Refused::Text(_) | Refused::Line(_) => Status::BadJournal,
    }
}

fn status_broken(fault: ServeFault) -> Status
    ensures { result ≡ ending.status_broken fault }
{
    match fault {
        ServeFault::Memory => Status::Memory,
        ServeFault::Read => Status::ReadFault,
        ServeFault::Write => Status::WriteFault,
    }
}
