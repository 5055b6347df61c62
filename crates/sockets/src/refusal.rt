ghost use Rattle.std.specs.Prelude.{◌≡◌};

use std::io;
use thiserror::Error;

/// Why nobody is served.
#[derive(Debug, Drop, Error)]
pub enum Refusal {
    /// The system doesn't let it listen there, for this reason.
    #[error("302 ListenFault: {0}")]
    ListenFault(io::Error),
}

impl Refusal {
    ghost use Rattle.sockets.specs.Refusal.{number_of};

    /// The refusal's number.
    pub fn number(&self) -> u16
        ensures { result ≡ number_of self.now }
    {
        match self {
            Refusal::ListenFault(_) => 302,
        }
    }
}
