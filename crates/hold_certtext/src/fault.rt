use thiserror::Error;

/// Why the text of a certificate is refused.
#[derive(Clone, Copy, Debug, PartialEq, Eq, Error)]
pub enum CertFault {
    /// The number of the first line that can't stand there, from 1.
    #[error("a line of the certificate can't stand there")]
    Line(u64),
}
