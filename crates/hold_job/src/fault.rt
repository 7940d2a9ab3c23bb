use hold_base::Name;
use thiserror::Error;

/// Why a text gives no job. A path is the keys and the places in lists, from 0, that lead to a value, joined by points, as
/// `type.1.arcs.0.spans`.
#[derive(Debug, Drop, Error)]
pub enum JobFault {
    /// The text is no TOML.
    #[error("the job isn't TOML")]
    Toml,
    /// The key at this path is unknown, or required and missing, or its value isn't of its kind.
    #[error("a key is unknown or missing, or its value is of another kind")]
    Key(Name),
    /// The value at this path is of its kind and breaks its rule.
    #[error("a value breaks its rule")]
    Range(Name),
    /// Two entries are alike that may not be. The path is that of the key by which they are, in the later one.
    #[error("an entry stands twice")]
    Double(Name),
    /// A file that is to be written has the name of another one that the job speaks of.
    #[error("two files share a name")]
    SameName(Name),
}
