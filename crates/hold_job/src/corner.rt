use hold_base::Name;

/// A corner: one set of conditions in which every check has to be met.
#[derive(Clone, Debug, Drop)]
pub struct Corner {
    pub name: Name,
    /// The file with this corner's SDF text, where there is one.
    pub sdf: Option<Name>,
}
