use crate::cell_times::{TypeArc, TypeCheck};
use hold_base::List;
use hold_roles::CellType;

/// What a job lists of one type of cells: the type, and what is known of its times.
#[derive(Clone, Debug, Drop)]
pub struct ListedType {
    pub cell: CellType,
    pub arcs: List<TypeArc>,
    pub checks: List<TypeCheck>,
}
