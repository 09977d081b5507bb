// Passes over the cells of a field, in the layer of placing: the positions of a line, the cells that hold a check, the cells that
// have given positions, and the place of a cell.
#![tactic(auto)]

pub mod cell_places;
pub mod check_cells;
pub mod line_positions;
pub mod place;
