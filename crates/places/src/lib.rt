// What stands at each address of each space, and the engine's way to find it: a table of cells, made once and lent.
#![tactic(auto)]

mod decode;
mod place;

pub use decode::{
    CELLS, OTHER_WAY_HELD, WIDER_HELD, behind, cell_at, cells, is_nothing, place_of, plain,
    width_of,
};
pub use place::Place;
