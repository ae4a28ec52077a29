//! A transcript as a picture: who ran when, and what waited for what.
//!
//! `print_picture` appends it as SVG (`specs/Picture.antt`), `print_columns` as columns of text, a line a record
//! (`specs/Columns.antt`). Both take the records before the first that is not the machine's, and mark what is not.
#![tactic(auto)]

mod boxes;
mod columns;
mod deed;
mod ending;
mod frames;
mod front;
mod heading;
mod law;
mod marks;
mod moves;
mod picture;
mod places;
mod rows;
mod scene;
mod shapes;
mod spot;
mod style;
mod trails;

pub use columns::print_columns;
pub use law::escaped_is_inert;
pub use picture::print_picture;
pub use style::{HEAD, STYLE};
