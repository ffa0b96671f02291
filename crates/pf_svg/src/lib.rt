//! Documents in SVG that grow by parts, in which labels are only text.
#![tactic(auto)]

mod escape;
mod laws;
mod part;
mod svg;

pub use escape::{put_escaped, put_short};
pub use laws::labels_stay_text;
pub use part::DocumentPart;
pub use svg::{Svg, Vocabulary};
