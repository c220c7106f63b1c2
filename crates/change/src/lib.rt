// What a message makes of the files: of the record that bears its path, and of the extents. The verdict on a message is in the
// crate tree, the limits are replay's.
#![tactic(auto)]

mod edit;
mod room;

pub use edit::{Edit, edit_of, made_by, path_of, stamped_by};
pub use room::{Room, clear, lay_run};
