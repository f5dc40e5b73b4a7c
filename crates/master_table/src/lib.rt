//! The master problem's table: equations over helpers and routes, in whole numbers, and pivots; and
//! whether a listed basis of it is too wide for whole numbers within caps.
#![tactic(auto)]

mod adding;
mod caps;
mod fresh;
mod leaving;
mod listed;
mod over;
mod rows;
mod starting;
mod starts;
mod table;
mod wide;

pub use caps::{Caps, TableFault};
pub use listed::ListedRoute;
pub use over::{own_size, right_size, share_weight};
pub use table::Table;
pub use wide::{CERTIFICATE_CAPS, is_too_wide};
