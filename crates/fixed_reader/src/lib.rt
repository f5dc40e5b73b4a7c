//! Reads what `evroute fixed` puts: the charged route of one vehicle with its scaled time, or that
//! there is none.
#![tactic(auto)]

mod laws;
mod reading;

pub use laws::{fixed_faults_are_first, texts_spell_charged_routes, what_fixed_puts_is_read};
pub use reading::{ChargedRoute, read_fixed};
