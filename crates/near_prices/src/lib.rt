//! Prices of the linear optimum over near routes, on which a customer may be served again once it
//! is forgotten (the ng-route relaxation: Baldacci, Mingozzi, Roberti 2011), by column generation.
//! No clause rests on this: it promises nothing but to be safe and to end; what it finds is judged
//! by others.
#![tactic(auto)]

mod answer;
mod branching;
mod budget;
mod choice;
mod diving;
mod fitting;
mod floor;
mod growing;
mod handing;
mod kept;
mod numbers;
mod patience;
mod pool;
mod pricing;
mod question;
mod rounds;
mod routes;
mod scaling;
mod search;
mod settling;
mod watcher;

pub use answer::{ClosedPrices, NearPrices, PricedRoute, find_prices};
pub use branching::{RowTrial, Tally, UsedRoute};
pub use budget::PriceEffort;
pub use cover_prices::{Row, Sense};
pub use question::{EntryRange, Handed, KnownRoute, PriceQuestion};
pub use search::{PriceSearch, RoundsEnd};
pub use watcher::{PricesProgress, PricesWatcher};
