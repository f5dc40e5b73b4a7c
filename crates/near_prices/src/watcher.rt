//! Who watches rounds of column generation. No clause rests on this.

/// How far the rounds are.
#[derive(Clone, Copy, Debug, PartialEq, Eq)]
pub struct PricesProgress {
    /// How many rounds were made.
    pub rounds: u64,
    /// How many routes are known.
    pub routes: u64,
    /// The sum of the prices, scaled as times are, with what entries earn at the least. It is no
    /// bound before the last round.
    pub prices: i128,
}

/// Who is told how far rounds are. Nothing is promised of it, and what is found doesn't depend on
/// it.
pub trait PricesWatcher {
    /// Is told how far the rounds are, once behind each.
    fn watch_prices(&mut self, progress: PricesProgress);
}
