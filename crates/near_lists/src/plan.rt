//! How a list is made. No clause rests on this.

/// How a list is made.
#[derive(Clone, Copy, Debug, PartialEq, Eq)]
pub struct ListPlan {
    /// About so many layers has the table.
    pub layers: usize,
    /// So many labels are too many, those included that turn out to be needless.
    pub most_labels: usize,
    /// Whether labels are made stronger, by which lists get a third to a half as long.
    pub strengthens: bool,
}

impl ListPlan {
    /// A short list, in more time.
    pub fn careful() -> ListPlan {
        ListPlan {
            layers: 120,
            most_labels: 400_000,
            strengthens: true,
        }
    }

    /// A list two to three times as long, in about half the time. Judging it takes longer.
    pub fn quick() -> ListPlan {
        ListPlan {
            layers: 60,
            most_labels: 400_000,
            strengthens: false,
        }
    }

    /// A list by few layers, of few labels, which is short where no steps earn that lead back to a
    /// place.
    pub fn hasty() -> ListPlan {
        ListPlan {
            layers: 15,
            most_labels: 20_000,
            strengthens: false,
        }
    }
}
