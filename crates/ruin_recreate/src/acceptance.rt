//! Which plans are gone on from: simulated annealing, with the logarithms of a table.

/// The first temperature, in thousandths of what a customer costs on average.
const HOT: u64 = 600;

/// How many stages a cycle has.
pub(crate) const STAGES: u64 = 256;

/// The temperature of a stage, in 2^16ths of that of the stage before.
const COOLING: u64 = 64_368;

/// For each byte b, 256 times the negative logarithm of (b + 1/2) / 256.
const NEGATIVE_LOGS: [u64; 256] = [
    1597, 1316, 1185, 1099, 1035, 983, 940, 904, 872, 843, 818, 794, 773, 753, 735, 718, 702, 687,
    673, 659, 646, 634, 623, 611, 601, 590, 581, 571, 562, 553, 545, 536, 528, 521, 513, 506, 499,
    492, 485, 478, 472, 466, 460, 454, 448, 442, 437, 431, 426, 421, 416, 411, 406, 401, 396, 391,
    387, 382, 378, 374, 369, 365, 361, 357, 353, 349, 345, 341, 337, 334, 330, 327, 323, 319, 316,
    313, 309, 306, 303, 299, 296, 293, 290, 287, 284, 281, 278, 275, 272, 269, 266, 263, 261, 258,
    255, 252, 250, 247, 245, 242, 239, 237, 234, 232, 229, 227, 225, 222, 220, 217, 215, 213, 210,
    208, 206, 204, 202, 199, 197, 195, 193, 191, 189, 187, 185, 182, 180, 178, 176, 174, 172, 171,
    169, 167, 165, 163, 161, 159, 157, 155, 154, 152, 150, 148, 146, 145, 143, 141, 139, 138, 136,
    134, 133, 131, 129, 128, 126, 124, 123, 121, 120, 118, 116, 115, 113, 112, 110, 109, 107, 106,
    104, 103, 101, 100, 98, 97, 95, 94, 92, 91, 89, 88, 87, 85, 84, 82, 81, 80, 78, 77, 76, 74, 73,
    72, 70, 69, 68, 66, 65, 64, 63, 61, 60, 59, 58, 56, 55, 54, 53, 51, 50, 49, 48, 46, 45, 44, 43,
    42, 41, 39, 38, 37, 36, 35, 34, 32, 31, 30, 29, 28, 27, 26, 25, 24, 22, 21, 20, 19, 18, 17, 16,
    15, 14, 13, 12, 11, 10, 9, 8, 7, 6, 5, 4, 3, 2, 1,
];

/// How much more a plan may cost that is gone on from.
#[derive(Clone, Copy)]
pub(crate) struct Annealing {
    first: u64,
    temperature: u64,
    stage: u64,
}

impl Annealing {
    /// The first stage, for a plan of so many customers that costs so much.
    pub(crate) fn new(cost: u64, customers: usize) -> Annealing {
        let each = cost / (customers as u64).max(1);
        let first = (each / 1000)
            .wrapping_mul(HOT)
            .wrapping_add(each % 1000 * HOT / 1000);
        Annealing {
            first,
            temperature: first,
            stage: 0,
        }
    }

    /// Goes back to the first stage.
    pub(crate) fn heat(&mut self) {
        self.temperature = self.first;
        self.stage = 0;
    }

    /// Goes on to a stage.
    pub(crate) fn cool_to(&mut self, stage: u64) {
        for _ in self.stage..stage {
            let whole = self.temperature >> 16;
            let part = self.temperature & 0xFFFF;
            self.temperature = whole
                .wrapping_mul(COOLING)
                .wrapping_add(part.wrapping_mul(COOLING) >> 16);
        }
        self.stage = self.stage.max(stage);
    }

    /// By how much a plan has to cost less than the one before and this, by a byte by chance.
    pub(crate) fn slack(&self, byte: usize) -> u64 {
        let log = NEGATIVE_LOGS.get(byte).copied().unwrap_or(0);
        (self.temperature / 256).wrapping_mul(log)
    }
}
