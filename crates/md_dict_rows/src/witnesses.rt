//! Places at which divisors failed.
/// The places at which a divisor failed last, at this pivot or before: most often the next one fails there too, where it fails at all.
#[derive(Clone, Copy)]
pub struct Witnesses {
    pub places: [usize; 4],
}

impl Witnesses {
    /// The first places, as long as no divisor has failed.
    pub fn new() -> Witnesses {
        Witnesses {
            places: [0, 1, 2, 3],
        }
    }

    /// Adds a place before the others, and drops the last one.
    pub fn add(&mut self, place: usize) {
        let [first, second, third, _] = self.places;
        self.places = [place, first, second, third];
    }
}
