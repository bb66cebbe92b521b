//! Numbers that make a mass table, and numbers that make none.
use crate::auctions::auction;
use md_counts::Counts;
use md_expost::{MassRefusal, Masses};
use md_num::Nums;
use std::test::Fail;

// Numbers for two bidders with two kinds of values that weigh 1 each, and why they make no mass table. The lists of counts
// are (0, 2), (1, 1) and (2, 0), which weigh 1, 2 and 1.
struct Trial {
    den: i128,
    rows: &'static [i128],
    refusal: Option<MassRefusal>,
}

const LARGE: i128 = i128::MAX;

// The greatest denominator, 2^62 - 1.
const MOST: i128 = 4611686018427387903;

static TRIALS: [Trial; 17] = [
    // As much as there is to give, and nothing.
    Trial {
        den: 3,
        rows: &[0, 3, 2, 4, 3, 0],
        refusal: None,
    },
    Trial {
        den: MOST,
        rows: &[0, 0, 0, 0, 0, 0],
        refusal: None,
    },
    // One number too few, and one too many.
    Trial {
        den: 0,
        rows: &[0, 0, 0, 0, 0],
        refusal: Some(MassRefusal::Shape),
    },
    Trial {
        den: 3,
        rows: &[0, 0, 0, 0, 0, 0, 0],
        refusal: Some(MassRefusal::Shape),
    },
    Trial {
        den: 0,
        rows: &[0, 0, 0, -1, 0, 0],
        refusal: Some(MassRefusal::Den),
    },
    Trial {
        den: -3,
        rows: &[0, 0, 0, 0, 0, 0],
        refusal: Some(MassRefusal::Den),
    },
    Trial {
        den: MOST + 1,
        rows: &[0, 0, 0, 0, 0, 0],
        refusal: Some(MassRefusal::Den),
    },
    // A negative number, also behind a mass that no bidder gets and more than there is to give.
    Trial {
        den: 3,
        rows: &[0, 0, 0, -1, -1, 0],
        refusal: Some(MassRefusal::Negative(3)),
    },
    Trial {
        den: 3,
        rows: &[1, 4, 0, 0, 0, -1],
        refusal: Some(MassRefusal::Negative(5)),
    },
    // No bidder has the first value at the first list, and none the second value at the last list.
    Trial {
        den: 3,
        rows: &[1, 4, 0, 0, 0, 1],
        refusal: Some(MassRefusal::Absent(0)),
    },
    Trial {
        den: 3,
        rows: &[0, 4, 0, 0, 0, 1],
        refusal: Some(MassRefusal::Absent(5)),
    },
    // More than 3 times 1, than 3 times 2, and than 3 times 1.
    Trial {
        den: 3,
        rows: &[0, 4, 7, 0, 0, 0],
        refusal: Some(MassRefusal::Over(0)),
    },
    Trial {
        den: 3,
        rows: &[0, 3, 3, 4, 4, 0],
        refusal: Some(MassRefusal::Over(1)),
    },
    Trial {
        den: 3,
        rows: &[0, 3, 3, 3, 4, 0],
        refusal: Some(MassRefusal::Over(2)),
    },
    // Numbers whose sum has more than 128 bits, alone and behind a small one.
    Trial {
        den: 3,
        rows: &[0, 0, LARGE, LARGE, 0, 0],
        refusal: Some(MassRefusal::Over(1)),
    },
    Trial {
        den: 3,
        rows: &[0, 0, 1, LARGE, 0, 0],
        refusal: Some(MassRefusal::Over(1)),
    },
    Trial {
        den: MOST,
        rows: &[0, LARGE, LARGE, LARGE, LARGE, 0],
        refusal: Some(MassRefusal::Over(0)),
    },
];

fn is_refusal(refusal: &Option<MassRefusal>, wanted: &Option<MassRefusal>) -> bool {
    match (refusal, wanted) {
        (None, None) => true,
        (Some(MassRefusal::Shape), Some(MassRefusal::Shape)) => true,
        (Some(MassRefusal::Den), Some(MassRefusal::Den)) => true,
        (Some(MassRefusal::Negative(place)), Some(MassRefusal::Negative(other))) => place == other,
        (Some(MassRefusal::Absent(place)), Some(MassRefusal::Absent(other))) => place == other,
        (Some(MassRefusal::Over(rank)), Some(MassRefusal::Over(other))) => rank == other,
        _ => false,
    }
}

#[test]
fn tables_and_refusals(rt: HostRuntime) -> Result<(), Fail> {
    let auction = auction(rt.alloc(), 2, &[1, 2], &[1, 1])?;
    let counts = Counts::of(rt.alloc(), &auction)?;
    for (place, trial) in TRIALS.iter().enumerate() {
        let rows = Nums::from_slice(rt.alloc(), trial.rows)?;
        let refusal = Masses::new(&auction, &counts, trial.den, rows).err();
        assert!(rt; is_refusal(&refusal, &trial.refusal), "at {place}");
    }
    Ok(())
}
