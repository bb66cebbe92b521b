//! Answers about mechanisms without lotteries that are read as a whole, checked, and written again. The commands read leaf by leaf.
use md_num::Frac;
use md_samples::{SampleAgent, setting};
use md_setting::{RawSetting, Setting};
use md_tree::{DetReject, DetVerdict, check_determ, read_determ, write_determ};
use std::alloc::{AllocError, Global};
use std::test::Fail;

// One agent of one type, who has 1 outside and 2 or 0 inside, by the outcome. It does not pay, and the designer wants the second
// outcome. The best lottery gives both the same chance; without lotteries only the first outcome is left. Its program has the
// rows that the agent takes part and that the chances add to the whole, and at a leaf the outcome that is fixed there.
fn raw(alloc: Global) -> Result<RawSetting, AllocError> {
    let guest = SampleAgent {
        name: "a",
        types: &["t"],
        weights: &[1],
        outside: &[1],
        utility: &[&[2, 0]],
    };
    let mut raw = setting(alloc, &[guest], &["x", "y"], &[0, 4])?;
    raw.revenue = 0;
    raw.payments = false;
    Ok(raw)
}

// A text, and the verdict on it.
static CASES: [(&str, DetVerdict); 6] = [
    (
        "answer,1,determ,optimal\nvalue,0,1\ntable,1\nlottery,t,1,0\nbranch,0\nleaf,optimal\ntable,1\nlottery,t,1,0\nbound,1\nrow,1,0,1\nrow,2,0,-1\nleaf,infeasible\nrow,0,1\nrow,1,2\nrow,2,-2\nend\n",
        DetVerdict::Valid,
    ),
    // The last leaf has no multipliers.
    (
        "answer,1,determ,optimal\nvalue,0,1\ntable,1\nlottery,t,1,0\nbranch,0\nleaf,optimal\ntable,1\nlottery,t,1,0\nbound,1\nrow,1,0,1\nrow,2,0,-1\nleaf,infeasible\nend\n",
        DetVerdict::Rejected(DetReject::Leaf { node: 2 }),
    ),
    (
        "answer,1,determ,optimal\nvalue,1,1\ntable,1\nlottery,t,1,0\nleaf,infeasible\nend\n",
        DetVerdict::Rejected(DetReject::Value {
            right: Frac { num: 0, den: 1 },
        }),
    ),
    (
        "answer,1,determ,infeasible\nleaf,infeasible\nrow,1,1\nend\n",
        DetVerdict::Rejected(DetReject::Leaf { node: 0 }),
    ),
    // Nobody pays, so that nothing grows.
    (
        "answer,1,determ,unbounded\ntable,1\nlottery,t,1,0\nend\n",
        DetVerdict::Rejected(DetReject::Root),
    ),
    (
        "answer,1,determ,toowide\nfix,0,1\npivot,1,0\nwide,2,2,20,3\nagain\nwide,1,2,-7,1\nend\n",
        DetVerdict::Undecided,
    ),
];

// Whether a text is read, has that verdict, and is written again as it stands.
fn is_judged(alloc: Global, setting: &Setting, text: &str, wanted: &DetVerdict) -> bool {
    let Ok(answer) = read_determ(alloc, text.as_bytes(), setting) else {
        return false;
    };
    let is_right = match check_determ(alloc, setting, &answer) {
        Ok(verdict) => verdict == *wanted,
        Err(_) => false,
    };
    match write_determ(alloc, setting, &answer) {
        Ok(written) => is_right && written.as_slice() == text.as_bytes(),
        Err(_) => false,
    }
}

// The first case that is not as it is told.
fn first_other(alloc: Global, setting: &Setting) -> Option<usize> {
    for (place, (text, wanted)) in CASES.iter().enumerate() {
        if !is_judged(alloc, setting, text, wanted) {
            return Some(place);
        }
    }
    None
}

#[test]
fn whole_answers_are_judged_and_written_again(rt: HostRuntime) -> Result<(), Fail> {
    let alloc = rt.alloc();
    let raw = raw(alloc)?;
    match Setting::new(alloc, raw) {
        Ok(setting) => assert_eq!(rt; first_other(alloc, &setting), None),
        Err(_) => return Err("no setting")?,
    }
    Ok(())
}
